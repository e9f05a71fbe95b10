// Layer 2: a literal of rules 4 to 6 as a disequality.
#![tactic(auto)]

pub mod disequality;
