// Layer 2: one literal of rules 5 and 6, added to the sum so far.
#![tactic(auto)]

pub mod process_disequality;
