// Layer 3: the elaboration of a run, and the three demands.
#![tactic(auto)]

pub mod elaborate;
