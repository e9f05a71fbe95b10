// Layer 3: the elaboration of one step.
#![tactic(auto)]

pub mod farkas;
