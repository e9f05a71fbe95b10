// Layer 3: an elaboration that is marked again.
#![tactic(auto)]

pub mod again;
