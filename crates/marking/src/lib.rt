// Layer 3: a run is marked.
#![tactic(auto)]

pub mod check;
