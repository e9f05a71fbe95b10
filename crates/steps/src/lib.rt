// Layer 3: one step is checked by its rule.
#![tactic(auto)]

pub mod check_step;
