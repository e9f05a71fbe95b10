// Layer 2: the rule poly_simp of src/checker/rules/polynomial.rs on one step.
#![tactic(auto)]

pub mod poly_simp;
