// Layer 2: the rule poly_simp_rel of src/checker/rules/polynomial.rs on one step.
#![tactic(auto)]

pub mod polynomial_rel;
