// Layer 2: the rules of src/checker/rules/linear_arithmetic.rs that add up linear combinations, on one step.
#![tactic(auto)]

pub mod linear_arithmetic;
