// Layer 2: the rules of src/checker/rules/linear_arithmetic.rs that compare terms and numbers alone.
#![tactic(auto)]

pub mod linear_shapes;
