// Layer 1: bytes, and rational numbers by value and in bytes.
#![tactic(auto)]

pub mod bytes;
pub mod number;
