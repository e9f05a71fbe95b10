// Layer 2: linear combinations, their areas of the work area, and the walk that fills one from a term.
#![tactic(auto)]

pub mod linear_comb;
pub mod notes;
