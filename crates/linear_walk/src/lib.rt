// Layer 2: the walk of a term into a sum.
#![tactic(auto)]

pub mod from_term;
pub mod linear_walk;
mod nodes;
