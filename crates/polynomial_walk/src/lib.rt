// Layer 2: the walk of a term that fills a polynomial.
#![tactic(auto)]

mod additions;
pub mod polynomial_walk;
