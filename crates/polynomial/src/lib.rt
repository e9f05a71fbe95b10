// Layer 2: polynomials, and their areas of the work area.
#![tactic(auto)]

pub mod monomials;
pub mod polynomial;
