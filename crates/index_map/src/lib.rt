// Layer 2: the map that sums and polynomials are, in lent bytes.
#![tactic(auto)]

pub mod combination;
pub mod index_map;
pub mod stored_map;
