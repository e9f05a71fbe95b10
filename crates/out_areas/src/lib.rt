// Layer 3: what is written of a step to the out areas.
#![tactic(auto)]

mod constants;
pub mod out_areas;
