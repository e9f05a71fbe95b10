// Layer 2: sums in the three areas of the work area.
#![tactic(auto)]

pub mod work_area;
