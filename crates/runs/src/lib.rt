// Layer 3: book and run are read.
#![tactic(auto)]

pub mod prepare;
pub mod rule;
pub mod run;
pub mod verdict;
