// Books, runs and refusals in words, on standard output: what the program `mark` lists and says.
#![tactic(auto)]

pub mod answer;
pub mod faults;
pub mod format;
pub mod records;
pub mod refusals;
pub mod steps;
pub mod words;
