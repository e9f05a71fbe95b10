// Layer 2, what all rules share: refusals, readers that refuse, parts of a run, shapes of terms.
#![tactic(auto)]

pub mod counter;
pub mod readers;
pub mod refusal;
pub mod run_records;
pub mod shapes;
