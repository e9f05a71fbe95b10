// What the programs share: memory to lend, printing, tables of words, arguments, files, and the file of cases that a
// replay reads.
#![tactic(auto)]

pub mod areas;
pub mod arguments;
pub mod cases;
pub mod files;
pub mod printing;
pub mod tables;
