// Layer 1: terms, as records of a book: the codes, a record's bytes and fields, and the readers of terms.
#![tactic(auto)]

pub mod areas;
pub mod fields;
pub mod format;
pub mod operator;
pub mod reading;
pub mod records;
pub mod term;
