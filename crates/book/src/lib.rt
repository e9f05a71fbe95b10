// Layer 1: a book is read: layout, sorts, equality.
#![tactic(auto)]

pub mod book;
pub mod index;
pub mod layout;
pub mod sort;
