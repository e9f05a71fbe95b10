// The sizes and offsets of the work area: a sort for each record, then the index while the book is read, and then the
// sums or the polynomials of a step.
pub const WORK_BYTES: usize = 65536;

// ---- the index of a book: the first number of each chain, then the number after each record

pub const HEADS_AT: usize = 2048;

pub const LINKS_AT: usize = 4096;

pub const INDEX_END: usize = 8192;

// ---- three sums: places of a record number and a number

pub const STEP_AT: usize = 2048;

pub const SUM_BYTES: usize = 20480;

pub const ENTRY_BYTES: usize = 10;

pub const COEFFICIENT_AT: usize = 2;

// ---- polynomials: places of a monomial, which is a count and record numbers, and a number

pub const POLYNOMIAL_BYTES: usize = 1600;

pub const MAX_MONOMIALS: usize = 64;

pub const PLACE_BYTES: usize = 25;

pub const MONOMIAL_BYTES: usize = 17;

pub const MAX_ATOMS: usize = 8;

pub const MAX_DEPTH: u8 = 8;
