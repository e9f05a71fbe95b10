// The codes and sizes of book and run. Kinds, sorts and marks are constants and no enums: a byte of lent memory is
// compared with them as it stands, whatever it is.

// ---- a record of the book: its kind in byte 0, and its fields

pub const RECORD_BYTES: usize = 32;

pub const MAX_RECORDS: usize = 2048;

pub const INTEGER: u8 = 1;

pub const REAL: u8 = 2;

pub const BIT_VECTOR: u8 = 3;

pub const ATOM: u8 = 4;

pub const OPERATION: u8 = 5;

pub const OPERATOR_AT: usize = 1;

pub const COUNT_AT: usize = 2;

pub const SORT_AT: usize = 3;
// A value, a numerator or a name; then a denominator or a width.
pub const FIRST_AT: usize = 4;

pub const SECOND_AT: usize = 12;
// Behind the second field.
pub const FIELDS_END: usize = 20;
// Two bytes for each argument.
pub const ARGS_AT: usize = 4;

pub const MAX_ARGS: u8 = 14;

pub const MAX_WIDTH: u64 = 30;
// The number of no record.
pub const NOTHING: usize = 65535;

// ---- sorts: in an atom's record, and in a byte of the work area, where a bit-vector of w bits is BITS_CODE + w

pub const BOOL_SORT: u8 = 1;

pub const INT_SORT: u8 = 2;

pub const REAL_SORT: u8 = 3;

pub const BITS_SORT: u8 = 4;

pub const BITS_CODE: u8 = 3;

// ---- a record of the run: a mark, a byte, and a number in two bytes

pub const RUN_RECORD_BYTES: usize = 4;

pub const MAX_RUN_BYTES: usize = 16384;

pub const BYTE_AT: usize = 1;

pub const NUMBER_AT: usize = 2;

pub const STEP: u8 = b'S';

pub const PREMISE: u8 = b'P';

pub const CLAUSE: u8 = b'C';

pub const ARGUMENT: u8 = b'A';
