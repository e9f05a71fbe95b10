// The operators by document 01's numbers, under the Rust's names. They are constants and no enum: a byte of a record is
// compared with them as it stands, whatever it is.
pub const NOT: u8 = 1;

pub const AND: u8 = 2;

pub const OR: u8 = 3;

pub const EQUALS: u8 = 4;

pub const LESS_THAN: u8 = 5;

pub const LESS_EQ: u8 = 6;

pub const GREATER_THAN: u8 = 7;

pub const GREATER_EQ: u8 = 8;

pub const ADD: u8 = 9;

pub const SUB: u8 = 10;

pub const MULT: u8 = 11;

pub const INT_DIV: u8 = 12;

pub const REAL_DIV: u8 = 13;

pub const TO_REAL: u8 = 14;

pub const BV_ADD: u8 = 15;

pub const BV_SUB: u8 = 16;

pub const BV_NEG: u8 = 17;

pub const BV_MUL: u8 = 18;
// What `operator` answers of a term that is no operation.
pub const NO_OPERATOR: u8 = 0;
