// The sort rules, the stand-in for the Rust's `Pool::sort`. A sort is one number (`format`).
ghost use Rattle.std.specs.Prelude.{◌≡◌};
ghost use Rattle.terms.specs.Book.{numbers};
ghost use Rattle.book.specs.Memory.Sorting.{arg_sorts, common, sort_at, takes_by, gives_by, sort_rule, width_code};
ghost use Rattle.book.specs.Memory.Sorting.{atom_code};
ghost use Rattle.book.specs.Memory.Sorting.{sorting};

use numbers::bytes::{byte, read_u16, read_u64};
use terms::format::{
    BIT_VECTOR, BITS_CODE, BITS_SORT, BOOL_SORT, INT_SORT, INTEGER, MAX_WIDTH, OPERATION,
    OPERATOR_AT, REAL, REAL_SORT, SECOND_AT, SORT_AT,
};
use terms::operator::{
    ADD, EQUALS, GREATER_EQ, INT_DIV, LESS_THAN, MULT, NO_OPERATOR, OR, REAL_DIV, TO_REAL,
};
use terms::records::arg_bytes;

// What the sorts of an operation's arguments have in common.
#[derive(Clone, Copy)]
pub struct ArgSorts {
    pub first: u8,
    // All are the first one.
    pub same: bool,
    // All are Int or Real.
    pub numeric: bool,
    // All are Int.
    pub int: bool,
}

// The sort of record a as an argument of record `id`, by the sorts of the records before that.
fn sort_at(a: usize, id: usize, sorts: &[u8]) -> u8
    ensures { result ≡ sort_at id sorts.now a }
{
    if a < id { byte(sorts, a) } else { BOOL_SORT }
}

// Over the arguments of record `id`.
fn common(args: &[u8], id: usize, sorts: &[u8]) -> ArgSorts
    ensures { result ≡ common (arg_sorts id sorts.now (numbers args.now)) }
{
    let first = if args.len() < 2 {
        BOOL_SORT
    } else {
        sort_at(read_u16(args, 0) as usize, id, sorts)
    };
    let mut same = true;
    let mut numeric = true;
    let mut int = true;
    for k in 0..args.len() / 2 {
        let s = sort_at(read_u16(args, 2 * k) as usize, id, sorts);
        same &= s == first;
        numeric &= s == INT_SORT || s == REAL_SORT;
        int &= s == INT_SORT;
    }
    ArgSorts {
        first,
        same,
        numeric,
        int,
    }
}

// Whether an operator takes arguments of such sorts.
#[tactic(auto, using(crate::proofs::SortCodes::takes_cases))]
fn takes(o: u8, c: ArgSorts) -> bool
    ensures { result ≡ takes_by o c }
{
    match o {
        NO_OPERATOR..=OR => c.first == BOOL_SORT && c.same,
        EQUALS => c.same || c.numeric,
        LESS_THAN..=MULT | REAL_DIV | TO_REAL => c.numeric,
        INT_DIV => c.int,
        _ => BITS_SORT <= c.first && c.same,
    }
}

// The sort that it gives.
#[tactic(auto, using(crate::proofs::SortCodes::gives_cases))]
fn gives(o: u8, c: ArgSorts) -> u8
    ensures { result ≡ gives_by o c }
{
    match o {
        NO_OPERATOR..=GREATER_EQ => BOOL_SORT,
        ADD..=MULT => if c.int { INT_SORT } else { REAL_SORT },
        INT_DIV => INT_SORT,
        REAL_DIV | TO_REAL => REAL_SORT,
        _ => c.first,
    }
}

fn sort_rule(o: u8, c: ArgSorts) -> Option<u8>
    ensures { result ≡ sort_rule o c }
{
    if takes(o, c) { Some(gives(o, c)) } else { None }
}

// The sort of a bit-vector by its record's width.
fn width_code(r: &[u8]) -> u8
    ensures { result ≡ width_code r.now }
{
    let w = read_u64(r, SECOND_AT);
    if w <= MAX_WIDTH {
        BITS_CODE + w as u8
    } else {
        BITS_CODE
    }
}

fn atom_code(r: &[u8]) -> u8
    ensures { result ≡ atom_code r.now }
{
    match byte(r, SORT_AT) {
        INT_SORT => INT_SORT,
        REAL_SORT => REAL_SORT,
        BITS_SORT => width_code(r),
        _ => BOOL_SORT,
    }
}

// The sort of record `id` with bytes r, where `sorts` has the sorts of the records before it.
pub fn sort_of(r: &[u8], id: usize, sorts: &[u8]) -> Option<u8>
    ensures { result ≡ sorting id sorts.now r.now }
{
    match byte(r, 0) {
        INTEGER => Some(INT_SORT),
        REAL => Some(REAL_SORT),
        BIT_VECTOR => Some(width_code(r)),
        OPERATION => sort_rule(byte(r, OPERATOR_AT), common(arg_bytes(r), id, sorts)),
        _ => Some(atom_code(r)),
    }
}
