// The Rust's readers of terms, over the records of a book. Each equals its definition for all bytes.
ghost use Rattle.std.specs.Prelude.{◌≡◌, option_copied};
ghost use Rattle.terms.specs.Term.{unary, binary};
ghost use Rattle.terms.specs.Term.Terms.{nil};
ghost use Rattle.terms.specs.Book.{record_of, node, tree};
ghost use Rattle.terms.specs.Readers.{ranged, as_number, negated, as_signed_number, quotient_of, as_unsigned_fraction};
ghost use Rattle.terms.specs.Readers.{as_fraction, as_bitvector, operator_of, remove_negation, Finds, FindsVector};
ghost use Rattle.terms.specs.Readers.{operands, ArgumentPart, Child, Children};

use crate::fields::{is_number, is_vector};
use crate::format::{ATOM, BIT_VECTOR, FIRST_AT, INTEGER, OPERATION, OPERATOR_AT, REAL, SECOND_AT};
use crate::operator::{INT_DIV, NO_OPERATOR, NOT, REAL_DIV, SUB};
use crate::records::{arg_bytes, argument, record};
use numbers::bytes::{byte, read_u64, signed_u64};
use numbers::number::Number;

// Why no number is read in a term.
#[derive(Clone, Copy, Debug, PartialEq, Eq)]
pub enum NotRead {
    // Refusal 25, where a number is asked for.
    NotNumber,
    // Refusal 11.
    OutOfRange,
}

// The number that a record's bytes are. An atom is told by its kind, without a look at its other bytes.
fn constant(r: &[u8]) -> Result<Number, NotRead>
    ensures { Finds result (as_number (node 0 r.now nil)) }
{
    let k = byte(r, 0);
    if k == ATOM {
        return Err(NotRead::NotNumber);
    }
    let n = signed_u64(read_u64(r, FIRST_AT));
    let d = match k {
        INTEGER => 1,
        REAL => signed_u64(read_u64(r, SECOND_AT)),
        _ => 0,
    };
    if is_number(n, d) {
        Ok(Number { num: n, den: d })
    } else {
        Err(NotRead::NotNumber)
    }
}

pub fn as_number(book: &[u8], id: usize) -> Result<Number, NotRead>
    ensures { Finds result (as_number (tree book.now id)) }
{
    constant(record(book, id))
}

// The part of the record that holds the n arguments of operator o, if the term is such an operation.
fn operands(book: &[u8], id: usize, o: u8, n: usize) -> Option<&[u8]>
    ensures { option_copied result ≡ operands (record_of book.now id) o n }
{
    let r = record(book, id);
    if byte(r, 0) == OPERATION && byte(r, OPERATOR_AT) == o {
        let args = arg_bytes(r);
        if args.len() / 2 == n {
            return Some(args);
        }
    }
    None
}

// (o x): the record of x, if the term is such an operation.
pub fn unary(book: &[u8], id: usize, o: u8) -> Option<usize>
    ensures { Child book.now id result (unary o (tree book.now id)) }
{
    let args = operands(book, id, o, 1)?;
    Some(argument(args, 0, id))
}

// (o x y): the records of x and y, if it is such an operation.
pub fn binary(book: &[u8], id: usize, o: u8) -> Option<(usize, usize)>
    ensures { Children book.now id result (binary o (tree book.now id)) }
{
    let args = operands(book, id, o, 2)?;
    Some((argument(args, 0, id), argument(args, 1, id)))
}

fn negated(x: Result<Number, NotRead>) -> Result<Number, NotRead>
    requires { Finds x x }
    ensures { Finds result (negated x) }
{
    Ok(x?.neg())
}

pub fn as_signed_number(book: &[u8], id: usize) -> Result<Number, NotRead>
    ensures { Finds result (as_signed_number (tree book.now id)) }
{
    match unary(book, id, SUB) {
        Some(x) => negated(as_number(book, x)),
        None => as_number(book, id),
    }
}

// (div x y) or (/ x y)
fn quotient_of(book: &[u8], id: usize) -> Option<(usize, usize)>
    ensures { Children book.now id result (quotient_of (tree book.now id)) }
{
    match binary(book, id, INT_DIV) {
        None => binary(book, id, REAL_DIV),
        both => both,
    }
}

// The divisor is read before the dividend.
fn as_unsigned_fraction(book: &[u8], id: usize) -> Result<Number, NotRead>
    ensures { Finds result (as_unsigned_fraction ranged (tree book.now id)) }
{
    let Some((x, y)) = quotient_of(book, id) else {
        return as_number(book, id);
    };
    let Ok(d) = as_signed_number(book, y) else {
        return Err(NotRead::NotNumber);
    };
    if d.is_zero() {
        return Err(NotRead::NotNumber);
    }
    let Ok(n) = as_signed_number(book, x) else {
        return Err(NotRead::NotNumber);
    };
    n.div(d).ok_or(NotRead::OutOfRange)
}

// A fraction that is an operation, or one minus over any.
fn as_operation(book: &[u8], id: usize) -> Result<Number, NotRead>
    ensures { Finds result (as_fraction ranged (tree book.now id)) }
{
    match unary(book, id, SUB) {
        Some(x) => negated(as_unsigned_fraction(book, x)),
        None => as_unsigned_fraction(book, id),
    }
}

// Most terms that are read are no operations: they take no call.
pub fn as_fraction(book: &[u8], id: usize) -> Result<Number, NotRead>
    ensures { Finds result (as_fraction ranged (tree book.now id)) }
{
    if operator(book, id) == NO_OPERATOR {
        return as_number(book, id);
    }
    as_operation(book, id)
}

// Value and width; where a bit-vector is asked for, None is refusal 41.
pub fn as_bitvector(book: &[u8], id: usize) -> Option<(u64, u64)>
    ensures { FindsVector result (as_bitvector (tree book.now id)) }
{
    let r = record(book, id);
    if byte(r, 0) == BIT_VECTOR && is_vector(r) {
        Some((read_u64(r, FIRST_AT), read_u64(r, SECOND_AT)))
    } else {
        None
    }
}

// The operator of `as_op`; `NO_OPERATOR` where the term is no operation.
pub fn operator(book: &[u8], id: usize) -> u8
    ensures { result ≡ operator_of (tree book.now id) }
{
    let r = record(book, id);
    if byte(r, 0) == OPERATION {
        byte(r, OPERATOR_AT)
    } else {
        NO_OPERATOR
    }
}

// The arguments of `as_op`, as the part of the record that holds them.
pub fn args(book: &[u8], id: usize) -> &[u8]
    ensures { ArgumentPart book.now id result.now }
{
    arg_bytes(record(book, id))
}

// x of (not x)
pub fn remove_negation(book: &[u8], id: usize) -> Option<usize>
    ensures { Child book.now id result (remove_negation (tree book.now id)) }
{
    unary(book, id, NOT)
}
