// Real constants: in the book, and in a tail, which is their records one behind the other.
ghost use Rattle.std.specs.Prelude.{◌≡◌, List, ◌+◌, ◌/◌, ◌≤◌, ◌<◌, length, replicate, IfSome};
ghost use Rattle.numbers.specs.Rational.{Rational, Proper};
ghost use Rattle.numbers.specs.Bytes.{put, complement};
ghost use Rattle.terms.specs.Format.{max_records, record_bytes};
ghost use Rattle.terms.specs.Book.{count, rational_of, record_of, tree};
ghost use Rattle.runs.specs.Run.{Every};
ghost use Rattle.out_areas.specs.Farkas.{real_record, is_real, find_real, place_in, tail_bytes, place_or};

use numbers::bytes::{byte, paste, read_u64, signed_u64};
use numbers::number::Number;
use terms::format::{FIRST_AT, REAL, RECORD_BYTES, SECOND_AT};
use terms::records::{count, record};
use terms::term::as_number;

// Whether a record is the real constant q.
fn is_real(book: &[u8], id: usize, q: Number) -> bool
    ensures { result ≡ is_real q (tree book.now id) }
{
    byte(record(book, id), 0) == REAL
        && match as_number(book, id) {
            Ok(v) => q.eq(v),
            _ => false,
        }
}

// The record of the real constant q in the book.
pub(crate) fn find_real(book: &[u8], q: Number) -> Option<usize>
    ensures { result ≡ find_real (count book.now) book.now q 0 }
{
    (0..count(book)).find(|id| is_real(book, *id, q))
}

// The number in record k of a tail, as that of a real constant.
fn real_at(tail: &[u8], k: usize) -> Number
    ensures { result ≡ rational_of (record_of tail.now k) }
{
    let r = record(tail, k);
    Number {
        num: signed_u64(read_u64(r, FIRST_AT)),
        den: signed_u64(read_u64(r, SECOND_AT)),
    }
}

// The place of q among the constants of a tail.
pub(crate) fn place_in(tail: &[u8], q: Number) -> Option<usize>
    ensures value { (qs : List Rational) → Every Proper qs → tail.now ≡ tail_bytes qs →
        length qs ≤ max_records → place_or result (length qs) ≡ place_in qs q }
    ensures upper_bound { IfSome result (λ k. k < length tail.now / record_bytes) }
{
    (0..count(tail)).find(|k| real_at(tail, *k).eq(q))
}

// Eight bytes in two's complement.
fn write_signed(s: &mut [u8], at: usize, n: i64)
    requires { at + 8 ≤ length s.old }
    ensures { s.new ≡ put 8 (complement 8 n) s.old at }
{
    paste(s, at, &n.to_le_bytes());
}

// The record of the real constant q, in 32 zeros.
pub(crate) fn put_real(r: &mut [u8], q: Number)
    requires { Proper q × (r.old ≡ replicate record_bytes 0) }
    ensures { r.new ≡ real_record q }
{
    r[0] = REAL;
    write_signed(r, FIRST_AT, q.num);
    write_signed(r, SECOND_AT, q.den);
}
