// The records of a book: 32 bytes each, numbered from 0. They replace the Rust's `Pool` and `Rc<Term>`, since no heap
// is used: a term is a record number. Every function takes any bytes and any number; a record that is not there has no
// bytes.
ghost use Rattle.std.specs.Prelude.{◌≡◌};
ghost use Rattle.terms.specs.Book.{count, record_of, arg_bytes, argument_at};

use crate::format::{ARGS_AT, COUNT_AT, MAX_RECORDS, NOTHING, OPERATION, RECORD_BYTES};
use numbers::bytes::{byte, read_u16};

// How many records are there, 2048 at most.
pub fn count(book: &[u8]) -> usize
    ensures { result ≡ count book.now }
{
    (book.len() / RECORD_BYTES).min(MAX_RECORDS)
}

// The bytes of a record.
pub fn record(book: &[u8], id: usize) -> &[u8]
    ensures { result.now ≡ record_of book.now id }
{
    if id < count(book) {
        let at = RECORD_BYTES * id;
        &book[at..at + RECORD_BYTES]
    } else {
        &[]
    }
}

// The part of a record that holds its arguments, two bytes each.
pub fn arg_bytes(r: &[u8]) -> &[u8]
    ensures { result.now ≡ arg_bytes r.now }
{
    if byte(r, 0) != OPERATION {
        return &[];
    }
    let args = r.get(ARGS_AT..).unwrap_or(&[]);
    let n = 2 * usize::from(byte(r, COUNT_AT));
    &args[..n.min(args.len())]
}

// Argument k of record `id`, from the part that holds its arguments; the number of no record where it is not an earlier
// one.
pub fn argument(args: &[u8], k: usize, id: usize) -> usize
    ensures { result ≡ argument_at args.now k id }
{
    if k < args.len() / 2 {
        let a = read_u16(args, 2 * k) as usize;
        if a < id {
            return a;
        }
    }
    NOTHING
}
