// The records of a book in words, one a line: number, sort and the record.
use crate::format::{ARGUMENT_BYTES, Terms};
use crate::refusals::print_book_refusal;
use crate::words::print_operator;
use numbers::bytes::read_u64;
use numbers::number::Number;
use programs::printing::print;
use runs::prepare::prepare;
use std::{fmt, io};
use terms::areas::INDEX_END;
use terms::format::{BITS_CODE, BOOL_SORT, FIRST_AT, INT_SORT, REAL_SORT};
use terms::records::{argument, record};
use terms::term::{args, as_bitvector, as_number, operator};

// A sort, by its number in the work area.
#[derive(Clone, Copy)]
struct Sort(u8);

impl fmt::Display for Sort {
    fn fmt<W: fmt::Write>(&self, f: &mut fmt::Formatter<W>) -> fmt::Result {
        match self.0 {
            BOOL_SORT => f.write_str("Bool"),
            INT_SORT => f.write_str("Int"),
            REAL_SORT => f.write_str("Real"),
            s => write!(f, "BitVec({})", s.saturating_sub(BITS_CODE)),
        }
    }
}

// The arguments of record `id`, from the part of it that holds them.
fn print_arguments(rt: &impl Print, args: &[u8], id: usize) -> io::Result<()> {
    for k in 0..args.len() / ARGUMENT_BYTES {
        print!(rt; " #{}", argument(args, k, id))?;
    }
    Ok(())
}

fn print_operation(rt: &impl Print, book: &[u8], id: usize, o: u8) -> io::Result<()> {
    print(rt, b"(")?;
    print_operator(rt, o)?;
    print_arguments(rt, args(book, id), id)?;
    print(rt, b")")
}

// An integer or a real, by its sort.
fn print_constant(rt: &impl Print, q: Number, s: u8) -> io::Result<()> {
    if s == INT_SORT {
        print!(rt; "integer {}", q.num)
    } else {
        print!(rt; "real {}/{}", q.num, q.den)
    }
}

fn print_bits_or_atom(rt: &impl Print, book: &[u8], id: usize) -> io::Result<()> {
    match as_bitvector(book, id) {
        Some((v, _)) => print!(rt; "bitvector {v}"),
        None => print!(rt; "atom a{}", read_u64(record(book, id), FIRST_AT)),
    }
}

// A record that is no operation, of sort s.
fn print_leaf(rt: &impl Print, book: &[u8], id: usize, s: u8) -> io::Result<()> {
    match as_number(book, id) {
        Ok(q) => print_constant(rt, q, s),
        _ => print_bits_or_atom(rt, book, id),
    }
}

pub fn print_record(rt: &impl Print, terms: Terms, id: usize) -> io::Result<()> {
    let s = terms.sort(id);
    print!(rt; "{id} {} ", Sort(s))?;
    match operator(terms.book, id) {
        0 => print_leaf(rt, terms.book, id, s)?,
        o => print_operation(rt, terms.book, id, o)?,
    }
    print(rt, b"\n")
}

fn print_records(rt: &impl Print, terms: Terms, n: usize) -> io::Result<()> {
    for id in 0..n {
        print_record(rt, terms, id)?;
    }
    Ok(())
}

// Lists the records of a book, or says why it is refused.
pub fn list_book(rt: &impl Print, book: &[u8]) -> io::Result<()> {
    let mut work = [0u8; INDEX_END];
    match prepare(book, &mut work) {
        Ok(n) => {
            let terms = Terms { book, sorts: &work };
            print_records(rt, terms, n)
        }
        Err(e) => {
            print(rt, b"refused: ")?;
            print_book_refusal(rt, book, e.refusal, e.at)
        }
    }
}
