// The steps of a run in words: number and rule, and below them a line for each premise, literal and argument. A term
// stands there as in the listing of its book.
use crate::format::{MARK, Terms, opens};
use crate::records::print_record;
use crate::words::print_rule;
use numbers::bytes::{byte, read_u16};
use programs::printing::print;
use std::io;
use terms::format::{ARGUMENT, BYTE_AT, CLAUSE, NUMBER_AT, PREMISE, RUN_RECORD_BYTES};

// The S of step n.
fn print_step(rt: &impl Print, n: usize, rule: u8) -> io::Result<()> {
    print!(rt; "{n} ")?;
    print_rule(rt, rule)?;
    print(rt, b"\n")
}

// A C or an A.
fn print_term(rt: &impl Print, what: &[u8], terms: Terms, id: usize) -> io::Result<()> {
    print(rt, what)?;
    print_record(rt, terms, id)
}

// A record of the run, where n steps stand before it.
fn print_part(rt: &impl Print, terms: Terms, r: &[u8], n: usize) -> io::Result<()> {
    let number = read_u16(r, NUMBER_AT) as usize;
    match byte(r, MARK) {
        PREMISE => println!(rt; "  premise {number}"),
        CLAUSE => print_term(rt, b"  literal ", terms, number),
        ARGUMENT => print_term(rt, b"  argument ", terms, number),
        _ => print_step(rt, n, byte(r, BYTE_AT)),
    }
}

// The records of a run that was read.
pub fn print_steps(rt: &impl Print, terms: Terms, run: &[u8]) -> io::Result<()> {
    let mut n = 0;
    for r in run.chunks_exact(RUN_RECORD_BYTES) {
        print_part(rt, terms, r, n)?;
        n += usize::from(opens(r));
    }
    Ok(())
}
