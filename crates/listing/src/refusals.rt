// Of a refusal where it stands and what was wrong, and of a refused record its bytes.
ghost use Rattle.std.specs.Prelude.{◌<◌};

use crate::answer::Answer;
use crate::faults::run_fault;
use crate::format::{Lent, RUN_RECORDS, Terms};
use crate::words::{print_reason, print_rule};
use numbers::bytes::byte;
use programs::printing::{print, print_bytes};
use rules::refusal::{Refusal, refusal_number};
use runs::prepare::prepare;
use runs::run::step_at;
use runs::verdict::{LentRefusal, Verdict, lent_number};
use std::io;
use terms::areas::INDEX_END;
use terms::format::{BYTE_AT, MAX_RECORDS, RECORD_BYTES, RUN_RECORD_BYTES};
use terms::reading::{BookRefusal, book_number};

// ---- a record

// A book or a run, and what is said of its records.
#[derive(Clone, Copy)]
struct Records<'a> {
    bytes: &'a [u8],
    of: &'static str,
    // The bytes of a record, and the most records.
    size: usize,
    most: usize,
    // The refusal of another length.
    refusal: LentRefusal,
    ghost some: { 0 < size },
}

impl Records<'_> {
    fn of_book(book: &[u8]) -> Records<'_> {
        Records {
            bytes: book,
            of: "book",
            size: RECORD_BYTES,
            most: MAX_RECORDS,
            refusal: LentRefusal::OfBook(BookRefusal::BookSize),
        }
    }

    fn of_run(run: &[u8]) -> Records<'_> {
        Records {
            bytes: run,
            of: "run",
            size: RUN_RECORD_BYTES,
            most: RUN_RECORDS,
            refusal: LentRefusal::RunSize,
        }
    }

    fn print_number(self, rt: &impl Print, id: usize) -> io::Result<()> {
        print!(rt; "record {id} of the {}: ", self.of)
    }

    // As many of the bytes of record `id` as there are.
    fn print_bytes(self, rt: &impl Print, id: usize) -> io::Result<()> {
        print(rt, b"its bytes: ")?;
        if let Some(record) = self.bytes.chunks(self.size).nth(id) {
            print_bytes(rt, record)?;
        }
        print(rt, b"\n")
    }

    // Refusal 2 or 6: the record that is not whole, or the first that is too many.
    fn print_length(self, rt: &impl Print) -> io::Result<()> {
        if self.bytes.len() % self.size == 0 {
            self.print_number(rt, self.most)?;
            println!(rt;
                "{}: the {} has more than {} records",
                lent_number(self.refusal),
                self.of,
                self.most
            )?;
            return self.print_bytes(rt, self.most);
        }
        let id = self.bytes.len() / self.size;
        self.print_number(rt, id)?;
        println!(rt;
            "{}: the {} is not whole records of {} bytes",
            lent_number(self.refusal),
            self.of,
            self.size
        )?;
        self.print_bytes(rt, id)
    }
}

// ---- the book

// Refusals 2 to 5 of a book.
pub fn print_book_refusal(
    rt: &impl Print,
    book: &[u8],
    c: BookRefusal,
    id: usize,
) -> io::Result<()> {
    let records = Records::of_book(book);
    if let BookRefusal::BookSize = c {
        return records.print_length(rt);
    }
    records.print_number(rt, id)?;
    print_reason(rt, book_number(c))?;
    records.print_bytes(rt, id)
}

// The book is read again, for the record that is refused.
fn print_refused_book(rt: &impl Print, book: &[u8]) -> io::Result<()> {
    let mut work = [0u8; INDEX_END];
    match prepare(book, &mut work) {
        Ok(_) => Ok(()),
        Err(e) => print_book_refusal(rt, book, e.refusal, e.at),
    }
}

// ---- the run

// Refusal 7: the run is read again over the sorts of the book, for the record that is refused.
fn print_refused_run(rt: &impl Print, lent: Lent) -> io::Result<()> {
    let mut work = [0u8; INDEX_END];
    // A run is refused behind its book, which is read.
    let _ = prepare(lent.book, &mut work);
    let terms = Terms {
        book: lent.book,
        sorts: &work,
    };
    let found = run_fault(terms, lent.run);
    let id = found.map_or(0, |found| found.at);
    let records = Records::of_run(lent.run);
    records.print_number(rt, id)?;
    print!(rt; "{}: ", lent_number(LentRefusal::RunRecord))?;
    match found {
        Some(found) => println!(rt; "{}", found.fault)?,
        None => print(rt, b"a record of the run is at fault\n")?,
    }
    records.print_bytes(rt, id)
}

// ---- a verdict

// Refusals 1 to 8.
fn print_lent_refusal(rt: &impl Print, lent: Lent, r: LentRefusal) -> io::Result<()> {
    match r {
        LentRefusal::OfBook(_) => print_refused_book(rt, lent.book),
        LentRefusal::RunSize => Records::of_run(lent.run).print_length(rt),
        LentRefusal::RunRecord => print_refused_run(rt, lent),
        LentRefusal::WorkAreaOrLimit | LentRefusal::NoRoom => print_reason(rt, lent_number(r)),
    }
}

// Refusals 10 to 42, of the step behind the accepted ones.
fn print_step_refusal(rt: &impl Print, run: &[u8], steps: usize, r: Refusal) -> io::Result<()> {
    print!(rt; "step {steps}, ")?;
    print_rule(rt, byte(step_at(run, steps), BYTE_AT))?;
    print(rt, b": ")?;
    print_reason(rt, refusal_number(r))
}

// What a verdict refuses, if it does.
pub fn print_refusal(rt: &impl Print, lent: Lent, a: Answer) -> io::Result<()> {
    match a.verdict {
        Verdict::AllAccepted => Ok(()),
        Verdict::Lent(r) => print_lent_refusal(rt, lent, r),
        Verdict::Stopped(r) => print_step_refusal(rt, lent.run, a.steps, r),
    }
}
