// A run elaborated over a book, and its elaboration marked again.
use crate::Host;
use crate::answer::print_answer;
use crate::options::{OUT_RUN, OUT_TAIL};
use again::again::elaborate_and_mark;
use elaborate::elaborate::written;
use listing::answer::Answer;
use listing::format::{Lent, RUN_RECORDS};
use programs::areas::area;
use programs::arguments::{MAX_WORD, path_of, print_word};
use programs::files::{remove, write_new};
use programs::printing::{Complained, Complaints, complain, print};
use runs::verdict::Verdict;
use std::io;
use std::rt::{Env, Files};
use terms::areas::WORK_BYTES;
use terms::format::{MAX_RECORDS, RECORD_BYTES, RUN_RECORD_BYTES};

// The bytes of the longest run.
const RUN_BYTES: usize = RUN_RECORD_BYTES * RUN_RECORDS;

// The bytes of the largest book; a book and its tail have no more.
const BOOK_BYTES: usize = RECORD_BYTES * MAX_RECORDS;

// What an elaboration comes to: the two files' bytes, and whether its second marking agrees.
#[derive(Clone, Copy)]
struct Elaboration<'a> {
    run: &'a [u8],
    tail: &'a [u8],
    again: bool,
}

// ---- the files

// Makes both files, or neither: where the second cannot be made, the first is removed.
fn write_both<R: Env + Files + Complaints>(rt: &R, e: Elaboration) -> Result<(), Complained> {
    let mut first = [0u8; MAX_WORD];
    let first = path_of(rt, OUT_RUN, b"OUT_RUN", &mut first)?;
    let mut second = [0u8; MAX_WORD];
    let second = path_of(rt, OUT_TAIL, b"OUT_TAIL", &mut second)?;
    write_new(rt, first, e.run)?;
    write_new(rt, second, e.tail).map_err(|complained| {
        remove(rt, first);
        complained
    })
}

// ---- what is said

// So many bytes, in the file that argument i names.
fn print_file<R: Env + Print>(rt: &R, bytes: usize, i: usize) -> io::Result<()> {
    print!(rt; "{bytes} bytes to ")?;
    print_word(rt, i)
}

fn print_written<R: Env + Print>(rt: &R, e: Elaboration) -> io::Result<()> {
    print(rt, b"written ")?;
    print_file(rt, e.run.len(), OUT_RUN)?;
    print(rt, b" and ")?;
    print_file(rt, e.tail.len(), OUT_TAIL)?;
    print(rt, b"\n")
}

// What is said of the second marking of an elaboration of so many steps.
fn print_again(rt: &impl Print, steps: usize, again: bool) -> io::Result<()> {
    let said: &[u8] = match (steps, again) {
        (0, _) => b"marked again: nothing was accepted, so the elaboration has no steps\n",
        (_, true) =>
            b"marked again: accepted whole, with the same steps and visits, and nothing inferred
what that says of the clauses: 'What verdict 0 means' in the README
",
        (_, false) => b"marked again: not the same answer; see demand 3's premises in the README\n",
    };
    print(rt, said)
}

// ---- the command

// Answers once the files are there, unless refusals 1 to 8 arise: then there are none.
fn answer(rt: &impl Host, lent: Lent, a: Answer, e: Elaboration) -> io::Result<()> {
    if let Verdict::Lent(_) = a.verdict {
        print_answer(rt, lent, a)?;
        return print(rt, b"nothing is written\n");
    }
    if write_both(rt, e).is_err() {
        complain(rt, b"mark: nothing is written, so no verdict is given\n");
        return Ok(());
    }
    print_answer(rt, lent, a)?;
    print_written(rt, e)?;
    print_again(rt, a.steps, e.again)
}

// Elaborates, marks the elaboration again, writes both files and answers. A work area and the largest book have 65,536
// bytes.
pub(crate) fn elaborate_files(rt: &impl Host, lent: Lent, limit: u32) -> io::Result<()> {
    let mut work = [0u8; WORK_BYTES];
    let mut outrun: [u8; RUN_BYTES] = area(0);
    let mut outtail = [0u8; BOOK_BYTES];
    let mut joined = [0u8; BOOK_BYTES];
    let mut againrun: [u8; RUN_BYTES] = area(0);
    let mut againtail = [0u8; BOOK_BYTES];
    let t = elaborate_and_mark(
        lent.book,
        lent.run,
        limit,
        &mut work,
        &mut outrun,
        &mut outtail,
        &mut joined,
        &mut againrun,
        &mut againtail,
    );
    let first = t.first;
    let a = Answer {
        verdict: first.verdict,
        steps: first.steps,
        visits: first.visits,
    };
    let e = Elaboration {
        run: written(&outrun, first.run),
        tail: written(&outtail, first.tail),
        again: t.again,
    };
    answer(rt, lent, a, e)
}
