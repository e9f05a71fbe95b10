// `mark BOOK` lists the records of a book file. `mark BOOK RUN [LIMIT]` marks a run over it, and `mark BOOK RUN --list`
// lists its steps. `mark --elaborate BOOK RUN LIMIT OUT_RUN OUT_TAIL` writes the elaboration of its accepted steps and
// marks it again.
#![tactic(auto)]

mod answer;
mod elaboration;
mod help;
mod options;
mod run_listing;

ghost use Rattle.std.specs.Prelude.{◌≤◌};

use answer::mark;
use elaboration::elaborate_files;
use help::{help, usage, version};
use listing::format::{Lent, RUN_RECORDS};
use listing::records::list_book;
use marking::check::MAX_LIMIT;
use options::{
    ELABORATED_BOOK, ELABORATED_LIMIT, FIRST, LIMIT, OUT_TAIL, RUN, Word, all_plain, first_unknown,
    limit_of, word_at,
};
use programs::areas::area;
use programs::arguments::{arg_count, complain_word};
use programs::files::read_arg;
use programs::printing::{Complaints, complain};
use run_listing::list_run;
use std::io;
use std::rt::{Env, Files};
use terms::format::{MAX_RECORDS, RECORD_BYTES, RUN_RECORD_BYTES};

// One record more than a book and a run may have, so that a longer file shows.
const BOOK_SPACE: usize = RECORD_BYTES * MAX_RECORDS + RECORD_BYTES;

const RUN_SPACE: usize = RUN_RECORD_BYTES * RUN_RECORDS + RUN_RECORD_BYTES;

// What the commands ask of the system: words, files, standard output and complaints.
pub(crate) trait Host: Env + Files + Print + Complaints {}

impl Host for HostRuntime {}

// ---- the commands

fn with_book(rt: &impl Host) -> io::Result<()> {
    let mut space: [u8; BOOK_SPACE] = area(0);
    match read_arg(rt, FIRST, b"BOOK", &mut space) {
        Ok(book) => list_book(rt, book),
        Err(_) => Ok(()),
    }
}

// Performs a command on the book and the run in the files that arguments i and i + 1 name.
fn with_files<F: FnOnce(Lent<'_>) -> io::Result<()>>(
    rt: &impl Host,
    i: usize,
    command: F,
) -> io::Result<()>
    requires first { i ≤ 2 }
    requires callable { F.IsAlwaysCallable command }
{
    let mut book: [u8; BOOK_SPACE] = area(0);
    let Ok(book) = read_arg(rt, i, b"BOOK", &mut book) else {
        return Ok(());
    };
    let mut run: [u8; RUN_SPACE] = area(0);
    let Ok(run) = read_arg(rt, i + 1, b"RUN", &mut run) else {
        return Ok(());
    };
    command(Lent { book, run })
}

// Performs a command under the limit that argument i gives.
fn with_limit<F: FnOnce(u32) -> io::Result<()>>(
    rt: &impl Host,
    i: usize,
    command: F,
) -> io::Result<()>
    requires { F.IsAlwaysCallable command }
{
    match limit_of(rt, i) {
        Ok(limit) => command(limit),
        Err(_) => Ok(()),
    }
}

fn mark_with_limit(rt: &impl Host) -> io::Result<()> {
    with_limit(
        rt,
        LIMIT,
        |limit| with_files(rt, FIRST, |lent| mark(rt, lent, limit)),
    )
}

fn elaborate_with_limit(rt: &impl Host) -> io::Result<()> {
    with_limit(rt, ELABORATED_LIMIT, |limit| {
        with_files(rt, ELABORATED_BOOK, |lent| elaborate_files(rt, lent, limit))
    })
}

// ---- the command line

// `mark BOOK RUN` and a third argument.
fn limit_or_list(rt: &impl Host) -> io::Result<()> {
    match word_at(rt, LIMIT) {
        Word::Plain => mark_with_limit(rt)?,
        Word::List => with_files(rt, FIRST, |lent| list_run(rt, lent))?,
        _ => usage(rt),
    }
    Ok(())
}

// No option stands first.
fn without_option(rt: &impl Host, last: usize) -> io::Result<()> {
    match last {
        _ if !all_plain(rt, FIRST, LIMIT) => usage(rt),
        FIRST => with_book(rt)?,
        RUN => with_files(rt, FIRST, |lent| mark(rt, lent, MAX_LIMIT))?,
        LIMIT => limit_or_list(rt)?,
        _ => usage(rt),
    }
    Ok(())
}

// `--elaborate` stands first.
fn with_elaborate(rt: &impl Host, last: usize) -> io::Result<()> {
    if last == OUT_TAIL && all_plain(rt, ELABORATED_BOOK, OUT_TAIL + 1) {
        return elaborate_with_limit(rt);
    }
    usage(rt);
    Ok(())
}

fn main(rt: HostRuntime) -> io::Result<()> {
    let n = arg_count(&rt);
    if let Some(i) = first_unknown(&rt, n) {
        complain(&rt, b"mark: unknown option: ");
        complain_word(&rt, i);
        usage(&rt);
        return Ok(());
    }
    // The program's own name is argument 0.
    let last = n.saturating_sub(1);
    match word_at(&rt, FIRST) {
        Word::Plain => without_option(&rt, last)?,
        Word::Elaborate => with_elaborate(&rt, last)?,
        Word::Help => help(&rt)?,
        Word::Version => version(&rt)?,
        _ => usage(&rt),
    }
    Ok(())
}
