// The words of the command line: options and the limit.
ghost use Rattle.std.specs.Prelude.{◌≤◌, IfOk};

use marking::check::MAX_LIMIT;
use programs::arguments::{MAX_WORD, complain_word, number_at, read_word};
use programs::printing::{Complained, Complaints, complain};
use std::rt::Env;

// ---- where the arguments stand

// An option, or the book, or the book and the run, and then a limit or `--list`.
pub(crate) const FIRST: usize = 1;

pub(crate) const RUN: usize = 2;

pub(crate) const LIMIT: usize = 3;

// `--elaborate` stands before the book.
pub(crate) const ELABORATED_BOOK: usize = 2;

pub(crate) const ELABORATED_LIMIT: usize = 4;

pub(crate) const OUT_RUN: usize = 5;

pub(crate) const OUT_TAIL: usize = 6;

// ---- options

// What an argument is.
#[derive(Clone, Copy, PartialEq, Eq)]
pub(crate) enum Word {
    // A path or a number.
    Plain,
    Help,
    Version,
    Elaborate,
    List,
    // It begins as an option and is none.
    Unknown,
}

fn word_of(text: &[u8]) -> Word {
    match text {
        b"--help" | b"-h" => Word::Help,
        b"--version" => Word::Version,
        b"--elaborate" => Word::Elaborate,
        b"--list" => Word::List,
        [b'-', ..] => Word::Unknown,
        _ => Word::Plain,
    }
}

// What argument i is. One that is missing is plain.
pub(crate) fn word_at(rt: &impl Env, i: usize) -> Word {
    let mut text = [0u8; MAX_WORD];
    read_word(rt, i, &mut text).map_or(Word::Plain, |text| word_of(text))
}

// The first of the arguments before n that begins as an option and is none.
pub(crate) fn first_unknown(rt: &impl Env, n: usize) -> Option<usize> {
    (FIRST..n).find(|i| word_at(rt, *i) == Word::Unknown)
}

// Whether no argument from `from` to before n is an option.
pub(crate) fn all_plain(rt: &impl Env, from: usize, n: usize) -> bool {
    (from..n).all(|i| word_at(rt, i) == Word::Plain)
}

// ---- the limit

// The limit that argument i gives; a complaint where it is none.
pub(crate) fn limit_of<R: Env + Complaints>(rt: &R, i: usize) -> Result<u32, Complained>
    ensures { IfOk result (λ limit. (1 ≤ limit) × (limit ≤ 1000000)) }
{
    number_at(rt, i, MAX_LIMIT).ok_or_else(|| {
        complain(rt, b"mark: LIMIT is not a number from 1 to 1000000: ");
        complain_word(rt, i)
    })
}
