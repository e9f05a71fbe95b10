// `LinearComb::add_term` of src/checker/rules/linear_arithmetic.rs: the walk of a term, which adds each number that it
// meets to the constant and each atom to the entries. A refusal leaves the area empty.
ghost use Rattle.std.specs.Prelude.{◌≡◌, ℕ, ◌<◌};
ghost use Rattle.numbers.specs.Bytes.{Bytes};
ghost use Rattle.terms.specs.Book.{count, tree, numbers, arguments, forest};
ghost use Rattle.terms.specs.Readers.{arguments_of};
ghost use Rattle.rules.specs.Limits.{limited};
ghost use Rattle.index_map.specs.IndexMap.{add_constant, add_entry};
ghost use Rattle.linear_walk.specs.LinearTerms.{add_term};
ghost use Rattle.index_map.specs.Memory.Entries.{terms};
ghost use Rattle.linear_walk.specs.Memory.Walks.{Walks};
ghost use Rattle.linear_comb.specs.Memory.WorkArea.{KeptSum, SumScales, SumEnters};
ghost use Rattle.linear_walk.specs.Memory.Walks.{walk_of};
ghost use Rattle.linear_comb.specs.Memory.Notes.{with_note};
ghost use Rattle.linear_walk.specs.Memory.LinearNodes.{WalkPre, OperationPre, ArgsPre, Fills, FlatWalks, add_each};

use crate::nodes::{Place, descend};
use index_map::combination::{Combination, Walked};
use index_map::index_map::{clear, insert};
use linear_comb::notes::{NOTE_WORDS, enter, note};
use numbers::number::Number;
use rules::refusal::Refusal;
use terms::records::argument;
use terms::term::args;

// ---- add_term

fn add_constant(entries: &mut [u8], w: Walked, q: Number) -> Result<Walked, Refusal>
    requires { SumScales w.sum q }
    ensures { (b : Bytes) → KeptSum b entries.old w.sum → (l : ℕ) →
        Walks b entries.new result (add_constant (limited l) q (walk_of b entries.old w)) }
{
    let longer = w.plus(q);
    if longer.is_err() {
        clear(entries, w.sum.len);
    }
    longer
}

// Adds `value` times the atom of record x, sought among all entries, and notes it: for the first term of a walk.
fn add_entry(
    entries: &mut [u8],
    w: Walked,
    x: usize,
    value: Number,
    noted: &mut [u64; NOTE_WORDS],
) -> Result<Walked, Refusal>
    requires { SumEnters w.sum x value }
    ensures noted_after { noted.new ≡ with_note noted.old x }
    ensures walks { (b : Bytes) → KeptSum b entries.old w.sum → x < count b → (l : ℕ) →
        Walks b entries.new result
        (add_entry terms (limited l) (tree b x) value (walk_of b entries.old w)) }
{
    note(noted, x);
    let len = insert(entries, w.sum.len, x, value)?;
    let sum = Combination { len, ..w.sum };
    Ok(Walked { sum, ..w })
}

// What the walk of a term leaves that may have arguments to walk.
#[derive(Clone, Copy)]
pub(crate) enum Flat {
    Done(Walked),
    // There are arguments to walk, as in `Place`, and nothing is changed but the visits.
    Deeper(usize, Number, Number, u32),
}

// Adds coeff times the term of record `id`, unless there are arguments to walk. All atoms so far are noted.
fn add_flat(
    book: &[u8],
    entries: &mut [u8],
    id: usize,
    coeff: Number,
    w: Walked,
    limit: u32,
    noted: &mut [u64; NOTE_WORDS],
) -> Result<Flat, Refusal>
    requires { WalkPre book.now entries.old id coeff w.sum noted.old }
    ensures { FlatWalks book.now limit id coeff w.visits entries.old entries.new
        noted.old noted.new result
        (add_term (tree book.now id) (limited limit) coeff (walk_of book.now entries.old w)) }
{
    let n = w.sum.len;
    match descend(book, id, coeff, w.visits, limit) {
        Ok((Place::Args(x, first, others), visits)) => Ok(Flat::Deeper(x, first, others, visits)),
        Ok((Place::Constant(q), visits)) => {
            let longer = add_constant(entries, Walked { visits, ..w }, q)?;
            Ok(Flat::Done(longer))
        }
        Ok((Place::Atom(x, value), visits)) => {
            let len = enter(entries, n, x, value, noted)?;
            let sum = Combination { len, ..w.sum };
            Ok(Flat::Done(Walked { sum, visits }))
        }
        Err(r) => {
            clear(entries, n);
            Err(r)
        }
    }
}

// Adds coeff times the term of record `id`. All atoms so far are noted.
pub fn add_term(
    book: &[u8],
    entries: &mut [u8],
    id: usize,
    coeff: Number,
    w: Walked,
    limit: u32,
    noted: &mut [u64; NOTE_WORDS],
) -> Result<Walked, Refusal>
    requires { WalkPre book.now entries.old id coeff w.sum noted.old }
    ensures { Fills book.now entries.new noted.new result
        (add_term (tree book.now id) (limited limit) coeff (walk_of book.now entries.old w)) }
{
    let sum = w.sum;
    match descend(book, id, coeff, w.visits, limit) {
        Ok((Place::Args(x, first, others), visits)) => {
            let part = args(book, x);
            let begun = Walked { sum, visits };
            add_args(book, entries, part, x, first, others, begun, limit, noted)
        }
        Ok((Place::Constant(q), visits)) => add_constant(entries, Walked { sum, visits }, q),
        Ok((Place::Atom(x, c), visits)) => add_entry(entries, Walked { sum, visits }, x, c, noted),
        Err(r) => {
            clear(entries, sum.len);
            Err(r)
        }
    }
}

// The arguments of the operation that is record `id`. As a function of its own it keeps nothing in memory beside what
// `add_flat` keeps, so a deep term takes less stack.
#[cycle(add_args_add_operation)]
fn add_operation(
    book: &[u8],
    entries: &mut [u8],
    id: usize,
    first: Number,
    others: Number,
    w: Walked,
    limit: u32,
    noted: &mut [u64; NOTE_WORDS],
) -> Result<Walked, Refusal>
    requires { OperationPre book.now entries.old id first others w.sum noted.old }
    ensures { Fills book.now entries.new noted.new result
        (add_each (arguments_of (tree book.now id)) (limited limit) first others
        (walk_of book.now entries.old w)) }
{
    let part = args(book, id);
    add_args(book, entries, part, id, first, others, w, limit, noted)
}

// The arguments of record `id`, from the part of the record that holds them. Most have none of their own.
#[cycle(add_args_add_operation)]
fn add_args(
    book: &[u8],
    entries: &mut [u8],
    part: &[u8],
    id: usize,
    first: Number,
    others: Number,
    w: Walked,
    limit: u32,
    noted: &mut [u64; NOTE_WORDS],
) -> Result<Walked, Refusal>
    requires { ArgsPre book.now entries.old part.now id first others w.sum noted.old }
    ensures { Fills book.now entries.new noted.new result
        (add_each (forest (tree book.now) (arguments id (numbers part.now))) (limited limit)
        first others (walk_of book.now entries.old w)) }
{
    let mut done = w;
    let mut coeff = first;
    for k in 0..part.len() / 2 {
        let x = argument(part, k, id);
        done = match add_flat(book, entries, x, coeff, done, limit, noted)? {
            Flat::Done(walked) => walked,
            Flat::Deeper(y, p, q, visits) => {
                let begun = Walked { visits, ..done };
                add_operation(book, entries, y, p, q, begun, limit, noted)?
            }
        };
        coeff = others;
    }
    Ok(done)
}
