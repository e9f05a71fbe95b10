// The out areas: what is written to them of a step, and the numbers that it infers.
ghost use Rattle.std.specs.Prelude.{◌≡◌, false, ◌&&◌, ◌+◌, ◌/◌, ◌≤◌, ◌<◌, leb, length, IfSome};
ghost use Rattle.numbers.specs.Rational.{Proper};
ghost use Rattle.numbers.specs.Bytes.{Bytes};
ghost use Rattle.terms.specs.Format.{record_bytes, run_record_bytes};
ghost use Rattle.runs.specs.Memory.StepParts.{parts_in, step_in, StandsIn};
ghost use Rattle.out_areas.specs.Farkas.{place_in, place_or, Written, add_real, elaborated_rule, fits};
ghost use Rattle.out_areas.specs.Memory.OutAreas.{Holds, Writes, WritesOne, with_arg, with_constant, with_step};
ghost use Rattle.out_areas.specs.Memory.OutAreas.{more_real};

use crate::constants::{find_real, place_in, put_real};
use numbers::bytes::{paste, room};
use numbers::number::Number;
use runs::rule::{Rule, rule_number};
use runs::run::{StepParts, rule_in};
use terms::format::{ARGUMENT, BYTE_AT, MAX_RUN_BYTES, RECORD_BYTES, RUN_RECORD_BYTES};
use terms::records::count;

// The bytes written to each out area so far; whether they no longer take what is to be written. A flag and no Option:
// the counts stand also when an area is full, and contracts say by them which bytes are as they were.
#[derive(Clone, Copy, Debug, PartialEq, Eq)]
pub struct Out {
    pub run: usize,
    pub tail: usize,
    pub full: bool,
}

// Book and tail have 2,048 records at most.
const MAX_BOOK_BYTES: usize = 65536;

// Whether n bytes more at `at` go into an area, and into `most` bytes.
fn goes_in(area: &[u8], at: usize, n: usize, most: usize) -> bool
    ensures { result ≡ (leb (at + n) (length area.now) && leb (at + n) most) }
{
    room(area, at, n) && at + n <= most
}

// An argument: an A record of the number n.
fn add_arg(outrun: &mut [u8], out: Out, n: usize) -> Out
    ensures { (b t : Bytes) → WritesOne b outrun.old t out outrun.new t result (with_arg n) }
{
    if out.full {
        return out;
    }
    if !goes_in(outrun, out.run, RUN_RECORD_BYTES, MAX_RUN_BYTES) {
        return Out { full: true, ..out };
    }
    let [low, high, ..] = n.to_le_bytes();
    let record = [ARGUMENT, 0, low, high];
    paste(outrun, out.run, &record);
    Out {
        run: out.run + RUN_RECORD_BYTES,
        ..out
    }
}

// A constant behind those of the tail.
fn add_constant(book: &[u8], outtail: &mut [u8], out: Out, q: Number) -> Out
    requires { Proper q }
    ensures { (o : Bytes) → WritesOne book.now o outtail.old out o
        outtail.new result (with_constant q) }
{
    if out.full {
        return out;
    }
    let left = MAX_BOOK_BYTES - RECORD_BYTES * count(book);
    if !goes_in(outtail, out.tail, RECORD_BYTES, left) {
        return Out { full: true, ..out };
    }
    let mut record = [0u8; RECORD_BYTES];
    put_real(&mut record, q);
    paste(outtail, out.tail, &record);
    Out {
        tail: out.tail + RECORD_BYTES,
        ..out
    }
}

// The place of q in the tail that is written.
fn place_of(outtail: &[u8], out: Out, q: Number) -> Option<usize>
    ensures value { (b o : Bytes) (w : Written) → out.full ≡ false → Holds b o outtail.now out w →
        place_or result (length w.tail) ≡ place_in w.tail q }
    ensures upper_bound { IfSome result (λ k. k < out.tail / record_bytes) }
{
    place_in(outtail.get(..out.tail)?, q)
}

// An inferred number as an argument; a constant that neither the book nor the tail has is added to the tail.
pub fn add_real(book: &[u8], outrun: &mut [u8], outtail: &mut [u8], out: Out, q: Number) -> Out
    requires { Proper q }
    ensures { Writes book.now outrun.old outtail.old out
        outrun.new outtail.new result (λ w. add_real book.now w q)
        (more_real (fits book.now (length outrun.old) (length outtail.old))
        book.now q) }
{
    if out.full {
        return out;
    }
    if let Some(i) = find_real(book, q) {
        return add_arg(outrun, out, i);
    }
    let n = count(book);
    if let Some(k) = place_of(outtail, out, q) {
        return add_arg(outrun, out, n + k);
    }
    let grown = add_constant(book, outtail, out, q);
    add_arg(outrun, grown, n + out.tail / RECORD_BYTES)
}

// `bounded_farkas` becomes `la_generic`.
fn elaborated_rule(rule: Rule) -> Rule
    ensures { result ≡ elaborated_rule rule }
{
    match rule {
        Rule::BoundedFarkas => Rule::LaGeneric,
        other => other,
    }
}

// The records of a step, whose parts p has.
pub fn add_step(outrun: &mut [u8], out: Out, step: &[u8], p: StepParts) -> Out
    requires { (run_record_bytes ≤ length step.now) × (p ≡ parts_in step.now) }
    ensures { (b t run : Bytes) → StandsIn b run step.now →
        WritesOne b outrun.old t out outrun.new t result (with_step (step_in b step.now)) }
{
    if out.full {
        return out;
    }
    if !goes_in(outrun, out.run, p.args, MAX_RUN_BYTES) {
        return Out { full: true, ..out };
    }
    paste(outrun, out.run, &step[..p.args]);
    outrun[out.run + BYTE_AT] = rule_number(elaborated_rule(rule_in(step)));
    Out {
        run: out.run + p.args,
        ..out
    }
}
