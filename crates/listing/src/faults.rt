// Why a run is refused with 7: the first record at fault, in the order in which `read_steps` (`runs/specs/Run`) meets
// them. A step is its S and the P, C and A that stand behind it in this order; the next record is taken for the S of
// the next step. Of a step the records come first, and then the shape of an assume.
ghost use Rattle.std.specs.Prelude.{◌≡◌, ◌+◌, ◌≤◌, ◌<◌, ◌/◌, ◌^◌, length, IfOk, IfErr, IfSome};
ghost use Rattle.listing.specs.Faults.{steps_of, Before};

use crate::format::{MARK, Terms};
use numbers::bytes::{byte, read_u16};
use runs::rule::{Rule, rule_of};
use runs::run::rule_in;
use std::fmt;
use terms::format::{
    ARGUMENT, BOOL_SORT, BYTE_AT, CLAUSE, NUMBER_AT, PREMISE, RUN_RECORD_BYTES, STEP,
};
use terms::records::count;

// ---- the faults

#[derive(Clone, Copy, PartialEq, Eq)]
pub enum Fault {
    // A P, C or A that stands in no step.
    OutOfOrder,
    UnknownMark,
    // A field that is not used is not 0.
    UnusedField,
    UnknownRule,
    // A P that names no earlier step.
    NoStep,
    // A C or A that names no term.
    NoTerm,
    // A C that names a term of another sort than Bool.
    NotBool,
    // An assume that is not an S and one C.
    AssumeShape,
}

impl fmt::Display for Fault {
    fn fmt<W: fmt::Write>(&self, f: &mut fmt::Formatter<W>) -> fmt::Result {
        f.write_str(match self {
            Fault::OutOfOrder => "out of order: a step is an S, and then P, C and A in this order",
            Fault::UnknownMark => "unknown mark: none of S, P, C and A",
            Fault::UnusedField => "a nonzero unused field",
            Fault::UnknownRule => "unknown rule: none of 0 to 8",
            Fault::NoStep => "names nothing: no earlier step has this number",
            Fault::NoTerm => "names nothing: no term of the book has this number",
            Fault::NotBool => "a C that is not Bool",
            Fault::AssumeShape => "an assume of another shape than one C and nothing else",
        })
    }
}

// A fault, and the number of the record at fault.
#[derive(Clone, Copy, PartialEq, Eq)]
pub struct Found {
    pub fault: Fault,
    pub at: usize,
}

impl Fault {
    fn at(self, at: usize) -> Found
        ensures { result ≡ record { fault = self; at = at } }
    {
        Found { fault: self, at }
    }
}

// ---- one record

// The place of a record in a step. Places rise along a step.
#[derive(Clone, Copy, PartialEq, Eq, PartialOrd, Ord)]
enum Place {
    Head,
    Premises,
    Literals,
    Arguments,
}

// The place that a mark belongs to; that of the S for a mark that is unknown.
fn place_of(mark: u8) -> Place {
    match mark {
        PREMISE => Place::Premises,
        CLAUSE => Place::Literals,
        ARGUMENT => Place::Arguments,
        _ => Place::Head,
    }
}

// The record that should open a step: by its mark, its number and its rule.
fn check_head(r: &[u8]) -> Result<(), Fault> {
    match byte(r, MARK) {
        STEP => {}
        PREMISE | CLAUSE | ARGUMENT => return Err(Fault::OutOfOrder),
        _ => return Err(Fault::UnknownMark),
    }
    if read_u16(r, NUMBER_AT) != 0 {
        return Err(Fault::UnusedField);
    }
    if rule_of(byte(r, BYTE_AT)).is_none() {
        return Err(Fault::UnknownRule);
    }
    Ok(())
}

// The number of a C or A.
fn check_term(terms: Terms, id: usize, place: Place) -> Result<(), Fault> {
    if count(terms.book) <= id {
        return Err(Fault::NoTerm);
    }
    if place == Place::Literals && terms.sort(id) != BOOL_SORT {
        return Err(Fault::NotBool);
    }
    Ok(())
}

// A P, C or A of the last of so many steps: by its byte and its number.
fn check_part(terms: Terms, steps: usize, r: &[u8], place: Place) -> Result<(), Fault> {
    if byte(r, BYTE_AT) != 0 {
        return Err(Fault::UnusedField);
    }
    let number = read_u16(r, NUMBER_AT) as usize;
    if place != Place::Premises {
        return check_term(terms, number, place);
    }
    if number + 1 < steps {
        Ok(())
    } else {
        Err(Fault::NoStep)
    }
}

// ---- the run

// The S and the C of an assume.
const ASSUME_RECORDS: usize = 2;

// The step that is being read.
#[derive(Clone, Copy)]
struct Step {
    // How many steps there are with it.
    steps: usize,
    // The number of its S, and its rule.
    head: usize,
    rule: Rule,
    // The place of its last record so far.
    last: Place,
}

impl Step {
    // Whether a record at a place stands in this step, behind its last.
    fn takes(self, place: Place) -> bool {
        place != Place::Head && self.last <= place
    }

    // The shape of a step that ends before record `end`: an assume has one C and nothing else.
    fn check_shape(self, end: usize) -> Result<(), Found>
        ensures { IfErr result (λ found. found.at ≡ self.head) }
    {
        let one_c = self.last == Place::Literals
            && end.checked_sub(self.head) == Some(ASSUME_RECORDS);
        if self.rule == Rule::Assume && !one_c {
            return Err(Fault::AssumeShape.at(self.head));
        }
        Ok(())
    }
}

// The step after record i, which is r, behind a step, if there is one.
fn read_on(terms: Terms, before: Option<Step>, i: usize, r: &[u8]) -> Result<Step, Found>
    requires fits { steps_of before < 2 ^ 63 }
    requires before { Before before i }
    ensures steps { IfOk result (λ step. step.steps ≤ steps_of before + 1) }
    ensures step { IfOk result (λ step. step.head ≤ i) }
    ensures found { IfErr result (λ found. found.at ≤ i) }
{
    let place = place_of(byte(r, MARK));
    let mut steps = 0;
    if let Some(s) = before {
        if s.takes(place) {
            check_part(terms, s.steps, r, place).map_err(|fault| fault.at(i))?;
            return Ok(Step { last: place, ..s });
        }
        s.check_shape(i)?;
        steps = s.steps;
    }
    check_head(r).map_err(|fault| fault.at(i))?;
    Ok(Step {
        steps: steps + 1,
        head: i,
        rule: rule_in(r),
        last: Place::Head,
    })
}

fn check_run(terms: Terms, run: &[u8]) -> Result<(), Found>
    ensures { IfErr result (λ found. found.at < length run.now / 4) }
{
    let mut step = None;
    for (i, r) in run.chunks_exact(RUN_RECORD_BYTES).enumerate() {
        step = Some(read_on(terms, step, i, r)?);
    }
    match step {
        Some(s) => s.check_shape(run.len() / RUN_RECORD_BYTES),
        None => Ok(()),
    }
}

// The first record at fault, if there is one.
pub fn run_fault(terms: Terms, run: &[u8]) -> Option<Found>
    ensures { IfSome result (λ found. found.at < length run.now / 4) }
{
    check_run(terms, run).err()
}
