// The rules `la_generic`, `bounded_farkas` and `la_tautology` of src/checker/rules/linear_arithmetic.rs, on one step
// that is given as parts of the lent run. Every rule leaves the work area as it found it.
ghost use Rattle.std.specs.Prelude.{◌≡◌, List, ℕ, ◌<◌, length};
ghost use Rattle.numbers.specs.Rational.{Rational};
ghost use Rattle.numbers.specs.Bytes.{Bytes};
ghost use Rattle.terms.specs.Book.{count, tree};
ghost use Rattle.std.specs.Prelude.{Ok};
ghost use Rattle.rules.specs.Limits.{limited};
ghost use Rattle.linear_arithmetic.specs.LinearArithmetic.{read_args, is_true_at_zero, la_generic_partial, la_generic};
ghost use Rattle.linear_arithmetic.specs.LinearArithmetic.{is_tautology, la_tautology};
ghost use Rattle.disequality.specs.Disequality.{disequality};
ghost use Rattle.linear_comb.specs.Memory.WorkArea.{accumulated, area_of, comb_of, with_area, AreaCount};
ghost use Rattle.index_map.specs.Memory.Entries.{blanked, Kept, CoefficientIs};
ghost use Rattle.rules.specs.Memory.Parts.{Ready, numbers_in, terms_in, Inside};
ghost use Rattle.process_disequality.specs.Memory.ProcessSteps.{CoefficientProper, progress_of, Folding};
ghost use Rattle.linear_arithmetic.specs.Memory.LinearSteps.{at, are_numbers, AllNumbers, fold_read, FoldedLeft};
ghost use Rattle.linear_arithmetic.specs.Memory.LinearSteps.{contradicts, StepReady, verdict_by, tautology_of};

use disequality::disequality::{Disequality, disequality_of};
use linear_comb::linear_comb::LinearComb;
use linear_shapes::linear_shapes::tautology_case;
use numbers::number::Number;
use process_disequality::process_disequality::{Progress, process_disequality};
use rules::counter::Counter;
use rules::readers::as_fraction_err;
use rules::refusal::Refusal;
use rules::run_records::{number_in, rest};
use rules::shapes::only_literal;
use terms::format::RUN_RECORD_BYTES;
use terms::operator::{EQUALS, GREATER_THAN, OR};
use terms::term::binary;
use work_area::work_area::{ACCUMULATED, LEFT, clear_in};

// ---- la_generic

// Whether all arguments are numbers; refused as the first that is not.
pub fn read_args(book: &[u8], args: &[u8]) -> Result<(), Refusal>
    ensures { (l : ℕ) → result ≡ are_numbers l book.now args.now }
{
    for k in 0..args.len() / RUN_RECORD_BYTES {
        as_fraction_err(book, number_in(args, k))?;
    }
    Ok(())
}

// Argument k, of arguments that are all numbers.
fn argument_at(book: &[u8], args: &[u8], k: usize) -> Option<Number>
    ensures by_index { (l : ℕ) (qs : List Rational) →
        read_args (limited l) (terms_in book.now args.now) ≡ Ok qs →
        CoefficientIs result (at qs k) }
    ensures coefficient_proper { CoefficientProper result }
{
    if k < args.len() / RUN_RECORD_BYTES {
        as_fraction_err(book, number_in(args, k)).ok()
    } else {
        None
    }
}

// How far the fold over the literals came.
#[derive(Clone, Copy)]
pub enum Folded {
    Done(Progress),
    // An argument was inferred; so many literals are done.
    Inferred(Progress, Number, usize),
}

// The fold over the literals (`try_fold`) from a progress on, up to the first argument that is inferred. Missing
// arguments are inferred, surplus ones ignored. All that are given are numbers: `read_args` holds.
pub fn fold_literals(
    book: &[u8],
    work: &mut [u8],
    literals: &[u8],
    args: &[u8],
    p: Progress,
    limit: u32,
) -> Result<Folded, Refusal>
    requires folding { Folding book.now work.old p × Inside book.now literals.now }
    requires all_numbers { AllNumbers limit book.now args.now }
    ensures { FoldedLeft book.now work.old work.new
        (length (numbers_in literals.now)) result
        (fold_read (limited limit) (terms_in book.now literals.now)
        (terms_in book.now args.now) (progress_of book.now work.old p)) }
{
    let mut q = p;
    for k in 0..literals.len() / RUN_RECORD_BYTES {
        let phi = number_in(literals, k);
        let arg = argument_at(book, args, k);
        let (next, found) = process_disequality(book, work, q, phi, arg, limit)?;
        if let Some(a) = found {
            return Ok(Folded::Inferred(next, a, k + 1));
        }
        q = next;
    }
    Ok(Folded::Done(q))
}

// Whether 0 stands in the relation to the right side: only =, > and >= arise.
fn is_true_at_zero(o: u8, r: Number) -> bool
    ensures { result ≡ is_true_at_zero o r }
{
    if r.is_positive() {
        return false;
    }
    if r.is_zero() {
        return o != GREATER_THAN;
    }
    o != EQUALS
}

// The last line of `la_generic_partial`: the left side is empty and the disequality is a contradiction. The sum's area
// is empty afterwards.
pub fn contradiction(work: &mut [u8], p: Progress) -> Result<u32, Refusal>
    requires { AreaCount accumulated p.acc.len work.old }
    ensures value { result ≡ contradicts p }
    ensures work_after { work.new ≡ with_area accumulated
        (blanked p.acc.len (area_of accumulated work.old)) work.old }
{
    clear_in(work, ACCUMULATED, p.acc.len);
    if p.acc.len != 0 || is_true_at_zero(p.operator, p.acc.constant) {
        return Err(Refusal::DisequalityIsNotContradiction);
    }
    Ok(p.visits)
}

// All arguments are read before the first literal. The arguments that are inferred are passed over.
fn la_generic_partial(
    book: &[u8],
    work: &mut [u8],
    literals: &[u8],
    args: &[u8],
    counter: Counter,
) -> Result<u32, Refusal>
    requires { StepReady book.now work.old literals.now }
    ensures value { result ≡ verdict_by la_generic_partial counter.limit book.now literals.now
        args.now counter.visits }
    ensures work_unchanged { work.new ≡ work.old }
{
    read_args(book, args)?;
    let mut p = Progress {
        operator: EQUALS,
        acc: LinearComb::new(),
        visits: counter.visits,
    };
    let mut done = 0;
    loop {
        match fold_literals(
            book,
            work,
            rest(literals, done),
            rest(args, done),
            p,
            counter.limit,
        )? {
            Folded::Done(q) => {
                return contradiction(work, q);
            }
            Folded::Inferred(q, _, k) => {
                p = q;
                done += k;
            }
        }
    }
}

pub fn la_generic(
    book: &[u8],
    work: &mut [u8],
    literals: &[u8],
    args: &[u8],
    counter: Counter,
) -> Result<u32, Refusal>
    requires { StepReady book.now work.old literals.now }
    ensures value { result ≡ verdict_by la_generic counter.limit book.now literals.now
        args.now counter.visits }
    ensures work_unchanged { work.new ≡ work.old }
{
    if args.len() / RUN_RECORD_BYTES != literals.len() / RUN_RECORD_BYTES {
        return Err(Refusal::WrongNumberOfArgs);
    }
    la_generic_partial(book, work, literals, args, counter)
}

pub fn bounded_farkas(
    book: &[u8],
    work: &mut [u8],
    literals: &[u8],
    args: &[u8],
    counter: Counter,
) -> Result<u32, Refusal>
    requires { StepReady book.now work.old literals.now }
    ensures value { result ≡ verdict_by la_generic_partial counter.limit book.now literals.now
        args.now counter.visits }
    ensures work_unchanged { work.new ≡ work.old }
{
    la_generic_partial(book, work, literals, args, counter)
}

// ---- la_tautology

// The first form: a disequality without atoms that is always true.
#[tactic(auto, using(crate::proofs::NoAtoms::empty_entries))]
fn is_tautology(d: Disequality) -> bool
    ensures { (b w : Bytes) → Kept b w d.sum.len →
        result ≡ is_tautology (disequality d.operator (comb_of b w d.sum) d.visits) }
{
    let right = d.sum.constant;
    d.sum.len == 0 && (right.is_positive() || d.operator == GREATER_THAN && right.is_zero())
}

fn tautology(book: &[u8], work: &mut [u8], phi: usize, counter: Counter) -> Result<u32, Refusal>
    requires { Ready book.now work.old × (phi < count book.now) }
    ensures value { result ≡ tautology_of (limited counter.limit) (tree book.now phi) counter.visits }
    ensures work_unchanged { work.new ≡ work.old }
{
    let d = disequality_of(book, work, phi, counter)?;
    clear_in(work, LEFT, d.sum.len);
    if is_tautology(d) {
        Ok(d.visits)
    } else {
        Err(Refusal::DisequalityIsNotTautology)
    }
}

pub fn la_tautology(
    book: &[u8],
    work: &mut [u8],
    literals: &[u8],
    counter: Counter,
) -> Result<u32, Refusal>
    requires { Ready book.now work.old × Inside book.now literals.now }
    ensures value { result ≡ la_tautology (limited counter.limit) (terms_in book.now literals.now) counter.visits }
    ensures work_unchanged { work.new ≡ work.old }
{
    let phi = only_literal(literals).ok_or(Refusal::WrongLengthOfClause)?;
    let Some((first, second)) = binary(book, phi, OR) else {
        return tautology(book, work, phi, counter);
    };
    tautology_case(book, first, second)?;
    Ok(counter.visits)
}
