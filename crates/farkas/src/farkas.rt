// The elaborator, src/elaborator/local/farkas.rs: an accepted step is written to the out run, rule 6 as 5, with the
// numbers that it infers as further arguments. They are written as they are found; a step that is refused is taken back
// by the counts, and what it wrote is cleared at the end with all that lies behind the counts.
ghost use Rattle.std.specs.Prelude.{◌≡◌, ◌+◌, ◌≤◌, length};
ghost use Rattle.terms.specs.Format.{max_run_bytes};
ghost use Rattle.rules.specs.Limits.{limited};
ghost use Rattle.rules.specs.Memory.Parts.{Ready, terms_in, Inside};
ghost use Rattle.linear_arithmetic.specs.LinearArithmetic.{la_generic_partial};
ghost use Rattle.runs.specs.Run.{steps_of};
ghost use Rattle.steps.specs.CheckStep.{traced, check_step};
ghost use Rattle.runs.specs.Memory.StepParts.{parts_in, step_in, StandsIn};
ghost use Rattle.out_areas.specs.Farkas.{fits};
ghost use Rattle.out_areas.specs.Memory.OutAreas.{with_step};
ghost use Rattle.farkas.specs.Memory.FarkasSteps.{farkas_numbers, more_step, SteppedLeft};
ghost use Rattle.out_areas.specs.Memory.OutAreas.{more_reals};

use linear_arithmetic::linear_arithmetic::{Folded, contradiction, fold_literals, read_args};
use linear_comb::linear_comb::LinearComb;
use out_areas::out_areas::{Out, add_real, add_step};
use process_disequality::process_disequality::Progress;
use rules::counter::Counter;
use rules::refusal::Refusal;
use rules::run_records::rest;
use runs::rule::Rule;
use runs::run::{StepParts, args, clause, rule_in};
use steps::check_step::check_step;
use terms::operator::EQUALS;

// What an accepted step answers: the visits made so far, and what is written.
pub type Stepped = (u32, Out);

// `bounded_farkas` with the trace on: each number is written as it is inferred.
fn bounded_farkas(
    book: &[u8],
    work: &mut [u8],
    literals: &[u8],
    args: &[u8],
    counter: Counter,
    outrun: &mut [u8],
    outtail: &mut [u8],
    out: Out,
) -> Result<Stepped, Refusal>
    requires { Ready book.now work.old ×
        (Inside book.now literals.now × (length literals.now ≤ max_run_bytes)) }
    ensures stepped_left { SteppedLeft book.now outrun.old outtail.old out
        outrun.new outtail.new result (λ w. w)
        (more_reals (fits book.now (length outrun.old) (length outtail.old))
        book.now (farkas_numbers (limited counter.limit) (terms_in book.now literals.now)
        (terms_in book.now args.now) counter.visits))
        (traced (la_generic_partial (limited counter.limit) (terms_in book.now literals.now)
        (terms_in book.now args.now) counter.visits)) }
    ensures work_unchanged { work.new ≡ work.old }
{
    read_args(book, args)?;
    let mut p = Progress {
        operator: EQUALS,
        acc: LinearComb::new(),
        visits: counter.visits,
    };
    let mut done = 0;
    let mut written = out;
    loop {
        match fold_literals(
            book,
            work,
            rest(literals, done),
            rest(args, done),
            p,
            counter.limit,
        )? {
            Folded::Done(q) => {
                return Ok((contradiction(work, q)?, written));
            }
            Folded::Inferred(q, a, k) => {
                written = add_real(book, outrun, outtail, written, a);
                p = q;
                done += k;
            }
        }
    }
}

// Checks a step, whose parts p has, and writes it where it is accepted.
pub fn elaborate_step(
    book: &[u8],
    work: &mut [u8],
    run: &[u8],
    step: &[u8],
    p: StepParts,
    counter: Counter,
    outrun: &mut [u8],
    outtail: &mut [u8],
    out: Out,
) -> Result<Stepped, Refusal>
    requires ready { Ready book.now work.old × StandsIn book.now run.now step.now }
    requires p_value { p ≡ parts_in step.now }
    ensures stepped_left { SteppedLeft book.now outrun.old outtail.old out
        outrun.new outtail.new result (with_step (step_in book.now step.now))
        (more_step book.now (length outrun.old) (length outtail.old)
        (step_in book.now step.now) counter.limit counter.visits)
        (check_step (limited counter.limit) (steps_of book.now run.now)
        (step_in book.now step.now) counter.visits) }
    ensures work_unchanged { work.new ≡ work.old }
{
    let longer = add_step(outrun, out, step, p);
    if rule_in(step) == Rule::BoundedFarkas {
        return bounded_farkas(
            book,
            work,
            clause(step, p),
            args(step, p),
            counter,
            outrun,
            outtail,
            longer,
        );
    }
    Ok((check_step(book, work, run, step, p, counter)?, longer))
}
