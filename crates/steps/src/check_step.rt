// One step, by its rule.
ghost use Rattle.runs.specs.declared.rule.Rule.TheVariants.{PolySimpRel};
ghost use Rattle.std.specs.Prelude.{◌≡◌, ℕ};
ghost use Rattle.rules.specs.Limits.{limited};
ghost use Rattle.rules.specs.Memory.Parts.{Ready};
ghost use Rattle.runs.specs.Run.{steps_of};
ghost use Rattle.steps.specs.CheckStep.{check_step};
ghost use Rattle.runs.specs.Memory.StepParts.{parts_in, step_in, StandsIn};
ghost use Rattle.steps.specs.Memory.StepAnswers.{visits_after};

use linear_arithmetic::linear_arithmetic::{bounded_farkas, la_generic, la_tautology};
use linear_shapes::linear_shapes::{la_disequality, la_rw_eq, la_totality};
use numbers::bytes::read_u16;
use poly_simp::poly_simp::poly_simp;
use polynomial_rel::polynomial_rel::poly_simp_rel;
use rules::counter::Counter;
use rules::refusal::Refusal;
use runs::rule::Rule;
use runs::run::{StepParts, args, clause, parts, premises, rule_in, step_at};
use terms::format::{NUMBER_AT, RUN_RECORD_BYTES};

// The rule `poly_simp_rel`: the literals of the step that the first premise names are looked up in the run.
fn check_poly_simp_rel(
    book: &[u8],
    run: &[u8],
    step: &[u8],
    p: StepParts,
    visits: u32,
) -> Result<u32, Refusal>
    requires stands_in { StandsIn book.now run.now step.now × (p ≡ parts_in step.now) }
    requires step_value { (step_in book.now step.now).rule ≡ PolySimpRel }
    ensures { (l : ℕ) → result ≡ visits_after (check_step (limited l) (steps_of book.now run.now)
        (step_in book.now step.now) visits) }
{
    let named = premises(step, p);
    let premise = step_at(run, read_u16(named, NUMBER_AT) as usize);
    poly_simp_rel(
        book,
        clause(step, p),
        named.len() / RUN_RECORD_BYTES,
        clause(premise, parts(premise)),
        visits,
    )
}

// A step whose parts p has, by its rule: the visits made so far, where it is accepted.
pub fn check_step(
    book: &[u8],
    work: &mut [u8],
    run: &[u8],
    step: &[u8],
    p: StepParts,
    counter: Counter,
) -> Result<u32, Refusal>
    requires ready { Ready book.now work.old × StandsIn book.now run.now step.now }
    requires p_value { p ≡ parts_in step.now }
    ensures value { result ≡ visits_after (check_step (limited counter.limit) (steps_of book.now run.now)
        (step_in book.now step.now) counter.visits) }
    ensures work_unchanged { work.new ≡ work.old }
{
    let literals = clause(step, p);
    let visits = counter.visits;
    match rule_in(step) {
        Rule::Assume => Ok(visits),
        Rule::LaRwEq => la_rw_eq(book, literals, visits),
        Rule::LaDisequality => la_disequality(book, literals, visits),
        Rule::LaTotality => la_totality(book, literals, visits),
        Rule::LaTautology => la_tautology(book, work, literals, counter),
        Rule::LaGeneric => la_generic(book, work, literals, args(step, p), counter),
        Rule::BoundedFarkas => bounded_farkas(book, work, literals, args(step, p), counter),
        Rule::PolySimp => poly_simp(book, work, literals, counter),
        Rule::PolySimpRel => check_poly_simp_rel(book, run, step, p, visits),
    }
}
