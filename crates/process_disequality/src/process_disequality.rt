// `process_disequality` of src/checker/rules/linear_arithmetic.rs: one literal of a step. The area `ACCUMULATED` has
// the entries of the sum so far, `LEFT` those of the literal.
ghost use Rattle.std.specs.Prelude.{Err, IfErr};
ghost use Rattle.std.specs.Prelude.{◌≡◌, ℕ, ◌≤◌, ◌<◌};
ghost use Rattle.numbers.specs.Rational.{Makes, Proper};
ghost use Rattle.numbers.specs.Bytes.{Bytes};
ghost use Rattle.terms.specs.Book.{count, tree, SortsBelow};
ghost use Rattle.rules.specs.Limits.{limited};
ghost use Rattle.rules.specs.declared.refusal.Refusal.TheVariants.{NumberRange};
ghost use Rattle.process_disequality.specs.ProcessDisequality.{inferred, scalar, weakened, join_operators};
ghost use Rattle.process_disequality.specs.ProcessDisequality.{strengthened, process_disequality};
ghost use Rattle.disequality.specs.Disequality.{disequality};
ghost use Rattle.linear_comb.specs.Memory.WorkArea.{accumulated, left_side, Area, Apart, area_of, comb_of, with_area};
ghost use Rattle.linear_comb.specs.Memory.WorkArea.{KeptSum, SumScales};
ghost use Rattle.index_map.specs.Memory.Entries.{slots, entries_of, blanked, Kept};
ghost use Rattle.rules.specs.Memory.Parts.{Expects};
ghost use Rattle.process_disequality.specs.Memory.ProcessSteps.{CoefficientProper, argument_from};
ghost use Rattle.process_disequality.specs.Memory.ProcessSteps.{ArguedIs, scaled_of, ScaledLeft, progress_of};
ghost use Rattle.process_disequality.specs.Memory.ProcessSteps.{accumulated_of, AccumulatedLeft, Folding};
ghost use Rattle.process_disequality.specs.Memory.ProcessSteps.{ProcessedLeft};
ghost use Rattle.disequality.specs.Memory.DisequalitySteps.{StrengthenedIs};

use disequality::disequality::{Disequality, disequality_of, strengthen};
use index_map::index_map::{get, key_at, value_at};
use linear_comb::linear_comb::LinearComb;
use numbers::number::Number;
use rules::counter::Counter;
use rules::refusal::Refusal;
use terms::operator::{EQUALS, GREATER_EQ, GREATER_THAN};
use work_area::work_area::{ACCUMULATED, LEFT, add, all_int, area, clear_in, mul_in};

// ---- the argument of a literal

// Some book keeps the areas that are read (`(b : Bytes) × ..`), so that the numbers in them are in range; what is
// promised is promised for each such book.

// Minus the coefficient that the sum so far, of n entries, has of the only atom among the literal's m entries, divided
// by the literal's own.
fn inferred(work: &[u8], n: usize, m: usize) -> Result<Number, Refusal>
    requires { Apart accumulated left_side work.now × ((b : Bytes) ×
        (Kept b (area_of accumulated work.now) n × Kept b (area_of left_side work.now) m)) }
    ensures { (b : Bytes) → Kept b (area_of accumulated work.now) n →
        Kept b (area_of left_side work.now) m → (l : ℕ) →
        Expects result (inferred (limited l) (entries_of b (area_of accumulated work.now) n)
        (entries_of b (area_of left_side work.now) m)) }
{
    if m != 1 {
        return Err(Refusal::NotUnit);
    }
    let var = key_at(area(work, LEFT), 0);
    let own = value_at(area(work, LEFT), 0);
    if own.is_zero() {
        return Err(Refusal::NotUnit);
    }
    let coeff = get(area(work, ACCUMULATED), n, var).ok_or(Refusal::CoeffNotFound)?;
    coeff.neg().div(own).ok_or(Refusal::NumberRange)
}

// The argument that is given; where there is none, it is inferred. And the same where it is inferred.
fn argument_of(
    work: &[u8],
    n: usize,
    m: usize,
    arg: Option<Number>,
) -> Result<(Number, Option<Number>), Refusal>
    requires { Apart accumulated left_side work.now × (((b : Bytes) ×
        (Kept b (area_of accumulated work.now) n × Kept b (area_of left_side work.now) m)) ×
        CoefficientProper arg) }
    ensures { (b : Bytes) → Kept b (area_of accumulated work.now) n →
        Kept b (area_of left_side work.now) m → (l : ℕ) →
        ArguedIs result (argument_from (limited l) (entries_of b (area_of accumulated work.now) n)
        (entries_of b (area_of left_side work.now) m) arg) }
{
    if let Some(a) = arg {
        return Ok((a, None));
    }
    let a = inferred(work, n, m)?;
    Ok((a, Some(a)))
}

// ---- process_disequality

// What the fold over the literals carries: the operator, the sum so far, whose entries are in `ACCUMULATED`, and the
// visits made.
#[derive(Clone, Copy)]
pub struct Progress {
    pub operator: u8,
    pub acc: LinearComb,
    pub visits: u32,
}

fn scalar(o: u8, a: Number) -> Number
    requires { Proper a }
    ensures { Makes result (scalar o a) }
{
    match o {
        EQUALS => a,
        _ => a.abs(),
    }
}

// > with argument 0 is only >=.
fn weakened(o: u8, a: Number) -> u8
    ensures { result ≡ weakened o a }
{
    if o == GREATER_THAN && a.is_zero() {
        GREATER_EQ
    } else {
        o
    }
}

// The stronger of two operators.
fn join_operators(o: u8, p: u8) -> u8
    ensures { result ≡ join_operators o p }
{
    if o == GREATER_THAN || p == GREATER_THAN {
        return GREATER_THAN;
    }
    if o == GREATER_EQ || p == GREATER_EQ {
        GREATER_EQ
    } else {
        EQUALS
    }
}

// Strengthened where all atoms are Int.
fn strengthened(work: &[u8], o: u8, s: LinearComb, a: Number) -> Result<(u8, LinearComb), Refusal>
    requires { Area left_side work.now × SumScales s a }
    ensures refused { IfErr result (λ r. r ≡ NumberRange) }
    ensures value { (b : Bytes) → SortsBelow (count b) b work.now →
        (k : Kept b (area_of left_side work.now) s.len) → (l : ℕ) →
        StrengthenedIs k.map result
        (strengthened (limited l) o (comb_of b (area_of left_side work.now) s) a) }
{
    if all_int(work, LEFT, s.len) {
        return strengthen(area(work, LEFT), o, s, a);
    }
    Ok((o, s))
}

// Steps 4 and 5: the literal is strengthened and then scaled, in its own area; the sum so far is not touched.
fn scaled(work: &mut [u8], o: u8, s: LinearComb, a: Number) -> Result<(u8, LinearComb), Refusal>
    requires { Area left_side work.old × (((b : Bytes) ×
        (SortsBelow (count b) b work.old × KeptSum b (area_of left_side work.old) s)) × Proper a) }
    ensures { (b : Bytes) → SortsBelow (count b) b work.old →
        KeptSum b (area_of left_side work.old) s → (l : ℕ) →
        ScaledLeft b work.old work.new result
        (scaled_of (limited l) o (comb_of b (area_of left_side work.old) s) a) }
{
    match strengthened(work, o, s, a) {
        Ok((p, t)) => {
            let u = mul_in(work, LEFT, t, scalar(p, a))?;
            Ok((weakened(p, a), u))
        }
        Err(r) => {
            clear_in(work, LEFT, s.len);
            Err(r)
        }
    }
}

// What a literal leaves: the sum with it, and its argument where that was inferred.
type Processed = Result<(Progress, Option<Number>), Refusal>;

// Empties both areas, the sum's of n entries and the literal's of m.
fn refuse(work: &mut [u8], n: usize, m: usize, r: Refusal) -> Processed
    requires { Apart accumulated left_side work.old × ((n ≤ slots) × (m ≤ slots)) }
    ensures value { result ≡ Err r }
    ensures work_after { work.new ≡ with_area left_side (blanked m (area_of left_side work.old))
        (with_area accumulated (blanked n (area_of accumulated work.old)) work.old) }
{
    clear_in(work, ACCUMULATED, n);
    clear_in(work, LEFT, m);
    Err(r)
}

// The literal is added to the sum so far, after its argument was found. Its area is empty afterwards.
fn accumulate(work: &mut [u8], p: Progress, d: Disequality, arg: Option<Number>) -> Processed
    requires { Apart accumulated left_side work.old × (((b : Bytes) × (SortsBelow (count b) b work.old ×
        (KeptSum b (area_of accumulated work.old) p.acc × KeptSum b (area_of left_side work.old) d.sum))) ×
        CoefficientProper arg) }
    ensures { (b : Bytes) → SortsBelow (count b) b work.old →
        KeptSum b (area_of accumulated work.old) p.acc →
        KeptSum b (area_of left_side work.old) d.sum → (l : ℕ) →
        AccumulatedLeft b work.old work.new result
        (accumulated_of (limited l) (progress_of b work.old p)
        (disequality d.operator (comb_of b (area_of left_side work.old) d.sum) d.visits) arg) }
{
    let n = p.acc.len;
    let (a, found) = match argument_of(work, n, d.sum.len, arg) {
        Ok(argued) => argued,
        Err(r) => return refuse(work, n, d.sum.len, r),
    };
    let (q, t) = match scaled(work, d.operator, d.sum, a) {
        Ok(literal) => literal,
        Err(r) => return refuse(work, n, 0, r),
    };
    let acc = match add(work, ACCUMULATED, p.acc, LEFT, t) {
        Ok(sum) => sum,
        Err(r) => return refuse(work, 0, t.len, r),
    };
    clear_in(work, LEFT, t.len);
    let next = Progress {
        operator: join_operators(p.operator, q),
        acc,
        visits: d.visits,
    };
    Ok((next, found))
}

// One literal: its negation, with its argument given or inferred, is added to the sum so far. A refusal leaves all
// areas empty.
pub fn process_disequality(
    book: &[u8],
    work: &mut [u8],
    p: Progress,
    phi: usize,
    arg: Option<Number>,
    limit: u32,
) -> Result<(Progress, Option<Number>), Refusal>
    requires { Folding book.now work.old p × ((phi < count book.now) × CoefficientProper arg) }
    ensures { ProcessedLeft book.now work.old work.new result
        (process_disequality (limited limit) (progress_of book.now work.old p)
        (tree book.now phi) arg) }
{
    let counter = Counter {
        visits: p.visits,
        limit,
    };
    match disequality_of(book, work, phi, counter) {
        Ok(d) => accumulate(work, p, d, arg),
        Err(r) => refuse(work, p.acc.len, 0, r),
    }
}
