// One literal as a disequality: steps 1 to 4 of `process_disequality` in src/checker/rules/linear_arithmetic.rs. A
// literal's two sides are filled into the areas `LEFT` and `RIGHT`; their difference is left in `LEFT`.
ghost use Rattle.std.specs.Prelude.{◌≡◌, [], ℕ, ◌<◌, length};
ghost use Rattle.numbers.specs.Rational.{Proper, whole};
ghost use Rattle.numbers.specs.Bytes.{Bytes};
ghost use Rattle.terms.specs.Term.{Term};
ghost use Rattle.terms.specs.Book.{count, tree};
ghost use Rattle.std.specs.Prelude.{Ok, IfErr};
ghost use Rattle.rules.specs.Limits.{limited};
ghost use Rattle.rules.specs.declared.refusal.Refusal.TheVariants.{NumberRange};
ghost use Rattle.index_map.specs.IndexMap.{Map, combination};
ghost use Rattle.linear_walk.specs.LinearTerms.{from_term};
ghost use Rattle.disequality.specs.Disequality.{inner, negate_operator, negate_disequality, turned, disequality_of};
ghost use Rattle.disequality.specs.Disequality.{is_integer_times, raised, strengthen};
ghost use Rattle.linear_comb.specs.Memory.WorkArea.{left_side, right_side, Area, Apart, area_of, OnlyArea};
ghost use Rattle.linear_walk.specs.Memory.Walks.{Walks};
ghost use Rattle.linear_comb.specs.Memory.WorkArea.{comb_of, KeptSum, SumFits, SumScales};
ghost use Rattle.index_map.specs.Memory.Entries.{Held, Kept};
ghost use Rattle.rules.specs.Memory.Parts.{Laid};
ghost use Rattle.disequality.specs.Memory.DisequalitySteps.{Between, InnerIs, relation_of, RelationIs};
ghost use Rattle.disequality.specs.Memory.DisequalitySteps.{SidesLeft, LiteralLeft, constant_side};
ghost use Rattle.disequality.specs.Memory.DisequalitySteps.{subtracted, SubtractedLeft, StrengthenedIs};

use index_map::combination::Walked;
use linear_comb::linear_comb::{LinearComb, coefficients_gcd};
use linear_walk::from_term::from_term;
use numbers::number::Number;
use rules::counter::Counter;
use rules::refusal::Refusal;
use terms::operator::{EQUALS, GREATER_EQ, GREATER_THAN, LESS_EQ, LESS_THAN};
use terms::records::argument;
use terms::term::{args, as_number, operator, remove_negation};
use work_area::work_area::{LEFT, RIGHT, clear_in, neg_in, sub};

// ---- negate_disequality

// The operator that holds where o does not.
fn negate_operator(o: u8) -> Option<u8>
    ensures { result ≡ negate_operator o }
{
    match o {
        LESS_THAN => Some(GREATER_EQ),
        LESS_EQ => Some(GREATER_THAN),
        GREATER_THAN => Some(LESS_EQ),
        GREATER_EQ => Some(LESS_THAN),
        _ => None,
    }
}

// Of a negated relation the relation itself; of any other operation its negated operator. With the record whose
// arguments the operator stands between.
fn inner(book: &[u8], phi: usize) -> Option<(u8, usize)>
    requires { Laid book.now × (phi < count book.now) }
    ensures { InnerIs book.now result (inner (tree book.now phi)) }
{
    if let Some(x) = remove_negation(book, phi) {
        let o = operator(book, x);
        return match o {
            EQUALS..=GREATER_EQ => Some((o, x)),
            _ => None,
        };
    }
    Some((negate_operator(operator(book, phi))?, phi))
}

// The relation that a literal's negation is, and the records of its two sides.
fn relation_of(book: &[u8], phi: usize) -> Result<(u8, usize, usize), Refusal>
    requires { Laid book.now × (phi < count book.now) }
    ensures { RelationIs book.now result (relation_of (tree book.now phi)) }
{
    let (o, x) = inner(book, phi).ok_or(Refusal::InvalidDisequalityOp)?;
    let sides = args(book, x);
    if sides.len() / 2 != 2 {
        return Err(Refusal::TooManyArgsInDisequality);
    }
    Ok((o, argument(sides, 0, x), argument(sides, 1, x)))
}

// The combination that a constant is; `visits` are made with it.
fn constant_side(q: Number, visits: u32) -> Result<Walked, Refusal>
    requires { Proper q }
    ensures { (b w : Bytes) → Held b w [] → (l : ℕ) → Walks b w result (constant_side (limited l) q visits) }
{
    let c = q.mul(Number::whole(1)).ok_or(Refusal::NumberRange)?;
    let constant = Number::whole(0).add(c).ok_or(Refusal::NumberRange)?;
    let sum = LinearComb { len: 0, constant };
    Ok(Walked { sum, visits })
}

// The right side, in its area, which is empty before. It is a constant as a rule, and then nothing is walked.
fn right_side(book: &[u8], work: &mut [u8], id: usize, counter: Counter) -> Result<Walked, Refusal>
    requires { Area right_side work.old × (Laid book.now ×
        ((id < count book.now) × Held book.now (area_of right_side work.old) [])) }
    ensures only_area { OnlyArea right_side work.old work.new }
    ensures walks { Walks book.now (area_of right_side work.new) result
        (from_term (limited counter.limit) (tree book.now id) counter.visits) }
{
    if counter.visits < counter.limit {
        if let Ok(q) = as_number(book, id) {
            return constant_side(q, counter.visits + 1);
        }
    }
    from_term(book, work, RIGHT, id, counter)
}

// An operator, the combinations of its two sides, and the visits made so far.
#[derive(Clone, Copy)]
pub(crate) struct Sides {
    pub operator: u8,
    pub left: LinearComb,
    pub right: LinearComb,
    pub visits: u32,
}

// Fills the areas of both sides, which are empty before; a refusal leaves both empty.
fn negate_disequality(
    book: &[u8],
    work: &mut [u8],
    phi: usize,
    counter: Counter,
) -> Result<Sides, Refusal>
    requires { Between book.now work.old × (phi < count book.now) }
    ensures { SidesLeft book.now work.old work.new result
        (negate_disequality (limited counter.limit) (tree book.now phi) counter.visits) }
{
    let (operator, x, y) = relation_of(book, phi)?;
    let left = from_term(book, work, LEFT, x, counter)?;
    let seen = Counter {
        visits: left.visits,
        ..counter
    };
    match right_side(book, work, y, seen) {
        Ok(right) => Ok(Sides {
            operator,
            left: left.sum,
            right: right.sum,
            visits: right.visits,
        }),
        Err(r) => {
            clear_in(work, LEFT, left.sum.len);
            Err(r)
        }
    }
}

// ---- steps 1 to 3

// An operator and a combination, whose constant stands on the right; and the visits made so far.
#[derive(Clone, Copy)]
pub struct Disequality {
    pub operator: u8,
    pub sum: LinearComb,
    pub visits: u32,
}

// < and <= are turned to > and >=.
fn turned(work: &mut [u8], o: u8, s: LinearComb, visits: u32) -> Disequality
    requires { Area left_side work.old × SumFits s }
    ensures { (b : Bytes) → KeptSum b (area_of left_side work.old) s →
        LiteralLeft b work.old work.new (Ok result)
        (Ok (turned o (comb_of b (area_of left_side work.old) s) visits)) }
{
    match o {
        LESS_THAN => Disequality {
            operator: GREATER_THAN,
            sum: neg_in(work, LEFT, s),
            visits,
        },
        LESS_EQ => Disequality {
            operator: GREATER_EQ,
            sum: neg_in(work, LEFT, s),
            visits,
        },
        _ => Disequality {
            operator: o,
            sum: s,
            visits,
        },
    }
}

// Both sides subtracted where the right one has no atoms: its area is not touched.
fn bounded(work: &mut [u8], s: Sides) -> Result<Disequality, Refusal>
    requires { Apart left_side right_side work.old ×
        (((b : Bytes) × KeptSum b (area_of left_side work.old) s.left) × Proper s.right.constant) }
    ensures { (b : Bytes) → KeptSum b (area_of left_side work.old) s.left →
        Held b (area_of right_side work.old) [] → (l : ℕ) →
        SubtractedLeft b work.old work.new result
        (subtracted (limited l) s.operator (comb_of b (area_of left_side work.old) s.left)
        (combination [] s.right.constant) s.visits) }
{
    let Some(difference) = s.left.constant.add(s.right.constant.neg()) else {
        clear_in(work, LEFT, s.left.len);
        return Err(Refusal::NumberRange);
    };
    let right = LinearComb {
        len: s.left.len,
        constant: difference.neg(),
    };
    Ok(turned(work, s.operator, right, s.visits))
}

// Both sides subtracted: all atoms on the left, the constant on the right. The area of the right side is empty
// afterwards.
fn subtracted(work: &mut [u8], s: Sides) -> Result<Disequality, Refusal>
    requires { Apart left_side right_side work.old ×
        ((b : Bytes) × (KeptSum b (area_of left_side work.old) s.left ×
        KeptSum b (area_of right_side work.old) s.right)) }
    ensures { (b : Bytes) → KeptSum b (area_of left_side work.old) s.left →
        KeptSum b (area_of right_side work.old) s.right → (l : ℕ) →
        SubtractedLeft b work.old work.new result
        (subtracted (limited l) s.operator (comb_of b (area_of left_side work.old) s.left)
        (comb_of b (area_of right_side work.old) s.right) s.visits) }
{
    if s.right.len == 0 {
        return bounded(work, s);
    }
    let answer = sub(work, LEFT, s.left, RIGHT, s.right);
    clear_in(work, RIGHT, s.right.len);
    let difference = answer?;
    let right = LinearComb {
        len: difference.len,
        constant: difference.constant.neg(),
    };
    Ok(turned(work, s.operator, right, s.visits))
}

// The literal negated, as a disequality with > or >= or =, in the area of the left side; a refusal leaves the areas of
// both sides empty.
pub fn disequality_of(
    book: &[u8],
    work: &mut [u8],
    phi: usize,
    counter: Counter,
) -> Result<Disequality, Refusal>
    requires { Between book.now work.old × (phi < count book.now) }
    ensures { LiteralLeft book.now work.old work.new result
        (disequality_of (limited counter.limit) (tree book.now phi) counter.visits) }
{
    let sides = negate_disequality(book, work, phi, counter)?;
    subtracted(work, sides)
}

// ---- strengthen

// Whether the constant times the argument is whole; the product itself is not tested for its range.
fn is_integer_times(d: Number, a: Number) -> bool
    requires { Proper d × Proper a }
    ensures { result ≡ is_integer_times d a }
{
    if a.is_zero() {
        return true;
    }
    if a.is_integer() && d.is_integer() {
        return true;
    }
    if a.eq(Number::whole(1)) {
        return d.is_integer();
    }
    d.is_integer_product(a)
}

// The constant is rounded down, and then raised.
fn raised(len: usize, floor: Number, step: i64) -> Result<(u8, LinearComb), Refusal>
    requires { Proper floor × Proper (whole step) }
    ensures refused { IfErr result (λ r. r ≡ NumberRange) }
    ensures value { (m : Map Term) → len ≡ length m → (l : ℕ) →
        StrengthenedIs m result (raised (limited l) (combination m floor) step) }
{
    let constant = floor.add(Number::whole(step)).ok_or(Refusal::NumberRange)?;
    Ok((GREATER_EQ, LinearComb { len, constant }))
}

// A disequality over integers; `entries` are its own.
pub fn strengthen(
    entries: &[u8],
    o: u8,
    s: LinearComb,
    a: Number,
) -> Result<(u8, LinearComb), Refusal>
    requires { SumScales s a }
    ensures refused { IfErr result (λ r. r ≡ NumberRange) }
    ensures value { (b : Bytes) (k : Kept b entries.now s.len) (l : ℕ) →
        StrengthenedIs k.map result (strengthen (limited l) o (comb_of b entries.now s) a) }
{
    let whole = is_integer_times(s.constant, a);
    let floor = s.constant.floor();
    match o {
        GREATER_THAN => if whole {
            let floored = LinearComb {
                len: s.len,
                constant: floor,
            };
            raised(s.len, floor, coefficients_gcd(entries, floored))
        } else {
            raised(s.len, floor, 1)
        },
        GREATER_EQ => if whole {
            Ok((o, s))
        } else {
            raised(s.len, floor, 1)
        },
        _ => Ok((o, s)),
    }
}
