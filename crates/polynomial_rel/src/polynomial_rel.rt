// The rule `poly_simp_rel` of src/checker/rules/polynomial.rs: it compares terms and numbers, and needs no work area.
ghost use Rattle.std.specs.Prelude.{◌≡◌, ◌||◌, List, ℕ, eqb};
ghost use Rattle.numbers.specs.Bytes.{Bytes};
ghost use Rattle.terms.specs.Operator.{Equals};
ghost use Rattle.terms.specs.Book.{tree};
ghost use Rattle.terms.specs.Readers.{found_two, operator_of};
ghost use Rattle.rules.specs.Refusal.{assert};
ghost use Rattle.rules.specs.declared.refusal.Refusal.TheVariants.{CoeffDifferentSignums};
ghost use Rattle.rules.specs.Limits.{limited};
ghost use Rattle.rules.specs.Shapes.{Clause, is_relation};
ghost use Rattle.rules.specs.Memory.Parts.{terms_in, after};
ghost use Rattle.rules.specs.Memory.ShapeRecords.{pair_of, found_bounds};
ghost use Rattle.polynomial_rel.specs.PolySimpRel.{poly_simp_rel, equated, difference, scaled, assert_sides};
ghost use Rattle.polynomial_rel.specs.PolySimpRel.{assert_odd};
ghost use Rattle.polynomial_rel.specs.PolySimpRel.{bitvector_case, number_case};
ghost use Rattle.polynomial_rel.specs.Memory.PolynomialRel.{PremisesAre, scaled_at, scaled_in, one_sign, signs_of};
ghost use Rattle.polynomial_rel.specs.Memory.PolynomialRel.{operation_of, sides_case, relation_case, scaled_case};

use numbers::number::Number;
use rules::readers::{as_bitvector_err, as_fraction_err, as_op_err};
use rules::refusal::Refusal;
use rules::shapes::{Bound, MAX_NAMES, assert_eq, both, bounds_case, matches, only_literal};
use terms::operator::{BV_MUL, BV_SUB, EQUALS, GREATER_EQ, MULT, SUB, TO_REAL};
use terms::term::{binary, unary};

// The records in c1 (x1 - x2) = c2 (y1 - y2).
#[derive(Clone, Copy)]
pub(crate) struct Scaled {
    pub c1: usize,
    pub x1: usize,
    pub x2: usize,
    pub c2: usize,
    pub y1: usize,
    pub y2: usize,
}

// ---- the premise

// (= (o a b) (o c d)): the records of a, b, c and d. In the form the whole term has the name 0, its sides have the
// names 1 and 2, and a, b, c and d have the names 3 to 6. An equation is a name, an operator, how many parts there are,
// and three places for their names.
fn equated(book: &[u8], id: usize, o: u8) -> Option<(Bound, Bound)>
    ensures { found_bounds book.now result ≡ equated o (tree book.now id) }
{
    let form = [
        // 0 is (= 1 2).
        0, EQUALS, 2, 1, 2, 0,
        // 1 is (o 3 4), which is (o a b).
        1, o, 2, 3, 4, 0,
        // 2 is (o 5 6), which is (o c d).
        2, o, 2, 5, 6, 0,
    ];
    let mut names = [id; MAX_NAMES];
    matches(book, &mut names, &form)?;
    Some(((names[3], names[4]), (names[5], names[6])))
}

// (d x y), and of numbers also (to_real (- x y)): the records of x and y.
fn difference(book: &[u8], id: usize, d: u8) -> Option<(usize, usize)>
    ensures { found_two book.now result ≡ difference d (tree book.now id) }
{
    if d != SUB {
        return binary(book, id, d);
    }
    match unary(book, id, TO_REAL) {
        Some(x) => binary(book, x, d),
        None => binary(book, id, d),
    }
}

// (= (o c1 xs) (o c2 ys)), where xs and ys are differences by d
fn scaled_by(book: &[u8], id: usize, o: u8, d: u8) -> Option<Scaled>
    ensures { scaled_in book.now result ≡ scaled o d (tree book.now id) }
{
    let ((c1, xs), (c2, ys)) = equated(book, id, o)?;
    let ((x1, x2), (y1, y2)) = both(difference(book, xs, d), difference(book, ys, d))?;
    Some(Scaled {
        c1,
        x1,
        x2,
        c2,
        y1,
        y2,
    })
}

// ---- the conclusion

// l1 and l2 are x1 and x2, and r1 and r2 are y1 and y2.
fn assert_sides(l1: usize, l2: usize, r1: usize, r2: usize, p: Scaled) -> Result<(), Refusal>
    ensures { (b : Bytes) →
        result ≡ assert_sides (pair_of b l1 l2) (pair_of b r1 r2) (scaled_at b p) }
{
    bounds_case(assert_eq, (l1, l2), (p.x1, p.x2))?;
    bounds_case(assert_eq, (r1, r2), (p.y1, p.y2))
}

// An odd bit-vector.
fn assert_odd(book: &[u8], id: usize) -> Result<(), Refusal>
    ensures { result ≡ assert_odd (tree book.now id) }
{
    let (c, _) = as_bitvector_err(book, id)?;
    if c % 2 == 1 {
        Ok(())
    } else {
        Err(Refusal::CoeffEven)
    }
}

// (= (= x1 x2) (= y1 y2)), and both coefficients odd
fn bitvector_case(book: &[u8], p: Scaled, phi: usize) -> Result<(), Refusal>
    ensures { result ≡ bitvector_case (scaled_at book.now p) (tree book.now phi) }
{
    assert_odd(book, p.c1)?;
    assert_odd(book, p.c2)?;
    let ((l1, l2), (r1, r2)) = equated(book, phi, EQUALS).ok_or(Refusal::TermOfWrongForm)?;
    assert_sides(l1, l2, r1, r2, p)
}

fn one_sign(p: Number, q: Number) -> Result<bool, Refusal>
    ensures { result ≡ one_sign p q }
{
    if p.is_zero() || q.is_zero() {
        return Err(Refusal::CoeffIsZero);
    }
    Ok(p.is_positive() == q.is_positive())
}

fn signs_of(book: &[u8], c1: usize, c2: usize) -> Result<bool, Refusal>
    ensures { (l : ℕ) →
        result ≡ signs_of (limited l) (tree book.now c1) (tree book.now c2) }
{
    let p = as_fraction_err(book, c1)?;
    let q = as_fraction_err(book, c2)?;
    one_sign(p, q)
}

fn is_relation(o: u8) -> bool
    ensures { result ≡ is_relation o }
{
    matches!(o, EQUALS..=GREATER_EQ)
}

// The relation is =, or the coefficients have the same sign.
fn assert_signs(o: u8, same: bool) -> Result<(), Refusal>
    ensures { result ≡ assert (eqb o Equals || same) CoeffDifferentSignums }
{
    if o == EQUALS || same {
        Ok(())
    } else {
        Err(Refusal::CoeffDifferentSignums)
    }
}

// (o x1 x2) and (o y1 y2) with a relation o, which is the operator of `left`
fn sides_case(
    book: &[u8],
    p: Scaled,
    left: usize,
    right: usize,
    o: u8,
    same: bool,
) -> Result<(), Refusal>
    requires { o ≡ operator_of (tree book.now left) }
    ensures { result ≡ sides_case same (scaled_at book.now p)
        (operation_of (tree book.now left)) (operation_of (tree book.now right)) }
{
    if !is_relation(o) {
        return Err(Refusal::InvalidOperators);
    }
    let operands = both(binary(book, left, o), binary(book, right, o));
    let ((l1, l2), (r1, r2)) = operands.ok_or(Refusal::InvalidOperators)?;
    assert_signs(o, same)?;
    assert_sides(l1, l2, r1, r2, p)
}

// (= left right), two operations
fn relation_case(book: &[u8], p: Scaled, phi: usize, same: bool) -> Result<(), Refusal>
    ensures { result ≡ relation_case same (scaled_at book.now p) (tree book.now phi) }
{
    let (left, right) = binary(book, phi, EQUALS).ok_or(Refusal::TermOfWrongForm)?;
    let o = as_op_err(book, left)?;
    as_op_err(book, right)?;
    sides_case(book, p, left, right, o, same)
}

fn number_case(book: &[u8], p: Scaled, phi: usize) -> Result<(), Refusal>
    ensures { (l : ℕ) →
        result ≡ number_case (limited l) (scaled_at book.now p) (tree book.now phi) }
{
    let same = signs_of(book, p.c1, p.c2)?;
    relation_case(book, p, phi, same)
}

// ---- the step

// The premise t and the conclusion phi.
fn scaled_case(book: &[u8], t: usize, phi: usize) -> Result<(), Refusal>
    ensures { (l : ℕ) →
        result ≡ scaled_case (limited l) (tree book.now t) (tree book.now phi) }
{
    if let Some(p) = scaled_by(book, t, BV_MUL, BV_SUB) {
        return bitvector_case(book, p, phi);
    }
    let p = scaled_by(book, t, MULT, SUB).ok_or(Refusal::TermOfWrongForm)?;
    number_case(book, p, phi)
}

// A step with so many premises, and the literals of the first.
pub fn poly_simp_rel(
    book: &[u8],
    literals: &[u8],
    premises: usize,
    premise: &[u8],
    visits: u32,
) -> Result<u32, Refusal>
    ensures { (l : ℕ) (ps : List Clause) →
        PremisesAre book.now premises premise.now ps →
        result ≡ after visits
        (poly_simp_rel (limited l) (terms_in book.now literals.now) ps) }
{
    if premises != 1 {
        return Err(Refusal::WrongNumberOfPremises);
    }
    let phi = only_literal(literals).ok_or(Refusal::WrongLengthOfClause)?;
    let t = only_literal(premise).ok_or(Refusal::WrongLengthOfPremiseClause)?;
    scaled_case(book, t, phi)?;
    Ok(visits)
}
