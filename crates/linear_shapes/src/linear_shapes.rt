// The rules `la_rw_eq`, `la_disequality` and `la_totality`, and the second form of `la_tautology`, of
// src/checker/rules/linear_arithmetic.rs: they compare terms and numbers, and need no work area.
ghost use Rattle.std.specs.Prelude.{◌≡◌};
ghost use Rattle.terms.specs.Operator.{LessEq, GreaterEq};
ghost use Rattle.terms.specs.Term.{binary};
ghost use Rattle.terms.specs.Book.{tree};
ghost use Rattle.linear_shapes.specs.LinearShapes.{la_rw_eq, la_disequality, la_totality, tautology_case};
ghost use Rattle.linear_shapes.specs.LinearShapes.{assert_less_than, assert_less_eq};
ghost use Rattle.rules.specs.Shapes.{negated_binary, both};
ghost use Rattle.rules.specs.Memory.ShapeRecords.{found_bounds};
ghost use Rattle.rules.specs.Memory.Parts.{terms_in, after};

use rules::readers::as_signed_number_err;
use rules::refusal::Refusal;
use rules::shapes::{Bound, assert_eq, both, bounds_case, has_form, negated_binary};
use terms::operator::{AND, EQUALS, GREATER_EQ, LESS_EQ, NOT, OR};
use terms::term::binary;

// ---- shapes: for each equation, which stands above its bytes, a name, an operator, how many parts, and three places
// for them

// (= (= t u) (and (<= t u) (<= u t)))
const RW_EQ: [u8; 30] = [
    // 0: (= 1 2)
    0, EQUALS, 2, 1, 2, 0,
    // 1: (= 3 4)
    1, EQUALS, 2, 3, 4, 0,
    // 2: (and 5 6)
    2, AND, 2, 5, 6, 0,
    // 5: (<= 3 4)
    5, LESS_EQ, 2, 3, 4, 0,
    // 6: (<= 4 3)
    6, LESS_EQ, 2, 4, 3, 0,
];

pub fn la_rw_eq(book: &[u8], literals: &[u8], visits: u32) -> Result<u32, Refusal>
    ensures { result ≡ after visits (la_rw_eq (terms_in book.now literals.now)) }
{
    has_form(book, literals, &RW_EQ, visits)
}

// (or (= t1 t2) (not (<= t1 t2)) (not (<= t2 t1)))
const DISEQUALITY: [u8; 36] = [
    // 0: (or 1 2 3)
    0, OR, 3, 1, 2, 3,
    // 1: (= 4 5)
    1, EQUALS, 2, 4, 5, 0,
    // 2: (not 6)
    2, NOT, 1, 6, 0, 0,
    // 6: (<= 4 5)
    6, LESS_EQ, 2, 4, 5, 0,
    // 3: (not 7)
    3, NOT, 1, 7, 0, 0,
    // 7: (<= 5 4)
    7, LESS_EQ, 2, 5, 4, 0,
];

pub fn la_disequality(book: &[u8], literals: &[u8], visits: u32) -> Result<u32, Refusal>
    ensures { result
        ≡ after visits (la_disequality (terms_in book.now literals.now)) }
{
    has_form(book, literals, &DISEQUALITY, visits)
}

// (or (<= t1 t2) (<= t2 t1))
const TOTALITY: [u8; 18] = [
    // 0: (or 1 2)
    0, OR, 2, 1, 2, 0,
    // 1: (<= 3 4)
    1, LESS_EQ, 2, 3, 4, 0,
    // 2: (<= 4 3)
    2, LESS_EQ, 2, 4, 3, 0,
];

pub fn la_totality(book: &[u8], literals: &[u8], visits: u32) -> Result<u32, Refusal>
    ensures { result ≡ after visits (la_totality (terms_in book.now literals.now)) }
{
    has_form(book, literals, &TOTALITY, visits)
}

// ---- la_tautology

fn assert_less_than(book: &[u8], a: usize, b: usize) -> Result<(), Refusal>
    ensures { result ≡ assert_less_than (tree book.now a) (tree book.now b) }
{
    let p = as_signed_number_err(book, a)?;
    let q = as_signed_number_err(book, b)?;
    if p.less(q) {
        Ok(())
    } else {
        Err(Refusal::ExpectedLessThan)
    }
}

fn assert_less_eq(book: &[u8], a: usize, b: usize) -> Result<(), Refusal>
    ensures { result ≡ assert_less_eq (tree book.now a) (tree book.now b) }
{
    let p = as_signed_number_err(book, a)?;
    let q = as_signed_number_err(book, b)?;
    if p.less_eq(q) {
        Ok(())
    } else {
        Err(Refusal::ExpectedLessEq)
    }
}

// (not (o s1 d1)) and (o s2 d2)
fn first_negated(book: &[u8], first: usize, second: usize, o: u8) -> Option<(Bound, Bound)>
    ensures { found_bounds book.now result
        ≡ both (negated_binary o (tree book.now first))
        (binary o (tree book.now second)) }
{
    both(negated_binary(book, first, o), binary(book, second, o))
}

// (o s1 d1) and (not (o s2 d2))
fn second_negated(book: &[u8], first: usize, second: usize, o: u8) -> Option<(Bound, Bound)>
    ensures { found_bounds book.now result
        ≡ both (binary o (tree book.now first))
        (negated_binary o (tree book.now second)) }
{
    both(binary(book, first, o), negated_binary(book, second, o))
}

// (not (<= s1 d1)) and (not (>= s2 d2))
fn both_negated(book: &[u8], first: usize, second: usize) -> Option<(Bound, Bound)>
    ensures { found_bounds book.now result
        ≡ both (negated_binary LessEq (tree book.now first))
        (negated_binary GreaterEq (tree book.now second)) }
{
    both(
        negated_binary(book, first, LESS_EQ),
        negated_binary(book, second, GREATER_EQ),
    )
}

// The five forms (or phi1 phi2).
pub fn tautology_case(book: &[u8], first: usize, second: usize) -> Result<(), Refusal>
    ensures { result
        ≡ tautology_case (tree book.now first) (tree book.now second) }
{
    // First case
    if let Some((p, q)) = first_negated(book, first, second, LESS_EQ) {
        return bounds_case(|d1, d2| assert_less_eq(book, d1, d2), p, q);
    }
    // Second case
    if let Some((p, q)) = second_negated(book, first, second, LESS_EQ) {
        return bounds_case(assert_eq, p, q);
    }
    // Third case
    if let Some((p, q)) = first_negated(book, first, second, GREATER_EQ) {
        return bounds_case(|d1, d2| assert_less_eq(book, d2, d1), p, q);
    }
    // Fourth case
    if let Some((p, q)) = second_negated(book, first, second, GREATER_EQ) {
        return bounds_case(assert_eq, p, q);
    }
    // Fifth case
    if let Some((p, q)) = both_negated(book, first, second) {
        return bounds_case(|d1, d2| assert_less_than(book, d1, d2), p, q);
    }
    Err(Refusal::NotValidTautologyCase)
}
