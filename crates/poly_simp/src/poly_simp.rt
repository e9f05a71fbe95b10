// The rule `poly_simp` of src/checker/rules/polynomial.rs, on one step that is given as a part of the lent run: both
// sides of an equality as polynomials, over a bit-vector sort modulo 2^width, are subtracted. The polynomials lie in a
// stack of areas behind the sorts. The work area is left as it was found.
ghost use Rattle.index_map.specs.Memory.Answers.{comb_with};
ghost use Rattle.index_map.specs.Memory.Answers.{Has};
ghost use Rattle.std.specs.Prelude.{◌≡◌, [], ◌∷◌, ℕ, ◌≤◌, ◌<◌, pos, length, get_or, replicate};
ghost use Rattle.numbers.specs.Rational.{Makes, Proper, whole, modulo};
ghost use Rattle.numbers.specs.Bytes.{Bytes};
ghost use Rattle.terms.specs.Book.{count, tree};
ghost use Rattle.rules.specs.Limits.{limited};
ghost use Rattle.index_map.specs.IndexMap.{Map, insert_all, neg_all, sub};
ghost use Rattle.rules.specs.Memory.Parts.{Laid, Ready, terms_in, Inside};
ghost use Rattle.polynomial.specs.Polynomial.{Monomial, monomials};
ghost use Rattle.polynomial.specs.Memory.PolynomialArea as area;
ghost use Rattle.polynomial.specs.Memory.PolynomialArea.{places, no_entry, StackHas, Few, Stacked, InsertsAt};
ghost use Rattle.polynomial.specs.Memory.PolynomialArea.{enter_turned, MonomialCount};
ghost use Rattle.poly_simp.specs.PolySimp.{modulo_all, poly_simp};
ghost use Rattle.poly_simp.specs.Memory.PolynomialSteps.{stack_size, max_sort, max_modulus, ReducedLeft};
ghost use Rattle.poly_simp.specs.Memory.PolynomialSteps.{AtDifference, BothWalked, differs, DiffersLeft};
ghost use Rattle.poly_simp.specs.Memory.PolynomialSteps.{equal_sides};

use index_map::combination::Walked;
use numbers::bytes::byte;
use numbers::number::Number;
use polynomial::monomials::{key_at, put_entry, value_at};
use polynomial::polynomial::{Polynomial, area_at, clear_at, insert_at};
use polynomial_walk::polynomial_walk::add_term;
use rules::counter::Counter;
use rules::refusal::Refusal;
use rules::shapes::only_literal;
use terms::areas::{POLYNOMIAL_BYTES, STEP_AT};
use terms::format::{BITS_CODE, BITS_SORT};
use terms::operator::EQUALS;
use terms::term::binary;

// ---- sub

// Entry k of area 1, with the sign turned, into area 0.
fn enter_turned(stack: &mut [u8], k: usize, m: usize) -> Result<usize, Refusal>
    requires { StackHas 1 stack.old × ((k < places) × (m ≤ places)) }
    ensures few { Few result }
    ensures inserts_at { (b : Bytes) (p q : Map Monomial) → Stacked b stack.old (p ∷ q ∷ []) →
        k < length q → m ≡ length p → (l : ℕ) →
        InsertsAt b stack.new (p ∷ q ∷ []) 0 result (enter_turned (limited l) (get_or q k no_entry) p) }
{
    let key = key_at(area_at(stack, 1), k);
    let value = value_at(area_at(stack, 1), k);
    insert_at(stack, 0, m, &key, value.neg())
}

// The n entries of area 1, with the sign turned, into area 0.
fn insert_turned(stack: &mut [u8], n: usize, m: usize) -> Result<usize, Refusal>
    requires { StackHas 1 stack.old × ((n ≤ places) × (m ≤ places)) }
    ensures few { Few result }
    ensures inserts_at { (b : Bytes) (p q : Map Monomial) → Stacked b stack.old (p ∷ q ∷ []) →
        n ≡ length q → m ≡ length p → (l : ℕ) →
        InsertsAt b stack.new (p ∷ q ∷ []) 0 result (insert_all monomials (limited l) p (neg_all q)) }
{
    let mut len = m;
    for k in 0..n {
        len = enter_turned(stack, k, len)?;
    }
    Ok(len)
}

// The polynomial of area 0 minus that of area 1, in area 0; area 1 is empty afterwards.
fn sub(stack: &mut [u8], p: Polynomial, q: Polynomial) -> Result<Polynomial, Refusal>
    requires { AtDifference p q stack.old }
    ensures { (b : Bytes) (u v : Map Monomial) → Stacked b stack.old (u ∷ v ∷ []) →
        Has p u → Has q v → (l : ℕ) →
        area.Combines b stack.new result (sub monomials (limited l) (comb_with p u) (comb_with q v)) }
{
    let turned = insert_turned(stack, q.len, p.len);
    clear_at(stack, 1, q.len);
    let len = turned?;
    let Some(constant) = p.constant.add(q.constant.neg()) else {
        clear_at(stack, 0, len);
        return Err(Refusal::NumberRange);
    };
    Ok(Polynomial { len, constant })
}

// ---- modulo

// The least number that is not negative and is q's numerator modulo m.
fn modulo(q: Number, m: u64) -> Number
    requires { Proper q × ((1 ≤ m) × (m ≤ max_modulus)) }
    ensures { Makes result (whole (pos (modulo q.num m))) }
{
    Number::whole(q.num.rem_euclid(m as i64))
}

// Of each of the n coefficients; entries that become 0 stay.
fn modulo_all(entries: &mut [u8], n: usize, m: u64)
    requires { MonomialCount n entries.old × ((1 ≤ m) × (m ≤ max_modulus)) }
    ensures { (b : Bytes) (p : Map Monomial) → area.Held b entries.old p → n ≡ length p →
        area.Held b entries.new (modulo_all m p) }
{
    for k in 0..n {
        let key = key_at(entries, k);
        let value = value_at(entries, k);
        put_entry(entries, k, &key, modulo(value, m));
    }
}

// Over a bit-vector sort modulo 2^width; `sort` is the sort as one number.
fn reduced(stack: &mut [u8], j: usize, p: Polynomial, sort: u8) -> Polynomial
    requires { StackHas j stack.old × ((p.len ≤ places) × (Proper p.constant × (sort ≤ max_sort))) }
    ensures { ReducedLeft j p sort stack.old stack.new result }
{
    if sort < BITS_SORT {
        return p;
    }
    let width = (sort - BITS_CODE) as u64;
    let m = 1u64 << width;
    let start = POLYNOMIAL_BYTES * j;
    modulo_all(&mut stack[start..start + POLYNOMIAL_BYTES], p.len, m);
    Polynomial {
        len: p.len,
        constant: modulo(p.constant, m),
    }
}

// ---- poly_simp

// The difference of the polynomials p and q of areas 0 and 1 is 0. The stack is empty afterwards.
fn differ(
    stack: &mut [u8],
    p: Polynomial,
    q: Polynomial,
    sort: u8,
    visits: u32,
) -> Result<u32, Refusal>
    requires { (sort ≤ max_sort) × BothWalked p q stack.old }
    ensures { (b : Bytes) (u v : Map Monomial) → Stacked b stack.old (u ∷ v ∷ []) →
        Has p u → Has q v → (l : ℕ) →
        DiffersLeft b stack.new result (differs (limited l) sort (comb_with p u) (comb_with q v) visits) }
{
    let a = reduced(stack, 0, p, sort);
    let b = reduced(stack, 1, q, sort);
    let d = sub(stack, a, b)?;
    clear_at(stack, 0, d.len);
    if d.len == 0 && d.constant.is_zero() {
        Ok(visits)
    } else {
        Err(Refusal::PolynomialsNotEqual)
    }
}

// The two sides of an equality, over a sort, in an empty stack, which is left empty.
fn equal(
    book: &[u8],
    stack: &mut [u8],
    t: usize,
    s: usize,
    sort: u8,
    counter: Counter,
) -> Result<u32, Refusal>
    requires { (Laid book.now × ((t < count book.now) × (s < count book.now)))
        × ((stack.old ≡ replicate stack_size 0) × (sort ≤ max_sort)) }
    ensures value { result ≡ equal_sides (limited counter.limit) sort
        (tree book.now t) (tree book.now s) counter.visits }
    ensures stack_unchanged { stack.new ≡ stack.old }
{
    let one = Number::whole(1);
    let begun = Walked::new(counter.visits);
    let left = add_term(book, stack, t, one, begun, counter.limit, 0)?;
    let begun = Walked::new(left.visits);
    match add_term(
        book,
        &mut stack[POLYNOMIAL_BYTES..],
        s,
        one,
        begun,
        counter.limit,
        0,
    ) {
        Ok(right) => differ(stack, left.sum, right.sum, sort, right.visits),
        Err(r) => {
            clear_at(stack, 0, left.sum.len);
            Err(r)
        }
    }
}

pub fn poly_simp(
    book: &[u8],
    work: &mut [u8],
    literals: &[u8],
    counter: Counter,
) -> Result<u32, Refusal>
    requires { Ready book.now work.old × Inside book.now literals.now }
    ensures value { result ≡ poly_simp (limited counter.limit)
        (terms_in book.now literals.now) counter.visits }
    ensures work_unchanged { work.new ≡ work.old }
{
    let phi = only_literal(literals).ok_or(Refusal::WrongLengthOfClause)?;
    let (t, s) = binary(book, phi, EQUALS).ok_or(Refusal::TermOfWrongForm)?;
    let sort = byte(work, t);
    equal(book, &mut work[STEP_AT..], t, s, sort, counter)
}
