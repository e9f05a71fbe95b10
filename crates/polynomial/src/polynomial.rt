// `impl Polynomial` of src/checker/rules/polynomial.rs. A polynomial is its monomials, in an area of a stack of areas
// (`stack`), and by value their number and the constant. The lowest area is the one that is filled; what lies above it
// is free, and 0. A refusal leaves the stack empty.
ghost use Rattle.std.specs.Prelude.{Err};
ghost use Rattle.index_map.specs.Memory.Answers.{comb_with};
ghost use Rattle.index_map.specs.Memory.Answers.{Has};
ghost use Rattle.std.specs.Prelude.{◌≡◌, ◌≢◌, List, [], ◌∷◌, ℕ, ◌+◌, ◌*◌, ◌≤◌, ◌<◌, length, get_or, set};
ghost use Rattle.numbers.specs.Rational.{Proper};
ghost use Rattle.numbers.specs.Bytes.{Bytes};
ghost use Rattle.rules.specs.Limits.{limited};
ghost use Rattle.index_map.specs.IndexMap.{Map, insert, combination};
ghost use Rattle.polynomial.specs.Polynomial.{Monomial, monomials, mul_each, mul_left, insert_scaled, mul};
ghost use Rattle.polynomial.specs.Memory.PolynomialArea as area;
ghost use Rattle.polynomial.specs.Memory.PolynomialArea.{places, key_size, part_at, Key, Few, Stacked, StackHas};
ghost use Rattle.polynomial.specs.Memory.PolynomialArea.{InsertsAt, AtCount, AtNew, AtScaled, AtProduct};
ghost use Rattle.polynomial.specs.Memory.PolynomialArea.{no_entry, enter_product, mul_entry};
ghost use Rattle.polynomial.specs.Memory.PolynomialArea.{enter_scaled};

use crate::monomials::{clear, insert, join, key_at, value_at};
use index_map::combination::Combination;
use numbers::number::Number;
use rules::refusal::Refusal;
use terms::areas::{MAX_ATOMS, MONOMIAL_BYTES, POLYNOMIAL_BYTES};

// A combination of monomials.
pub type Polynomial = Combination;

// ---- one area of a stack

// Area j.
pub fn area_at(stack: &[u8], j: usize) -> &[u8]
    requires { StackHas j stack.now }
    ensures { result.now ≡ part_at j stack.now }
{
    let start = POLYNOMIAL_BYTES * j;
    &stack[start..start + POLYNOMIAL_BYTES]
}

// Empties area j of n entries.
pub fn clear_at(stack: &mut [u8], j: usize, n: usize)
    requires { AtCount j n stack.old }
    ensures { (b : Bytes) (ms : List (Map Monomial)) → Stacked b stack.old ms → j < length ms →
        n ≡ length (get_or ms j []) → Stacked b stack.new (set ms j []) }
{
    let start = POLYNOMIAL_BYTES * j;
    clear(&mut stack[start..start + POLYNOMIAL_BYTES], n);
}

// Enters a monomial into area j.
pub fn insert_at(
    stack: &mut [u8],
    j: usize,
    n: usize,
    key: &[u8],
    value: Number,
) -> Result<usize, Refusal>
    requires { AtNew j n key.now value stack.old }
    ensures few { Few result }
    ensures inserts_at { (b : Bytes) (ms : List (Map Monomial)) (x : Monomial) → Stacked b stack.old ms →
        j < length ms → n ≡ length (get_or ms j []) → Key b key.now x → (l : ℕ) →
        InsertsAt b stack.new ms j result (insert monomials (limited l) (get_or ms j []) x value) }
{
    let start = POLYNOMIAL_BYTES * j;
    insert(&mut stack[start..start + POLYNOMIAL_BYTES], n, key, value)
}

// ---- mul

// One monomial x of the left against entry k of the right, in area 1, into area 2: length, then coefficient, then
// entry.
fn enter_product(
    stack: &mut [u8],
    x: &[u8],
    c: Number,
    k: usize,
    m: usize,
) -> Result<usize, Refusal>
    requires { StackHas 2 stack.old × ((length x.now ≡ key_size) × (Proper c × ((k < places) × (m ≤ places)))) }
    ensures few { Few result }
    ensures inserts_at { (b : Bytes) (p q s : Map Monomial) (y : Monomial) →
        Stacked b stack.old (p ∷ q ∷ s ∷ []) → k < length q → m ≡ length s →
        Key b x.now y → (l : ℕ) →
        InsertsAt b stack.new (p ∷ q ∷ s ∷ []) 2 result (enter_product (limited l) y c (get_or q k no_entry) s) }
{
    let other = key_at(area_at(stack, 1), k);
    let d = value_at(area_at(stack, 1), k);
    if MAX_ATOMS < x[0] as usize + other[0] as usize {
        clear_at(stack, 2, m);
        return Err(Refusal::PolynomialSize);
    }
    let Some(value) = c.mul(d) else {
        clear_at(stack, 2, m);
        return Err(Refusal::NumberRange);
    };
    let mut key = [0u8; MONOMIAL_BYTES];
    key.copy_from_slice(x);
    join(&mut key, &other);
    insert_at(stack, 2, m, &key, value)
}

// One monomial x of the left against each of the n of the right.
fn mul_each(stack: &mut [u8], x: &[u8], c: Number, n: usize, m: usize) -> Result<usize, Refusal>
    requires { StackHas 2 stack.old × ((length x.now ≡ key_size) × (Proper c × ((n ≤ places) × (m ≤ places)))) }
    ensures few { Few result }
    ensures inserts_at { (b : Bytes) (p q s : Map Monomial) (y : Monomial) →
        Stacked b stack.old (p ∷ q ∷ s ∷ []) → n ≡ length q → m ≡ length s →
        Key b x.now y → (l : ℕ) →
        InsertsAt b stack.new (p ∷ q ∷ s ∷ []) 2 result (mul_each (limited l) y c q s) }
{
    let mut len = m;
    for k in 0..n {
        len = enter_product(stack, x, c, k, len)?;
    }
    Ok(len)
}

// Entry k of the left against the right and its constant.
fn mul_entry(
    stack: &mut [u8],
    k: usize,
    n: usize,
    constant: Number,
    m: usize,
) -> Result<usize, Refusal>
    requires { StackHas 2 stack.old × (Proper constant × ((k < places) × ((n ≤ places) × (m ≤ places)))) }
    ensures few { Few result }
    ensures inserts_at { (b : Bytes) (p q s : Map Monomial) → Stacked b stack.old (p ∷ q ∷ s ∷ []) →
        k < length p → n ≡ length q → m ≡ length s → (l : ℕ) →
        InsertsAt b stack.new (p ∷ q ∷ s ∷ []) 2 result
        (mul_entry (limited l) (get_or p k no_entry) (combination q constant) s) }
{
    let key = key_at(area_at(stack, 0), k);
    let c = value_at(area_at(stack, 0), k);
    let len = mul_each(stack, &key, c, n, m)?;
    let Some(value) = c.mul(constant) else {
        clear_at(stack, 2, len);
        return Err(Refusal::NumberRange);
    };
    insert_at(stack, 2, len, &key, value)
}

// Each of the p monomials of the left, in area 0, against the right, in area 1, and its constant, into area 2, which is
// empty before.
fn mul_left(stack: &mut [u8], p: usize, n: usize, constant: Number) -> Result<usize, Refusal>
    requires { StackHas 2 stack.old × (Proper constant × ((p ≤ places) × (n ≤ places))) }
    ensures few { Few result }
    ensures inserts_at { (b : Bytes) (u q : Map Monomial) → Stacked b stack.old (u ∷ q ∷ [] ∷ []) →
        p ≡ length u → n ≡ length q → (l : ℕ) →
        InsertsAt b stack.new (u ∷ q ∷ [] ∷ []) 2 result
        (mul_left (limited l) u (combination q constant) []) }
{
    let mut len = 0;
    for k in 0..p {
        len = mul_entry(stack, k, n, constant, len)?;
    }
    Ok(len)
}

// Entry k of area j, times a number, into area t.
fn enter_scaled(
    stack: &mut [u8],
    j: usize,
    k: usize,
    q: Number,
    t: usize,
    m: usize,
) -> Result<usize, Refusal>
    requires { (StackHas j stack.old × StackHas t stack.old) × (Proper q × ((k < places) × (m ≤ places))) }
    ensures few { Few result }
    ensures inserts_at { (b : Bytes) (ms : List (Map Monomial)) → Stacked b stack.old ms → j < length ms →
        t < length ms → j ≢ t → k < length (get_or ms j []) → m ≡ length (get_or ms t []) → (l : ℕ) →
        InsertsAt b stack.new ms t result
        (enter_scaled (limited l) (get_or (get_or ms j []) k no_entry) q (get_or ms t [])) }
{
    let key = key_at(area_at(stack, j), k);
    let c = value_at(area_at(stack, j), k);
    let Some(value) = c.mul(q) else {
        clear_at(stack, t, m);
        return Err(Refusal::NumberRange);
    };
    insert_at(stack, t, m, &key, value)
}

// Each of the n monomials of area j, times a number, into area t.
pub fn insert_scaled(
    stack: &mut [u8],
    j: usize,
    n: usize,
    q: Number,
    t: usize,
    m: usize,
) -> Result<usize, Refusal>
    requires { AtScaled j n t m q stack.old }
    ensures few { Few result }
    ensures inserts_at { (b : Bytes) (ms : List (Map Monomial)) → Stacked b stack.old ms → j < length ms →
        t < length ms → j ≢ t → n ≡ length (get_or ms j []) → m ≡ length (get_or ms t []) → (l : ℕ) →
        InsertsAt b stack.new ms t result (insert_scaled (limited l) (get_or ms j []) q (get_or ms t [])) }
{
    let mut len = m;
    for k in 0..n {
        len = enter_scaled(stack, j, k, q, t, len)?;
    }
    Ok(len)
}

// The bytes of area 2 go to area 0.
fn move_down(stack: &mut [u8])
    requires { StackHas 2 stack.old }
    ensures { (b : Bytes) (p q s : Map Monomial) → Stacked b stack.old (p ∷ q ∷ s ∷ []) →
        Stacked b stack.new (s ∷ q ∷ s ∷ []) }
{
    let from = 2 * POLYNOMIAL_BYTES;
    stack.copy_within(from..from + POLYNOMIAL_BYTES, 0);
}

// Empties areas 0 and 1.
fn refuse(stack: &mut [u8], n: usize, m: usize, r: Refusal) -> Result<Polynomial, Refusal>
    requires { StackHas 1 stack.old × ((n ≤ places) × (m ≤ places)) }
    ensures value { result ≡ Err r }
    ensures stacked { (b : Bytes) (p q : Map Monomial) (ms : List (Map Monomial)) →
        Stacked b stack.old (p ∷ q ∷ ms) → n ≡ length p → m ≡ length q →
        Stacked b stack.new ([] ∷ [] ∷ ms) }
{
    clear_at(stack, 0, n);
    clear_at(stack, 1, m);
    Err(r)
}

// The product of the polynomials of areas 0 and 1, in area 0; the others are empty afterwards.
pub fn mul(stack: &mut [u8], p: Polynomial, q: Polynomial) -> Result<Polynomial, Refusal>
    requires { AtProduct p q stack.old }
    ensures { (b : Bytes) (u v : Map Monomial) → Stacked b stack.old (u ∷ v ∷ []) → Has p u →
        Has q v → (l : ℕ) →
        area.Combines b stack.new result (mul (limited l) (comb_with p u) (comb_with q v)) }
{
    let len = match mul_left(stack, p.len, q.len, q.constant) {
        Ok(n) => n,
        Err(r) => return refuse(stack, p.len, q.len, r),
    };
    let k = match insert_scaled(stack, 1, q.len, p.constant, 2, len) {
        Ok(n) => n,
        Err(r) => return refuse(stack, p.len, q.len, r),
    };
    let Some(constant) = p.constant.mul(q.constant) else {
        clear_at(stack, 2, k);
        return refuse(stack, p.len, q.len, Refusal::NumberRange);
    };
    move_down(stack);
    clear_at(stack, 1, q.len);
    clear_at(stack, 2, k);
    Ok(Polynomial { len: k, constant })
}
