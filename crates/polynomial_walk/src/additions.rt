// What a walk adds to the polynomial in the lowest area of a stack: a number, an atom, a product. A refusal leaves the
// area empty.
ghost use Rattle.index_map.specs.Memory.Answers.{comb_with, walked_with};
ghost use Rattle.index_map.specs.Memory.Answers.{Has};
ghost use Rattle.std.specs.Prelude.{[], ◌∷◌, ℕ, ◌≤◌, ◌<◌};
ghost use Rattle.numbers.specs.Rational.{Proper};
ghost use Rattle.numbers.specs.Bytes.{Bytes};
ghost use Rattle.terms.specs.Book.{count, tree};
ghost use Rattle.rules.specs.Limits.{limited};
ghost use Rattle.index_map.specs.IndexMap.{Map, add_constant, add_entry};
ghost use Rattle.polynomial.specs.Polynomial.{Monomial, monomials};
ghost use Rattle.polynomial.specs.Memory.PolynomialArea.{places, StackHas, Stacked, Walks};
ghost use Rattle.polynomial.specs.Memory.PolynomialArea.{add_scaled};

use index_map::combination::Walked;
use numbers::number::Number;
use polynomial::monomials::put_atom;
use polynomial::polynomial::{Polynomial, clear_at, insert_at, insert_scaled};
use rules::refusal::Refusal;
use terms::areas::MONOMIAL_BYTES;

// Adds to the constant.
pub(crate) fn add_constant(stack: &mut [u8], w: Walked, q: Number) -> Result<Walked, Refusal>
    requires { StackHas 0 stack.old × ((w.sum.len ≤ places) × (Proper w.sum.constant × Proper q)) }
    ensures { (b : Bytes) (m : Map Monomial) → Stacked b stack.old (m ∷ []) → Has w.sum m → (l : ℕ) →
        Walks b stack.new result (add_constant (limited l) q (walked_with w m)) }
{
    let longer = w.plus(q);
    if longer.is_err() {
        clear_at(stack, 0, w.sum.len);
    }
    longer
}

// The monomial of one atom.
pub(crate) fn add_atom(
    stack: &mut [u8],
    w: Walked,
    id: usize,
    value: Number,
) -> Result<Walked, Refusal>
    requires { StackHas 0 stack.old ×
        ((w.sum.len ≤ places) × (Proper w.sum.constant × ((id < 65536) × Proper value))) }
    ensures { (b : Bytes) (m : Map Monomial) → Stacked b stack.old (m ∷ []) → Has w.sum m →
        id < count b → (l : ℕ) → Walks b stack.new result
        (add_entry monomials (limited l) (tree b id ∷ []) value (walked_with w m)) }
{
    let mut key = [0u8; MONOMIAL_BYTES];
    put_atom(&mut key, id);
    let len = insert_at(stack, 0, w.sum.len, &key, value)?;
    let sum = Polynomial { len, ..w.sum };
    Ok(Walked { sum, ..w })
}

// A product p, in area 1, times a number is added to the polynomial of area 0; area 1 is empty afterwards.
pub(crate) fn add_scaled(
    stack: &mut [u8],
    w: Walked,
    p: Polynomial,
    coeff: Number,
) -> Result<Walked, Refusal>
    requires { StackHas 1 stack.old × (((w.sum.len ≤ places) × (p.len ≤ places)) ×
        ((Proper w.sum.constant × Proper p.constant) × Proper coeff)) }
    ensures { (b : Bytes) (m n : Map Monomial) → Stacked b stack.old (m ∷ n ∷ []) → Has w.sum m →
        Has p n → (l : ℕ) → Walks b stack.new result
        (add_scaled (limited l) coeff (comb_with p n) (walked_with w m)) }
{
    let answer = insert_scaled(stack, 1, p.len, coeff, 0, w.sum.len);
    clear_at(stack, 1, p.len);
    let len = answer?;
    let Some(scaled) = coeff.mul(p.constant) else {
        clear_at(stack, 0, len);
        return Err(Refusal::NumberRange);
    };
    let sum = Polynomial { len, ..w.sum };
    add_constant(stack, Walked { sum, ..w }, scaled)
}
