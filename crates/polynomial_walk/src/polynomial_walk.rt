// `add_term` of src/checker/rules/polynomial.rs: a walk of a term and of the lists of its arguments. The factors of a
// product are walked into the areas above the one that is filled.
ghost use Rattle.index_map.specs.Memory.Answers.{walked_with};
ghost use Rattle.index_map.specs.Memory.Answers.{Has};
ghost use Rattle.std.specs.Prelude.{[], ◌∷◌};
ghost use Rattle.numbers.specs.Rational.{Proper};
ghost use Rattle.terms.specs.Book.{tree, numbers, arguments, forest};
ghost use Rattle.terms.specs.Readers.{arguments_of};
ghost use Rattle.rules.specs.Limits.{limited};
ghost use Rattle.index_map.specs.IndexMap.{Map};
ghost use Rattle.polynomial.specs.Polynomial.{Monomial};
ghost use Rattle.polynomial_walk.specs.PolynomialTerms.{first_factor, other_factors};
ghost use Rattle.polynomial.specs.Memory.PolynomialArea.{Stacked, Walks};
ghost use Rattle.polynomial_walk.specs.Memory.PolynomialNodes.{NodeIs, leaf_node, node_of, constant_of, quotient_of};
ghost use Rattle.polynomial_walk.specs.Memory.PolynomialNodes.{add_each, add_product, TermPre, ArgsPre};
ghost use Rattle.polynomial_walk.specs.Memory.PolynomialNodes.{FactorsPre, OthersPre, TermWalks};

use crate::additions::{add_atom, add_constant, add_scaled};
use index_map::combination::Walked;
use numbers::number::Number;
use polynomial::polynomial::{Polynomial, clear_at, mul};
use rules::refusal::Refusal;
use terms::areas::{MAX_DEPTH, POLYNOMIAL_BYTES};
use terms::operator::{ADD, BV_ADD, BV_MUL, BV_NEG, BV_SUB, MULT, REAL_DIV, SUB, TO_REAL};
use terms::records::argument;
use terms::term::{NotRead, args, as_bitvector, as_fraction, operator};

// What a walk does at a term.
#[derive(Clone, Copy)]
pub enum Node {
    // Walks the arguments, the first with the first coefficient and all others with the second.
    Args(Number, Number),
    // Multiplies the arguments.
    Product,
    // Walks the dividend in its place.
    Quotient(usize, Number),
    // Adds to the constant.
    Constant(Number),
    // Adds the term itself as an atom.
    Atom,
}

// ---- looking at a term

fn constant(q: Number, coeff: Number) -> Result<Node, Refusal>
    requires { Proper q × Proper coeff }
    ensures { NodeIs result (constant_of q coeff) }
{
    let c = q.mul(coeff).ok_or(Refusal::NumberRange)?;
    Ok(Node::Constant(c))
}

// A number goes to the constant, a bit-vector constant too, anything else is an atom.
fn leaf(book: &[u8], id: usize, coeff: Number) -> Result<Node, Refusal>
    requires { Proper coeff }
    ensures { NodeIs result (leaf_node (tree book.now id) coeff) }
{
    match as_fraction(book, id) {
        Ok(q) => constant(q, coeff),
        Err(NotRead::OutOfRange) => Err(Refusal::NumberRange),
        Err(NotRead::NotNumber) => match as_bitvector(book, id) {
            Some((v, _)) => constant(Number::whole(v as i64), coeff),
            None => Ok(Node::Atom),
        },
    }
}

// The dividend with the coefficient over the divisor, where that is read and is not 0.
fn quotient(book: &[u8], id: usize, coeff: Number) -> Result<Node, Refusal>
    requires { Proper coeff }
    ensures { NodeIs result (quotient_of (tree book.now id) coeff) }
{
    let sides = args(book, id);
    if sides.len() / 2 < 2 {
        return leaf(book, id, coeff);
    }
    match as_fraction(book, argument(sides, 1, id)) {
        Err(NotRead::OutOfRange) => Err(Refusal::NumberRange),
        Err(NotRead::NotNumber) => leaf(book, id, coeff),
        Ok(q) => {
            if q.is_zero() {
                return leaf(book, id, coeff);
            }
            let c = coeff.div(q).ok_or(Refusal::NumberRange)?;
            Ok(Node::Quotient(argument(sides, 0, id), c))
        }
    }
}

fn look(book: &[u8], id: usize, coeff: Number) -> Result<Node, Refusal>
    requires { Proper coeff }
    ensures { NodeIs result (node_of (tree book.now id) coeff) }
{
    let minus = coeff.neg();
    match operator(book, id) {
        ADD | TO_REAL | BV_ADD => Ok(Node::Args(coeff, coeff)),
        SUB => if args(book, id).len() / 2 == 1 {
            Ok(Node::Args(minus, minus))
        } else {
            Ok(Node::Args(coeff, minus))
        },
        BV_SUB => Ok(Node::Args(coeff, minus)),
        BV_NEG => Ok(Node::Args(minus, minus)),
        MULT | BV_MUL => Ok(Node::Product),
        REAL_DIV => quotient(book, id, coeff),
        _ => leaf(book, id, coeff),
    }
}

// ---- the walk

// Adds coeff times the term of record `id`, under `depth` products. One call is one visit, counted before it is made.
#[cycle(add_args_add_dividend_add_product_add_term_first_factor_other_factors)]
pub fn add_term(
    book: &[u8],
    stack: &mut [u8],
    id: usize,
    coeff: Number,
    w: Walked,
    limit: u32,
    depth: u8,
) -> Result<Walked, Refusal>
    requires { TermPre book.now stack.old id coeff w.sum depth }
    ensures { TermWalks book.now stack.old stack.new id coeff w limit
        depth result }
{
    let sum = w.sum;
    if limit <= w.visits {
        clear_at(stack, 0, sum.len);
        return Err(Refusal::VisitLimit);
    }
    let begun = Walked {
        visits: w.visits + 1,
        ..w
    };
    match look(book, id, coeff) {
        Ok(Node::Args(first, others)) => {
            let part = args(book, id);
            add_args(book, stack, part, id, first, others, begun, limit, depth)
        }
        Ok(Node::Product) => add_product(book, stack, id, coeff, begun, limit, depth),
        Ok(Node::Quotient(x, c)) => add_dividend(book, stack, x, c, begun, limit, depth),
        Ok(Node::Constant(q)) => add_constant(stack, begun, q),
        Ok(Node::Atom) => add_atom(stack, begun, id, coeff),
        Err(r) => {
            clear_at(stack, 0, sum.len);
            Err(r)
        }
    }
}

// The term of record `id` in the place of a quotient. `add_term` has no call of itself: the compiler then lays what its
// arms keep in memory one over the other, and a deep term takes less stack.
#[cycle(add_args_add_dividend_add_product_add_term_first_factor_other_factors)]
fn add_dividend(
    book: &[u8],
    stack: &mut [u8],
    id: usize,
    coeff: Number,
    w: Walked,
    limit: u32,
    depth: u8,
) -> Result<Walked, Refusal>
    requires { TermPre book.now stack.old id coeff w.sum depth }
    ensures { TermWalks book.now stack.old stack.new id coeff w limit
        depth result }
{
    add_term(book, stack, id, coeff, w, limit, depth)
}

// coeff times the product that is the term of record `id`, which is made in the areas above, is added.
#[cycle(add_args_add_dividend_add_product_add_term_first_factor_other_factors)]
fn add_product(
    book: &[u8],
    stack: &mut [u8],
    id: usize,
    coeff: Number,
    w: Walked,
    limit: u32,
    depth: u8,
) -> Result<Walked, Refusal>
    requires { TermPre book.now stack.old id coeff w.sum depth }
    ensures { (m : Map Monomial) → Stacked book.now stack.old (m ∷ []) → Has w.sum m →
        Walks book.now stack.new result
        (add_product (arguments_of (tree book.now id)) (limited limit) depth coeff
        (walked_with w m)) }
{
    let n = w.sum.len;
    if MAX_DEPTH <= depth {
        clear_at(stack, 0, n);
        return Err(Refusal::PolynomialSize);
    }
    let sides = args(book, id);
    let above = POLYNOMIAL_BYTES;
    match first_factor(
        book,
        &mut stack[above..],
        sides,
        id,
        w.visits,
        limit,
        depth + 1,
    ) {
        Ok(product) => {
            let begun = Walked {
                visits: product.visits,
                ..w
            };
            add_scaled(stack, begun, product.sum, coeff)
        }
        Err(r) => {
            clear_at(stack, 0, n);
            Err(r)
        }
    }
}

// The arguments of record `id`, from the part of the record that holds them.
#[cycle(add_args_add_dividend_add_product_add_term_first_factor_other_factors)]
fn add_args(
    book: &[u8],
    stack: &mut [u8],
    args: &[u8],
    id: usize,
    first: Number,
    others: Number,
    w: Walked,
    limit: u32,
    depth: u8,
) -> Result<Walked, Refusal>
    requires { ArgsPre book.now stack.old args.now id first others w.sum depth }
    ensures { (m : Map Monomial) → Stacked book.now stack.old (m ∷ []) → Has w.sum m →
        Walks book.now stack.new result
        (add_each (forest (tree book.now) (arguments id (numbers args.now))) (limited limit) depth
        first others (walked_with w m)) }
{
    let mut done = w;
    let mut coeff = first;
    for k in 0..args.len() / 2 {
        let x = argument(args, k, id);
        done = add_term(book, stack, x, coeff, done, limit, depth)?;
        coeff = others;
    }
    Ok(done)
}

// The product of the arguments of record `id`, in an empty stack: the first two are multiplied before the third is
// walked. Products nest 8 deep at most, so what this keeps in memory has a frame of its own: in that of `add_term` it
// would be there for each record that nests.
#[inline(never)]
#[cycle(add_args_add_dividend_add_product_add_term_first_factor_other_factors)]
fn first_factor(
    book: &[u8],
    stack: &mut [u8],
    args: &[u8],
    id: usize,
    visits: u32,
    limit: u32,
    depth: u8,
) -> Result<Walked, Refusal>
    requires { FactorsPre book.now stack.old args.now id depth }
    ensures { Walks book.now stack.new result
        (first_factor (forest (tree book.now) (arguments id (numbers args.now))) (limited limit)
        depth visits) }
{
    let begun = Walked::new(visits);
    if args.len() / 2 == 0 {
        return Ok(begun);
    }
    let x = argument(args, 0, id);
    let product = add_term(book, stack, x, Number::whole(1), begun, limit, depth)?;
    other_factors(book, stack, &args[2..], id, product, limit, depth)
}

// The product p of the lowest area times each argument in `rest`, the part of record `id` behind those that p is made
// of. Each is walked above p.
#[cycle(add_args_add_dividend_add_product_add_term_first_factor_other_factors)]
fn other_factors(
    book: &[u8],
    stack: &mut [u8],
    rest: &[u8],
    id: usize,
    p: Walked,
    limit: u32,
    depth: u8,
) -> Result<Walked, Refusal>
    requires { OthersPre book.now stack.old rest.now id p.sum depth }
    ensures { (m : Map Monomial) → Stacked book.now stack.old (m ∷ []) → Has p.sum m →
        Walks book.now stack.new result
        (other_factors (forest (tree book.now) (arguments id (numbers rest.now))) (limited limit)
        depth (walked_with p m)) }
{
    if rest.len() / 2 == 0 {
        return Ok(p);
    }
    let begun = Walked::new(p.visits);
    let x = argument(rest, 0, id);
    let above = POLYNOMIAL_BYTES;
    let one = Number::whole(1);
    let factor = match add_term(book, &mut stack[above..], x, one, begun, limit, depth) {
        Ok(walked) => walked,
        Err(r) => {
            clear_at(stack, 0, p.sum.len);
            return Err(r);
        }
    };
    let product = Walked {
        sum: mul(stack, p.sum, factor.sum)?,
        visits: factor.visits,
    };
    other_factors(book, stack, &rest[2..], id, product, limit, depth)
}
