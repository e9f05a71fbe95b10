// What the walk of a linear term does at a term, and where a term leads.
ghost use Rattle.std.specs.Prelude.{◌≡◌, ◌<◌};
ghost use Rattle.numbers.specs.Rational.{Proper, mul_q, checked};
ghost use Rattle.terms.specs.Book.{count, tree};
ghost use Rattle.terms.specs.Readers.{Finds};
ghost use Rattle.rules.specs.Memory.Parts.{Laid};
ghost use Rattle.linear_walk.specs.Memory.LinearNodes.{NodeIs, PlaceIs};
ghost use Rattle.linear_walk.specs.Memory.LinearNodes.{node_of, read_node, product_node, factor_node};
ghost use Rattle.rules.specs.Limits.{number_or};

use numbers::number::Number;
use rules::refusal::Refusal;
use terms::operator::{ADD, MULT, NO_OPERATOR, SUB};
use terms::term::{NotRead, args, as_fraction, as_number, binary, operator};

// ---- what a walk does at a term

#[derive(Clone, Copy)]
pub(crate) enum Node {
    // Walks the arguments, the first with the first coefficient and all others with the second.
    Args(Number, Number),
    // Walks one factor of a product in its place.
    Factor(usize, Number),
    // Adds to the constant.
    Constant(Number),
    // Adds the term itself as an atom.
    Atom,
}

// A product of a number and record x.
fn factor(x: usize, q: Number, coeff: Number) -> Result<Node, Refusal>
    requires { Proper q × Proper coeff }
    ensures { NodeIs result (factor_node x q coeff) }
{
    let c = q.mul(coeff).ok_or(Refusal::NumberRange)?;
    Ok(Node::Factor(x, c))
}

// What is read as a number, if it is one; refused where it leaves the range.
fn in_range(x: Result<Number, NotRead>) -> Result<Option<Number>, Refusal>
    ensures { result ≡ number_or x }
{
    match x {
        Ok(q) => Ok(Some(q)),
        Err(NotRead::NotNumber) => Ok(None),
        Err(NotRead::OutOfRange) => Err(Refusal::NumberRange),
    }
}

// Both factors are read before either is looked at.
fn product(book: &[u8], x: usize, y: usize, coeff: Number) -> Result<Node, Refusal>
    requires { Proper coeff }
    ensures { NodeIs result (product_node (tree book.now x) (tree book.now y) coeff) }
{
    let first = in_range(as_fraction(book, x))?;
    let second = in_range(as_fraction(book, y))?;
    match (first, second) {
        (Some(q), _) => factor(y, q, coeff),
        (None, Some(q)) => factor(x, q, coeff),
        (None, None) => Ok(Node::Atom),
    }
}

// A number goes to the constant, anything else is an atom; x is what the term is read as.
fn leaf(x: Result<Number, NotRead>, coeff: Number) -> Result<Node, Refusal>
    requires { Finds x x × Proper coeff }
    ensures { NodeIs result (read_node coeff x) }
{
    match in_range(x)? {
        Some(q) => Ok(Node::Constant(q.mul(coeff).ok_or(Refusal::NumberRange)?)),
        None => Ok(Node::Atom),
    }
}

// A term that is no operation is a number as it stands, or none: most terms are of this kind.
fn look(book: &[u8], id: usize, coeff: Number) -> Result<Node, Refusal>
    requires { Proper coeff }
    ensures { NodeIs result (node_of (tree book.now id) coeff) }
{
    match operator(book, id) {
        NO_OPERATOR => leaf(as_number(book, id), coeff),
        ADD => Ok(Node::Args(coeff, coeff)),
        SUB => {
            let minus = coeff.neg();
            if args(book, id).len() / 2 == 1 {
                Ok(Node::Args(minus, minus))
            } else {
                Ok(Node::Args(coeff, minus))
            }
        }
        MULT => match binary(book, id, MULT) {
            Some((x, y)) => product(book, x, y, coeff),
            None => leaf(as_fraction(book, id), coeff),
        },
        _ => leaf(as_fraction(book, id), coeff),
    }
}

// ---- where a term leads: each record on the way is a product of a number and the next one

#[derive(Clone, Copy)]
pub(crate) enum Place {
    // To the arguments of a record, with coefficients as in `Node`.
    Args(usize, Number, Number),
    // To a constant.
    Constant(Number),
    // To an atom, with its coefficient.
    Atom(usize, Number),
}

// Goes from a term to the first one that is no product of a number and another; with the visits made so far. Each
// record is one visit, counted before it is made. No sum is read or changed.
pub(crate) fn descend(
    book: &[u8],
    id: usize,
    coeff: Number,
    visits: u32,
    limit: u32,
) -> Result<(Place, u32), Refusal>
    requires { Laid book.now × ((id < count book.now) × Proper coeff) }
    ensures { PlaceIs book.now limit id coeff visits result }
{
    let mut x = id;
    let mut c = coeff;
    for made in visits..limit {
        let seen = made + 1;
        match look(book, x, c)? {
            Node::Args(first, others) => {
                return Ok((Place::Args(x, first, others), seen));
            }
            Node::Factor(y, d) => {
                x = y;
                c = d;
            }
            Node::Constant(q) => {
                return Ok((Place::Constant(q), seen));
            }
            Node::Atom => {
                return Ok((Place::Atom(x, c), seen));
            }
        }
    }
    Err(Refusal::VisitLimit)
}
