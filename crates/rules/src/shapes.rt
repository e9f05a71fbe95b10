// Shapes of clauses and terms that the rules of both files ask for.
ghost use Rattle.std.specs.Prelude.{◌≡◌, ℕ, ◌≤◌, length, IfSome};
ghost use Rattle.numbers.specs.Bytes.{Bytes};
ghost use Rattle.terms.specs.Term.{Term, binary};
ghost use Rattle.terms.specs.Book.{tree, forest, arguments, numbers};
ghost use Rattle.terms.specs.Readers.{found, found_two};
ghost use Rattle.rules.specs.Refusal.{Result, or_else};
ghost use Rattle.rules.specs.declared.refusal.Refusal.TheVariants.{WrongLengthOfClause};
ghost use Rattle.rules.specs.Shapes.{only_literal, negated_binary, both, bounds_case, assert_eq, max_names, bind};
ghost use Rattle.rules.specs.Shapes.{bind_all, solve, solve_all, has_form, equation_of, form_of};
ghost use Rattle.rules.specs.Memory.ShapeRecords.{pair_of, found_bounds, names_in, found_names};
ghost use Rattle.rules.specs.Memory.Parts.{terms_in, after};

use crate::refusal::Refusal;
use numbers::bytes::{read_u16, wide};
use terms::format::{NUMBER_AT, RUN_RECORD_BYTES};
use terms::records::argument;
use terms::term::{args, binary, operator, remove_negation};

// The record of the only literal, if there is just one: `assert_clause_len(conclusion, 1)`, and `conclusion[0]`.
pub fn only_literal(literals: &[u8]) -> Option<usize>
    ensures { (b : Bytes) →
        or_else (found b result) WrongLengthOfClause ≡ only_literal (terms_in b literals.now) }
{
    if literals.len() / RUN_RECORD_BYTES == 1 {
        return Some(read_u16(literals, NUMBER_AT) as usize);
    }
    None
}

// (not (o x y)): the records of x and y.
pub fn negated_binary(book: &[u8], id: usize, o: u8) -> Option<(usize, usize)>
    ensures { found_two book.now result ≡ negated_binary o (tree book.now id) }
{
    binary(book, remove_negation(book, id)?, o)
}

pub fn assert_eq(a: usize, b: usize) -> Result<(), Refusal>
    ensures { (book : Bytes) → result ≡ assert_eq (tree book a) (tree book b) }
{
    if a == b {
        Ok(())
    } else {
        Err(Refusal::ExpectedEqual)
    }
}

// A term, and what bounds it.
pub type Bound = (usize, usize);

// The terms are one, and what bounds them passes the test.
pub fn bounds_case<F: FnOnce(usize, usize) -> Result<(), Refusal>>(
    test: F,
    p: Bound,
    q: Bound,
) -> Result<(), Refusal>
    requires { F.pre test p.1 q.1 }
    ensures { (b : Bytes) (t : Term → Term → Result (Unit {0})) →
        ((r : _) → F.post test p.1 q.1 r → r ≡ t (tree b p.1) (tree b q.1)) →
        result ≡ bounds_case t (pair_of b p.0 p.1, pair_of b q.0 q.1) }
{
    assert_eq(p.0, q.0)?;
    test(p.1, q.1)
}

// Both parts of a clause, if each bounds a term.
pub fn both(p: Option<Bound>, q: Option<Bound>) -> Option<(Bound, Bound)>
    ensures { (b : Bytes) → found_bounds b result ≡ both (found_two b p) (found_two b q) }
{
    p.zip(q)
}

// How many names a form has at most.
pub const MAX_NAMES: usize = 16;
// The bytes of an equation: a name, an operator, how many parts, and places for three.
const EQUATION_BYTES: usize = 6;

// ---- forms: a table holds the record of each name, and n names have one. Each function answers how many have one
// then, if the form fits.

// Name k is record x.
fn bind(names: &mut [usize; MAX_NAMES], n: usize, k: usize, x: usize) -> Option<usize>
    requires { n ≤ max_names }
    ensures { IfSome result (λ m. m ≤ max_names) × ((b : Bytes) (d : ℕ) →
        found_names b d result names.new ≡ bind k (tree b x) (names_in b d n names.old)) }
{
    if k < n {
        return if names[k] == x { Some(n) } else { None };
    }
    if k == n && k < MAX_NAMES {
        names[k] = x;
        return Some(k + 1);
    }
    None
}

// The names in `parts` are the arguments of record `id`, which `args` holds.
fn bind_all(
    names: &mut [usize; MAX_NAMES],
    n: usize,
    args: &[u8],
    id: usize,
    parts: &[u8],
) -> Option<usize>
    requires { n ≤ max_names }
    ensures { IfSome result (λ m. m ≤ max_names) × ((b : Bytes) (d : ℕ) → found_names b d result names.new
        ≡ bind_all parts.now (forest (tree b) (arguments id (numbers args.now)))
        (names_in b d n names.old)) }
{
    if args.len() / 2 != parts.len() {
        return None;
    }
    let mut m = n;
    for (j, k) in parts.iter().enumerate() {
        m = bind(names, m, wide(*k) as usize, argument(args, j, id))?;
    }
    Some(m)
}

// One equation.
fn solve(book: &[u8], names: &mut [usize; MAX_NAMES], n: usize, e: &[u8]) -> Option<usize>
    requires { (n ≤ max_names) × (length e.now ≡ 6) }
    ensures { IfSome result (λ m. m ≤ max_names) × ((d : ℕ) → found_names book.now d result names.new
        ≡ solve (equation_of e.now) (names_in book.now d n names.old)) }
{
    let w = wide(e[0]) as usize;
    if n <= w || operator(book, names[w]) != e[1] {
        return None;
    }
    let x = names[w];
    bind_all(names, n, args(book, x), x, &e[3..3 + (e[2] % 4) as usize])
}

// The whole form, for the term of the first name.
pub fn matches(book: &[u8], names: &mut [usize; MAX_NAMES], form: &[u8]) -> Option<usize>
    ensures { (d : ℕ) → found_names book.now d result names.new
        ≡ solve_all (form_of form.now) (names_in book.now d 1 names.old) }
{
    let mut n = 1;
    for e in form.chunks_exact(EQUATION_BYTES) {
        n = solve(book, names, n, e)?;
    }
    Some(n)
}

// A rule that asks for a form of the only literal.
pub fn has_form(book: &[u8], literals: &[u8], form: &[u8], visits: u32) -> Result<u32, Refusal>
    ensures { result ≡ after visits (has_form (form_of form.now) (terms_in book.now literals.now)) }
{
    let phi = only_literal(literals).ok_or(Refusal::WrongLengthOfClause)?;
    let mut names = [phi; MAX_NAMES];
    matches(book, &mut names, form).ok_or(Refusal::TermOfWrongForm)?;
    Ok(visits)
}
