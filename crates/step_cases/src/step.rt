// One step: its answer, its visits and the numbers that it infers, beside those of the file.
ghost use Rattle.std.specs.Prelude.{◌≡◌, ◌≤◌, length};
ghost use Rattle.terms.specs.Book.{count, all_below};
ghost use Rattle.rules.specs.Memory.Parts.{Ready, numbers_in};
ghost use Rattle.linear_arithmetic.specs.Memory.LinearSteps.{StepReady};

use linear_arithmetic::linear_arithmetic::{
    Folded, bounded_farkas, fold_literals, la_generic, la_tautology, read_args,
};
use linear_comb::linear_comb::LinearComb;
use linear_shapes::linear_shapes::{la_disequality, la_rw_eq, la_totality};
use numbers::bytes::byte;
use numbers::number::Number;
use poly_simp::poly_simp::poly_simp;
use polynomial_rel::polynomial_rel::poly_simp_rel;
use process_disequality::process_disequality::Progress;
use rules::counter::Counter;
use rules::refusal::{Refusal, refusal_number};
use rules::run_records::{number_in, rest};
use runs::rule::Rule;
use terms::format::{PREMISE, RUN_RECORD_BYTES};
use terms::operator::EQUALS;
use terms::records::count;

const LIMIT: u32 = 1000000;

// The most bytes of literals that a step may have.
const MOST_LITERALS: usize = 16384;

// The bytes of an inferred number.
pub(crate) const NUMBER_BYTES: usize = 8;

// The visits of a step that is accepted, or document 01's number of its refusal.
pub(crate) type Answer = Result<u32, u8>;

// What the file says of a step over a book.
#[derive(Clone, Copy)]
pub(crate) struct Step<'a> {
    pub book: &'a [u8],
    pub rule: Rule,
    pub literals: &'a [u8],
    // Its arguments, or of rule 8 its premises and the literals of the first.
    pub others: &'a [u8],
    // The numbers that it infers.
    pub numbers: &'a [u8],
    pub expected: Answer,
}

// ---- its answer

// Whether each record of a part of a run names a record of the book. A loop, since under `all` what `number_in` asks is
// not found.
fn inside(book: &[u8], part: &[u8]) -> bool
    ensures { result ≡ all_below (count book.now) (numbers_in part.now) }
{
    let n = count(book);
    for k in 0..part.len() / RUN_RECORD_BYTES {
        if n <= number_in(part, k) {
            return false;
        }
    }
    true
}

// How many records at the start of a part are P records.
fn premises(part: &[u8]) -> usize
    ensures { result ≤ 65536 }
{
    part.chunks_exact(RUN_RECORD_BYTES)
        .take(65536)
        .take_while(|r| byte(r, 0) == PREMISE)
        .count()
}

impl Step<'_> {
    // The step by its rule.
    fn check(self, work: &mut [u8], limit: u32) -> Result<u32, Refusal>
        requires { StepReady self.book.now work.old self.literals.now }
        ensures { work.new ≡ work.old }
    {
        let book = self.book;
        let literals = self.literals;
        let others = self.others;
        let counter = Counter { visits: 0, limit };
        match self.rule {
            Rule::LaRwEq => la_rw_eq(book, literals, 0),
            Rule::LaDisequality => la_disequality(book, literals, 0),
            Rule::LaTotality => la_totality(book, literals, 0),
            Rule::LaTautology => la_tautology(book, work, literals, counter),
            Rule::LaGeneric => la_generic(book, work, literals, others, counter),
            Rule::BoundedFarkas => bounded_farkas(book, work, literals, others, counter),
            Rule::PolySimp => poly_simp(book, work, literals, counter),
            // the file has no assumed steps
            Rule::Assume | Rule::PolySimpRel => {
                let n = premises(others);
                poly_simp_rel(book, literals, n, rest(others, n), 0)
            }
        }
    }

    // Whether a step gets a verdict under a limit.
    fn answers(self, work: &mut [u8], limit: u32, expected: Answer) -> bool
        requires { StepReady self.book.now work.old self.literals.now }
        ensures { work.new ≡ work.old }
    {
        self.check(work, limit).map_err(refusal_number) == expected
    }

    // Whether a step is accepted under a limit of so many visits, and under no less.
    fn keeps(self, work: &mut [u8], visits: u32) -> bool
        requires ready { StepReady self.book.now work.old self.literals.now }
        requires some { 1 ≤ visits }
        ensures { work.new ≡ work.old }
    {
        self.answers(work, visits, Ok(visits))
            && self.answers(work, visits - 1, Err(refusal_number(Refusal::VisitLimit)))
    }

    // Whether a step gets the verdict and the visits of the file and, where it makes some visits, keeps to a limit of
    // them.
    fn agrees(self, work: &mut [u8]) -> bool
        requires { StepReady self.book.now work.old self.literals.now }
        ensures { work.new ≡ work.old }
    {
        if !self.answers(work, LIMIT, self.expected) {
            return false;
        }
        match self.expected {
            Ok(0) | Err(_) => true,
            Ok(visits) => self.keeps(work, visits),
        }
    }

    // ---- its inferred numbers

    // Whether the arguments of a step are numbers, and those that it infers, each taken as it is found, are those of
    // the file.
    fn infers(self, work: &mut [u8]) -> bool
        requires { StepReady self.book.now work.old self.literals.now }
    {
        let book = self.book;
        let literals = self.literals;
        let args = self.others;
        let Ok(()) = read_args(book, args) else {
            return false;
        };
        let mut p = Progress {
            operator: EQUALS,
            acc: LinearComb::new(),
            visits: 0,
        };
        let mut done = 0;
        let mut left = self.numbers;
        loop {
            let clause = rest(literals, done);
            let Ok(folded) = fold_literals(book, work, clause, rest(args, done), p, LIMIT) else {
                return false;
            };
            match folded {
                Folded::Done(_) => return left.len() < NUMBER_BYTES,
                Folded::Inferred(q, a, n) => {
                    let Some((number, more)) = left.split_at_checked(NUMBER_BYTES) else {
                        return false;
                    };
                    if !a.eq(Number::read(number, 0)) {
                        return false;
                    }
                    p = q;
                    done += n;
                    left = more;
                }
            }
        }
    }

    // Only an accepted step of `la_generic` or `bounded_farkas` infers numbers.
    fn may_infer(self) -> bool {
        matches!(self.rule, Rule::LaGeneric | Rule::BoundedFarkas) && self.expected.is_ok()
    }

    // ---- all of it

    // Whether all of a step is as in the file.
    pub(crate) fn is_same(self, work: &mut [u8]) -> bool
        requires { Ready self.book.now work.old }
    {
        if MOST_LITERALS < self.literals.len()
            || !inside(self.book, self.literals)
            || !self.agrees(work)
        {
            return false;
        }
        if self.may_infer() {
            self.infers(work)
        } else {
            self.numbers.is_empty()
        }
    }
}
