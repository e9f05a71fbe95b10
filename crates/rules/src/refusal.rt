// Why a rule refuses a step. Refusals of what is lent are another type, of the layer above: so no rule gives them.
ghost use Rattle.std.specs.Prelude.{◌≡◌};
ghost use Rattle.rules.specs.Refusal.{number, of_reading};

use terms::term::NotRead;

// By document 01's numbers. From 20 on the names are those of the Rust's errors.
#[derive(Clone, Copy, Debug, PartialEq, Eq)]
pub enum Refusal {
    // A limit that document 01 adds to the Rust.
    VisitLimit = 10,
    NumberRange = 11,
    PolynomialSize = 12,
    WrongNumberOfArgs = 20,
    WrongNumberOfPremises = 21,
    WrongLengthOfClause = 22,
    WrongLengthOfPremiseClause = 23,
    TermOfWrongForm = 24,
    ExpectedAnyNumber = 25,
    InvalidDisequalityOp = 26,
    TooManyArgsInDisequality = 27,
    // The disequality has not exactly one atom, or the Rust would divide by zero.
    NotUnit = 28,
    CoeffNotFound = 29,
    DisequalityIsNotContradiction = 30,
    NotValidTautologyCase = 31,
    DisequalityIsNotTautology = 32,
    ExpectedEqual = 33,
    ExpectedLessThan = 34,
    ExpectedLessEq = 35,
    PolynomialsNotEqual = 36,
    CoeffIsZero = 37,
    CoeffDifferentSignums = 38,
    CoeffEven = 39,
    InvalidOperators = 40,
    ExpectedBitvector = 41,
    ExpectedOperationTerm = 42,
}

// Document 01's number of a refusal.
pub fn refusal_number(r: Refusal) -> u8
    ensures { result ≡ number r }
{
    r as u8
}

// What is refused where a number is asked for and none is read.
impl From<NotRead> for Refusal {
    ghost from_gives = { λ x r. r ≡ of_reading x };

    fn from(x: NotRead) -> Refusal {
        match x {
            NotRead::NotNumber => Refusal::ExpectedAnyNumber,
            NotRead::OutOfRange => Refusal::NumberRange,
        }
    }
}
