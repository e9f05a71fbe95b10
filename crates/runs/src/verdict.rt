// The verdict of a run. Refusals of what is lent (1 to 8) stand apart from a rule's refusals of one step (10 to 42), so
// that no rule gives 1 to 8.
ghost use Rattle.std.specs.Prelude.{◌≡◌};
ghost use Rattle.runs.specs.Verdict.{lent_number, verdict_number};
ghost use Rattle.runs.specs.declared.verdict.LentRefusal.TheVariants.{OfBook};

use rules::refusal::{Refusal, refusal_number};
use terms::reading::{BookError, BookRefusal, book_number};

// Of the work area or the limit, of the book, of the run, of the out areas.
#[derive(Clone, Copy, Debug, PartialEq, Eq)]
pub enum LentRefusal {
    WorkAreaOrLimit,
    OfBook(BookRefusal),
    RunSize,
    RunRecord,
    NoRoom,
}

#[derive(Clone, Copy, Debug, PartialEq, Eq)]
pub enum Verdict {
    // No step is refused.
    AllAccepted,
    Lent(LentRefusal),
    // A step is refused, and no later one is checked.
    Stopped(Refusal),
}

// Document 01's number of a refusal.
pub fn lent_number(r: LentRefusal) -> u8
    ensures { result ≡ lent_number r }
{
    match r {
        LentRefusal::WorkAreaOrLimit => 1,
        LentRefusal::OfBook(c) => book_number(c),
        LentRefusal::RunSize => 6,
        LentRefusal::RunRecord => 7,
        LentRefusal::NoRoom => 8,
    }
}

// Document 01's number of a verdict.
pub fn verdict_number(v: Verdict) -> u8
    ensures { result ≡ verdict_number v }
{
    match v {
        Verdict::AllAccepted => 0,
        Verdict::Lent(r) => lent_number(r),
        Verdict::Stopped(r) => refusal_number(r),
    }
}

impl From<BookError> for LentRefusal {
    ghost from_gives = { λ e r. r ≡ OfBook e.refusal };

    fn from(e: BookError) -> LentRefusal {
        LentRefusal::OfBook(e.refusal)
    }
}
