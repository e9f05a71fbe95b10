// Marking (document 01's word for checking) a run with the trace off: the steps are checked in turn up to the first
// that is refused. Refusals 1 to 7 come first, in document 01's order.
ghost use Rattle.std.specs.Prelude.{◌≡◌, true, false, [], ◌+◌, ◌<◌, ◌^◌, length};
ghost use Rattle.std.specs.Prelude.{Some, None};
ghost use Rattle.numbers.specs.Bytes.{Bytes};
ghost use Rattle.std.specs.Prelude.{Ok};
ghost use Rattle.rules.specs.Limits.{limited};
ghost use Rattle.rules.specs.Memory.Parts.{Ready};
ghost use Rattle.runs.specs.Run.{read_run, steps_of};
ghost use Rattle.steps.specs.CheckStep.{counter};
ghost use Rattle.marking.specs.Check.{state, check_steps, check};
ghost use Rattle.marking.specs.Answers.{marked_of};
ghost use Rattle.marking.specs.CheckEntry.{CheckDone};
ghost use Rattle.marking.specs.Memory.Lent.{state_of, Underway, Turns};
ghost use Rattle.marking.specs.Memory.Lent.{open_work, Opens};

use numbers::bytes::clear_from;
use rules::counter::Counter;
use runs::prepare::prepare;
use runs::run::{parts, read_run};
use runs::verdict::{LentRefusal, Verdict};
use steps::check_step::check_step;
use terms::areas::WORK_BYTES;

// The answer: the verdict, how many steps were accepted, and their visits.
#[derive(Clone, Copy, Debug, PartialEq, Eq)]
pub struct Marked {
    pub verdict: Verdict,
    pub steps: usize,
    pub visits: u32,
}

// A marking under way: the byte at which the next step begins, the accepted steps, the visits; the verdict once it has
// ended.
#[derive(Clone, Copy, Debug, PartialEq, Eq)]
pub struct State {
    pub at: usize,
    pub steps: usize,
    pub counter: Counter,
    pub verdict: Option<Verdict>,
}

// The least limit of visits, and the greatest.
pub const MIN_LIMIT: u32 = 1;

pub const MAX_LIMIT: u32 = 1000000;

// ---- the steps in turn

// The state before the first step.
pub fn start(limit: u32) -> State
    ensures { (run : Bytes) → result ≡ state_of run limit (state [] (counter (limited limit) 0) None) }
{
    State {
        at: 0,
        steps: 0,
        counter: Counter { visits: 0, limit },
        verdict: None,
    }
}

// The marking is over.
pub fn ended(s: State, verdict: Verdict) -> State
    ensures { result ≡ record s { verdict = Some verdict } }
{
    State {
        verdict: Some(verdict),
        ..s
    }
}

// A step of so many bytes is accepted.
pub fn advanced(s: State, bytes: usize, visits: u32) -> State
    requires { (s.at + bytes < 2 ^ 64) × (s.steps + 1 < 2 ^ 64) }
    ensures { result ≡ record {
      at = s.at + bytes;
      steps = s.steps + 1;
      counter = record { visits = visits; limit = s.counter.limit };
      verdict = None;
    } }
{
    State {
        at: s.at + bytes,
        steps: s.steps + 1,
        counter: Counter {
            visits,
            ..s.counter
        },
        verdict: None,
    }
}

// Checks the next step, if the marking has not ended.
pub fn turn(book: &[u8], run: &[u8], work: &mut [u8], s: State) -> State
    requires ready { Ready book.now work.old × (read_run book.now run.now ≡ Ok (steps_of book.now run.now)) }
    requires underway { Underway book.now run.now s }
    ensures turns { Turns book.now run.now s result }
    ensures work_unchanged { work.new ≡ work.old }
{
    if s.verdict.is_some() {
        return s;
    }
    if run.len() <= s.at {
        return ended(s, Verdict::AllAccepted);
    }
    let step = &run[s.at..];
    let p = parts(step);
    match check_step(book, work, run, step, p, s.counter) {
        Ok(visits) => advanced(s, p.args, visits),
        Err(r) => ended(s, Verdict::Stopped(r)),
    }
}

// Turns up to the end.
fn check_steps(book: &[u8], run: &[u8], limit: u32, work: &mut [u8]) -> Marked
    requires { Ready book.now work.old × (read_run book.now run.now ≡ Ok (steps_of book.now run.now)) }
    ensures value { result ≡ marked_of (check_steps (limited limit) (steps_of book.now run.now)) }
    ensures work_unchanged { work.new ≡ work.old }
{
    let mut s = start(limit);
    loop {
        if let Some(verdict) = s.verdict {
            return Marked {
                verdict,
                steps: s.steps,
                visits: s.counter.visits,
            };
        }
        s = turn(book, run, work, s);
    }
}

// ---- before the first step, and after the last

// Refusals 1 to 7; where nothing is refused, the work area is ready for the first step.
pub fn open(book: &[u8], run: &[u8], limit: u32, work: &mut [u8]) -> Result<(), LentRefusal>
    ensures { Opens book.now run.now limit work.old work.new result }
{
    if work.len() != WORK_BYTES || limit < MIN_LIMIT || MAX_LIMIT < limit {
        return Err(LentRefusal::WorkAreaOrLimit);
    }
    prepare(book, work)?;
    read_run(book, work, run)
}

// All of `check` but for the clearing of the work area.
fn check_run(book: &[u8], run: &[u8], limit: u32, work: &mut [u8]) -> Marked
    ensures value { result ≡ marked_of (check book.now run.now limit (length work.old)) }
    ensures work_after { work.new ≡ open_work book.now limit work.old }
{
    match open(book, run, limit, work) {
        Ok(()) => check_steps(book, run, limit, work),
        Err(r) => Marked {
            verdict: Verdict::Lent(r),
            steps: 0,
            visits: 0,
        },
    }
}

// Marks a run over a book, under a limit of visits. The work area, whatever its length, is zeros afterwards.
pub fn check(book: &[u8], run: &[u8], limit: u32, work: &mut [u8]) -> Marked
    ensures { CheckDone book.now run.now limit work.old book.now
        run.now work.new result }
{
    let m = check_run(book, run, limit, work);
    clear_from(work, 0);
    m
}
