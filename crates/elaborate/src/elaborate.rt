// Marking a run with the trace on, and its elaboration.
ghost use Rattle.std.specs.Prelude.{◌≡◌, false, length};
ghost use Rattle.numbers.specs.Bytes.{Bytes};
ghost use Rattle.std.specs.Prelude.{Ok};
ghost use Rattle.rules.specs.Limits.{limited};
ghost use Rattle.rules.specs.Memory.Parts.{Ready};
ghost use Rattle.runs.specs.Run.{read_run, steps_of};
ghost use Rattle.marking.specs.Check.{Marking, check_steps, check};
ghost use Rattle.elaborate.specs.Elaborate.{elaborated};
ghost use Rattle.marking.specs.Memory.Lent.{open_work, Underway};
ghost use Rattle.elaborate.specs.Memory.OutMemory.{TurnsWritten, Elaborates, Closes};
ghost use Rattle.elaborate.specs.LentMemory.{lent};
ghost use Rattle.elaborate.specs.ElaborateEntry.{ElaborateDone, WrittenDone};

use farkas::farkas::elaborate_step;
use marking::check::{State, advanced, ended, open, start};
use numbers::bytes::clear_from;
use out_areas::out_areas::Out;
use runs::run::parts;
use runs::verdict::{LentRefusal, Verdict};
use terms::format::RUN_RECORD_BYTES;

// A marking under way, and what of its elaboration is written.
#[derive(Clone, Copy)]
pub(crate) struct Elaborating {
    pub state: State,
    pub out: Out,
}

// The answer: the verdict, how many steps were accepted, their visits, the bytes written to each out area.
#[derive(Clone, Copy, Debug, PartialEq, Eq)]
pub struct Elaborated {
    pub verdict: Verdict,
    pub steps: usize,
    pub visits: u32,
    pub run: usize,
    pub tail: usize,
}

// ---- the steps in turn

// Nothing is written yet.
fn nothing() -> Out
    ensures { result ≡ record { run = 0; tail = 0; full = false } }
{
    Out {
        run: 0,
        tail: 0,
        full: false,
    }
}

// Checks the next step, if the marking has not ended, and writes it where it is accepted.
pub(crate) fn turn(
    book: &[u8],
    run: &[u8],
    work: &mut [u8],
    outrun: &mut [u8],
    outtail: &mut [u8],
    e: Elaborating,
) -> Elaborating
    requires ready { Ready book.now work.old × (read_run book.now run.now ≡ Ok (steps_of book.now run.now)) }
    requires underway { Underway book.now run.now e.state }
    ensures turns_written { TurnsWritten book.now run.now outrun.old outtail.old
        outrun.new outtail.new e result }
    ensures work_unchanged { work.new ≡ work.old }
{
    let s = e.state;
    if s.verdict.is_some() {
        return e;
    }
    if run.len() <= s.at {
        return Elaborating {
            state: ended(s, Verdict::AllAccepted),
            ..e
        };
    }
    let step = &run[s.at..];
    let p = parts(step);
    match elaborate_step(book, work, run, step, p, s.counter, outrun, outtail, e.out) {
        Ok((visits, out)) => Elaborating {
            state: advanced(s, p.args, visits),
            out,
        },
        Err(r) => Elaborating {
            state: ended(s, Verdict::Stopped(r)),
            ..e
        },
    }
}

// Turns up to the end.
fn elaborate_steps(
    book: &[u8],
    run: &[u8],
    limit: u32,
    work: &mut [u8],
    outrun: &mut [u8],
    outtail: &mut [u8],
) -> Elaborating
    requires { Ready book.now work.old × (read_run book.now run.now ≡ Ok (steps_of book.now run.now)) }
    ensures elaborates { Elaborates book.now outrun.new outtail.new result
        (check_steps (limited limit) (steps_of book.now run.now)) }
    ensures work_unchanged { work.new ≡ work.old }
{
    let mut e = Elaborating {
        state: start(limit),
        out: nothing(),
    };
    loop {
        if e.state.verdict.is_some() {
            return e;
        }
        e = turn(book, run, work, outrun, outtail, e);
    }
}

// All of `elaborate` but for the clearing of the areas.
fn elaborate_run(
    book: &[u8],
    run: &[u8],
    limit: u32,
    work: &mut [u8],
    outrun: &mut [u8],
    outtail: &mut [u8],
) -> Elaborating
    ensures elaborates { Elaborates book.now outrun.new outtail.new result
        (check book.now run.now limit (length work.old)) }
    ensures work_after { work.new ≡ open_work book.now limit work.old }
{
    match open(book, run, limit, work) {
        Ok(()) => elaborate_steps(book, run, limit, work, outrun, outtail),
        Err(r) => Elaborating {
            state: ended(start(limit), Verdict::Lent(r)),
            out: nothing(),
        },
    }
}

// ---- the answer

// Clears what lies behind the elaboration; refusal 8 where it is above an out area, 2,048 terms or 4,096 records.
fn close(outrun: &mut [u8], outtail: &mut [u8], e: Elaborating) -> Elaborated
    ensures { (b : Bytes) (m : Marking) → Elaborates b outrun.old outtail.old e m →
        Closes result outrun.old outtail.old outrun.new outtail.new
        (elaborated b (length outrun.old) (length outtail.old) m) }
{
    let steps = e.state.steps;
    let visits = e.state.counter.visits;
    if e.out.full {
        clear_from(outrun, 0);
        clear_from(outtail, 0);
        return Elaborated {
            verdict: Verdict::Lent(LentRefusal::NoRoom),
            steps,
            visits,
            run: 0,
            tail: 0,
        };
    }
    clear_from(outrun, e.out.run);
    clear_from(outtail, e.out.tail);
    Elaborated {
        verdict: e.state.verdict.unwrap_or(Verdict::AllAccepted),
        steps,
        visits,
        run: e.out.run,
        tail: e.out.tail,
    }
}

// Marks a run over a book, under a limit of visits, and writes the elaboration of its accepted steps: their run to the
// one out area, the records that the book lacks to the other. The work area is zeros afterwards, and so is what is not
// written of the out areas.
pub fn elaborate(
    book: &[u8],
    run: &[u8],
    limit: u32,
    work: &mut [u8],
    outrun: &mut [u8],
    outtail: &mut [u8],
) -> Elaborated
    ensures { ElaborateDone (lent book.now run.now work.old
        outrun.old outtail.old) limit
        (lent book.now run.now work.new outrun.new outtail.new) result }
{
    let e = elaborate_run(book, run, limit, work, outrun, outtail);
    clear_from(work, 0);
    close(outrun, outtail, e)
}

// The written part of the out run, given its byte count; the empty part where that is above the area or not a multiple
// of 4.
pub fn written(outrun: &[u8], bytes: usize) -> &[u8]
    ensures { WrittenDone outrun.now bytes outrun.now result.now }
{
    if bytes % RUN_RECORD_BYTES == 0 {
        outrun.get(..bytes).unwrap_or(&[])
    } else {
        &[]
    }
}
