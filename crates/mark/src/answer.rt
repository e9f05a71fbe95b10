// A run marked over a book: the answer in lines, and what is said of a refusal.
use listing::answer::{Answer, print_numbers};
use listing::format::Lent;
use listing::refusals::print_refusal;
use marking::check::check;
use programs::printing::print;
use runs::verdict::Verdict;
use std::io;
use terms::areas::WORK_BYTES;

// The numbers of the answer, and what a refusal or an empty run asks for.
pub(crate) fn print_answer(rt: &impl Print, lent: Lent, a: Answer) -> io::Result<()> {
    print_numbers(rt, lent.run, a)?;
    if a.verdict != Verdict::AllAccepted {
        print_refusal(rt, lent, a)?;
    } else if a.steps == 0 {
        print(rt, b"no steps: the run is empty, and nothing was marked\n")?;
    }
    Ok(())
}

// Marks with the trace off.
pub(crate) fn mark(rt: &impl Print, lent: Lent, limit: u32) -> io::Result<()> {
    let mut work = [0u8; WORK_BYTES];
    let m = check(lent.book, lent.run, limit, &mut work);
    let a = Answer {
        verdict: m.verdict,
        steps: m.steps,
        visits: m.visits,
    };
    print_answer(rt, lent, a)
}
