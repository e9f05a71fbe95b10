// The steps of a run, listed.
use listing::answer::Answer;
use listing::format::{Lent, Terms};
use listing::refusals::print_refusal;
use listing::steps::print_steps;
use marking::check::{MAX_LIMIT, open};
use programs::printing::print;
use runs::verdict::Verdict;
use std::io;
use terms::areas::WORK_BYTES;

// Lists the steps of a run, or says why the book or the run is refused.
pub(crate) fn list_run(rt: &impl Print, lent: Lent) -> io::Result<()> {
    let mut work = [0u8; WORK_BYTES];
    if let Err(r) = open(lent.book, lent.run, MAX_LIMIT, &mut work) {
        let a = Answer {
            verdict: Verdict::Lent(r),
            steps: 0,
            visits: 0,
        };
        print(rt, b"refused: ")?;
        return print_refusal(rt, lent, a);
    }
    if lent.run.is_empty() {
        return print(rt, b"no steps: the run is empty\n");
    }
    let terms = Terms {
        book: lent.book,
        sorts: &work,
    };
    print_steps(rt, terms, lent.run)
}
