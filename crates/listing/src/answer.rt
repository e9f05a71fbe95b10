// The numbers of an answer, a line for each.
ghost use Rattle.std.specs.Prelude.{◌≤◌};

use crate::format::{assumes, opens};
use runs::verdict::{Verdict, verdict_number};
use std::io;
use terms::format::RUN_RECORD_BYTES;

// The verdict, how many steps were accepted, and their visits.
#[derive(Clone, Copy)]
pub struct Answer {
    pub verdict: Verdict,
    pub steps: usize,
    pub visits: u32,
}

// How many of the first steps of a run are assumed.
fn assumed(run: &[u8], steps: usize) -> usize
    ensures { result ≤ steps }
{
    run.chunks_exact(RUN_RECORD_BYTES)
        .filter(|r| opens(r))
        .take(steps)
        .filter(|r| assumes(r))
        .count()
}

// The verdict, the accepted steps, the visits, and how many of the accepted steps are assumed.
pub fn print_numbers(rt: &impl Print, run: &[u8], a: Answer) -> io::Result<()> {
    println!(rt; "verdict {}", verdict_number(a.verdict))?;
    println!(rt; "accepted steps {}", a.steps)?;
    println!(rt; "visits {}", a.visits)?;
    println!(rt; "assumed steps {}", assumed(run, a.steps))
}
