// Replays the runs of the file `cases` (tools/run_cases.py makes it and says what it holds): each is marked,
// elaborated, and its elaboration is marked again, in memory full of other bytes. Every answer, and every byte that is
// left, is compared with what the file says.
#![tactic(auto)]

mod run;

use numbers::bytes::read_u32;
use programs::areas::area;
use programs::cases::{Outcome, broken, count_agreeing, open_cases, print_total, read_piece};
use run::{Case, MOST, SOIL, Told};
use std::io;
use std::io::Read;

// The bytes in front of a case.
const HEAD: usize = 48;

// ---- the head of a case

// What the file says of a run.
fn told_of(head: &[u8]) -> Told {
    Told {
        limit: read_u32(head, 8),
        work: read_u32(head, 12) as usize,
        outrun: read_u32(head, 16) as usize,
        outtail: read_u32(head, 20) as usize,
        verdict: read_u32(head, 24),
        steps: read_u32(head, 28) as usize,
        visits: read_u32(head, 32),
        again: read_u32(head, 36) == 1,
    }
}

// The bytes of the pieces of a case: book, run, out run and out tail, one behind the other.
#[derive(Clone, Copy)]
struct Sizes {
    book: u32,
    run: u32,
    outrun: u32,
    outtail: u32,
}

impl Sizes {
    fn of(head: &[u8]) -> Sizes {
        Sizes {
            book: read_u32(head, 0),
            run: read_u32(head, 4),
            outrun: read_u32(head, 40),
            outtail: read_u32(head, 44),
        }
    }

    fn sum(self) -> usize {
        self.book as usize + self.run as usize + self.outrun as usize + self.outtail as usize
    }

    // The case of pieces of these sizes.
    fn cut(self, pieces: &[u8], told: Told) -> Option<Case<'_>> {
        let (book, rest) = pieces.split_at_checked(self.book as usize)?;
        let (run, rest) = rest.split_at_checked(self.run as usize)?;
        let (outrun, outtail) = rest.split_at_checked(self.outrun as usize)?;
        Some(Case {
            book,
            run,
            told,
            outrun,
            outtail,
        })
    }
}

// ---- a case

fn try_next(rt: &impl Print, file: &mut impl Read) -> io::Result<Outcome> {
    let mut head = [0u8; HEAD];
    let Some(head) = read_piece(file, HEAD, &mut head)? else {
        return broken(rt);
    };
    let sizes = Sizes::of(head);
    let mut pieces: [u8; MOST] = area(SOIL);
    let Some(pieces) = read_piece(file, sizes.sum(), &mut pieces)? else {
        return broken(rt);
    };
    match sizes.cut(pieces, told_of(head)) {
        Some(case) => Ok(Outcome::from(case.is_same())),
        None => broken(rt),
    }
}

// Case k; says so where it differs.
fn try_case(rt: &impl Print, file: &mut impl Read, k: u64) -> io::Result<Outcome> {
    let outcome = try_next(rt, file)?;
    if let Outcome::Differs = outcome {
        println!(rt; "run {k} differs")?;
    }
    Ok(outcome)
}

// The file begins with the number of its cases.
fn main(rt: HostRuntime) -> io::Result<()> {
    let Ok(mut file) = open_cases(&rt) else {
        return Ok(());
    };
    let mut n = [0u8; 4];
    let _ = read_piece(&mut file, 4, &mut n)?;
    let n = u64::from(u32::from_le_bytes(n));
    let good = count_agreeing(n, |k| try_case(&rt, &mut file, k))?;
    print!(rt; "{good} of ")?;
    print_total(&rt, n, b" runs agree\n")
}
