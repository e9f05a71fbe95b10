// Replays the steps of the file `cases` (tools/step_cases.py makes it and says what it holds) and compares each answer
// with the Rust's: the verdict, and of an accepted step its visits and the numbers that it infers. An accepted step of
// v visits is tried again under the limit v, which it keeps, and under v - 1, which it does not.
#![tactic(auto)]

mod step;

ghost use Rattle.std.specs.Prelude.{◌≡◌, ◌≤◌, ◌<◌, ◌*◌, IfOk};

use programs::cases::{
    Outcome, broken, count_agreeing, open_cases, print_total, read_count, read_piece, read_record,
};
use runs::prepare::prepare;
use runs::rule::{Rule, rule_of};
use std::io;
use std::io::Read;
use step::{Answer, NUMBER_BYTES, Step};
use terms::areas::WORK_BYTES;
use terms::format::{MAX_RECORDS, RECORD_BYTES, RUN_RECORD_BYTES};

// The bytes in front of a step, and the most of its records and inferred numbers.
const HEAD: usize = 7;

const STEP: usize = 4096;

// The largest book.
const BOOK: usize = RECORD_BYTES * MAX_RECORDS;

// ---- a step

// What stands in front of a step: the rule, the verdict and the visits, and how many of each piece stand behind it,
// which are its literals, its other records and its inferred numbers.
#[derive(Clone, Copy)]
struct Head {
    rule: u8,
    verdict: u8,
    visits: u32,
    literals: u8,
    others: u8,
    numbers: u8,
}

impl From<[u8; HEAD]> for Head {
    fn from(head: [u8; HEAD]) -> Head {
        let [rule, verdict, v0, v1, literals, others, numbers] = head;
        Head {
            rule,
            verdict,
            visits: u32::from(u16::from_le_bytes([v0, v1])),
            literals,
            others,
            numbers,
        }
    }
}

impl Head {
    fn literal_bytes(self) -> usize
        ensures { result ≡ 4 * self.literals }
    {
        RUN_RECORD_BYTES * usize::from(self.literals)
    }

    fn other_bytes(self) -> usize
        ensures { result ≡ 4 * self.others }
    {
        RUN_RECORD_BYTES * usize::from(self.others)
    }

    // The bytes of all pieces.
    fn bytes(self) -> usize {
        self.literal_bytes() + self.other_bytes() + NUMBER_BYTES * usize::from(self.numbers)
    }

    fn expected(self) -> Answer {
        if self.verdict == 0 {
            Ok(self.visits)
        } else {
            Err(self.verdict)
        }
    }

    // The step of these pieces over a book.
    fn cut<'a>(self, book: &'a [u8], pieces: &'a [u8]) -> Option<Step<'a>> {
        let (literals, rest) = pieces.split_at_checked(self.literal_bytes())?;
        let (others, numbers) = rest.split_at_checked(self.other_bytes())?;
        Some(Step {
            book,
            // a number that is no rule's is tried as the last rule
            rule: rule_of(self.rule).unwrap_or(Rule::PolySimpRel),
            literals,
            others,
            numbers,
            expected: self.expected(),
        })
    }
}

// The book is read anew for each step.
fn try_step(rt: &impl Print, h: Head, step: Step) -> io::Result<Outcome> {
    let mut work = [0u8; WORK_BYTES];
    let Ok(_) = prepare(step.book, &mut work) else {
        return broken(rt);
    };
    let same = step.is_same(&mut work);
    if !same {
        println!(rt;
            "a step of rule {} with verdict {} differs",
            h.rule, h.verdict
        )?;
    }
    Ok(Outcome::from(same))
}

// The next step of a book.
fn next_step(rt: &impl Print, file: &mut impl Read, book: &[u8]) -> io::Result<Outcome> {
    let mut head = [0u8; HEAD];
    if read_piece(file, HEAD, &mut head)?.is_none() {
        return broken(rt);
    }
    let h = Head::from(head);
    let mut space = [0u8; STEP];
    let Some(pieces) = read_piece(file, h.bytes(), &mut space)? else {
        return broken(rt);
    };
    match h.cut(book, pieces) {
        Some(step) => try_step(rt, h, step),
        None => broken(rt),
    }
}

// ---- a book

// Whether the file has as many records as the book has room for.
fn read_records(file: &mut impl Read, book: &mut [u8]) -> io::Result<bool> {
    for record in book.chunks_exact_mut(RECORD_BYTES) {
        if read_record(file, record)?.is_none() {
            return Ok(false);
        }
    }
    Ok(true)
}

// How many steps of the next book agree, which has n records.
fn try_book(rt: &impl Print, file: &mut impl Read, n: usize) -> io::Result<u64>
    requires { n ≤ 2048 }
    ensures { IfOk result (λ agree. agree < 65536) }
{
    let mut book = [0u8; BOOK];
    let book = &mut book[..RECORD_BYTES * n];
    if !read_records(file, book)? {
        return Ok(0);
    }
    let Some(m) = read_count(file)? else {
        broken(rt)?;
        return Ok(0);
    };
    count_agreeing(u64::from(m), |_| next_step(rt, file, book))
}

// There are fewer than 65,536 books.
fn main(rt: HostRuntime) -> io::Result<()> {
    let Ok(mut file) = open_cases(&rt) else {
        return Ok(());
    };
    let mut agree = 0;
    for _ in 0..65536u64 {
        match read_count(&mut file)? {
            Some(n) if usize::from(n) <= MAX_RECORDS => {
                agree += try_book(&rt, &mut file, usize::from(n))?;
            }
            _ => break,
        }
    }
    print_total(&rt, agree, b" steps agree\n")
}
