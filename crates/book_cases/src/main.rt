// Reads the books of the file `cases` (tools/book_cases.py makes it) and compares what reading each of them finds with
// what document 01 says. A case is 7 bytes, little-endian, and the book's last bytes:
//     0-1 how many records come first that the file leaves out: atoms of sort Int, named 0, 1, 2 and so on
//     2-3 how many bytes of the book follow
//     4 document 01's number of the refusal, or 0
//     5-6 the record that is refused, or the number of records
#![tactic(auto)]

use book::book::read_book;
use numbers::bytes::write_u32;
use programs::cases::{Outcome, broken, count_agreeing, open_cases, print_total};
use programs::files::read_file;
use std::io::Read;
use std::{fmt, io};
use terms::format::{MAX_RECORDS, RECORD_BYTES};
use terms::reading::{BookError, book_number};

// The bytes in front of a case.
const HEAD: usize = 7;

// Two records more than the most.
const MOST: usize = MAX_RECORDS + 2;

const MOST_BYTES: usize = RECORD_BYTES * MOST;

// ---- an answer

// Document 01's number of the refusal and the record that is refused; or 0 and the number of records: as in
// the file.
#[derive(Clone, Copy, PartialEq, Eq)]
struct Answer {
    refusal: u8,
    at: usize,
}

impl From<Result<usize, BookError>> for Answer {
    fn from(read: Result<usize, BookError>) -> Answer {
        match read {
            Ok(at) => Answer { refusal: 0, at },
            Err(BookError { refusal, at }) => Answer {
                refusal: book_number(refusal),
                at,
            },
        }
    }
}

impl fmt::Display for Answer {
    fn fmt<W: fmt::Write>(&self, f: &mut fmt::Formatter<W>) -> fmt::Result {
        write!(f, "{} at {}", self.refusal, self.at)
    }
}

// ---- a case

#[derive(Clone, Copy)]
struct Case {
    // How many atoms come first, and how many bytes follow.
    atoms: u16,
    bytes: u16,
    expected: Answer,
}

impl From<[u8; HEAD]> for Case {
    fn from(head: [u8; HEAD]) -> Case {
        let [a0, a1, b0, b1, refusal, r0, r1] = head;
        Case {
            atoms: u16::from_le_bytes([a0, a1]),
            bytes: u16::from_le_bytes([b0, b1]),
            expected: Answer {
                refusal,
                at: usize::from(u16::from_le_bytes([r0, r1])),
            },
        }
    }
}

// What is expected of case i beside what is found.
fn compare(rt: &impl Print, i: u64, expected: Answer, found: Answer) -> io::Result<Outcome> {
    if found == expected {
        return Ok(Outcome::Agrees);
    }
    println!(rt; "case {i}: expected {expected}, found {found}")?;
    Ok(Outcome::Differs)
}

fn try_book(rt: &impl Print, i: u64, book: &[u8], expected: Answer) -> io::Result<Outcome> {
    let mut work = [0u8; 8192];
    let found = Answer::from(read_book(book, &mut work));
    compare(rt, i, expected, found)
}

// Atoms of sort Int in the whole records of a book.
fn put_atoms(book: &mut [u8]) {
    for (k, record) in (0..MOST as u32).zip(book.chunks_exact_mut(RECORD_BYTES)) {
        // kind 4, sort 2
        write_u32(record, 0, 33554436);
        write_u32(record, 4, k);
    }
}

// Case i, in room for its book.
fn try_case(
    rt: &impl Print,
    file: &mut impl Read,
    i: u64,
    case: Case,
    room: &mut [u8],
) -> io::Result<Outcome> {
    let front = RECORD_BYTES * usize::from(case.atoms);
    let rest = usize::from(case.bytes);
    if MOST_BYTES < front {
        return broken(rt);
    }
    let Some(book) = room.get_mut(..front + rest) else {
        return broken(rt);
    };
    put_atoms(&mut book[..front]);
    if read_file(file, &mut book[front..])? < rest {
        return broken(rt);
    }
    try_book(rt, i, book, case.expected)
}

fn next_case(rt: &impl Print, file: &mut impl Read, i: u64) -> io::Result<Outcome> {
    let mut head = [0u8; HEAD];
    let mut room = [0u8; MOST_BYTES];
    match read_file(file, &mut head)? {
        0 => Ok(Outcome::End),
        HEAD => try_case(rt, file, i, Case::from(head), &mut room),
        _ => broken(rt),
    }
}

// The cases are numbered from 0, and there are fewer than 65,536.
fn main(rt: HostRuntime) -> io::Result<()> {
    let Ok(mut file) = open_cases(&rt) else {
        return Ok(());
    };
    let agree = count_agreeing(65536, |i| next_case(&rt, &mut file, i))?;
    print_total(&rt, agree, b" cases agree\n")
}
