// The checker for programs in C and Rust: the entry points of layer 3 under plain names, with numbers and byte slices
// alone. A slice is a pointer and a length. Each function takes any bytes, any lengths and any limit; the slices of one
// call must not overlap.
//
// The answer is the verdict; the other numbers, four bytes each with the lowest first, are put into a slice that the
// caller lends. A slice that is too short for them takes as many bytes as it has, a longer one gets zeros behind them.
#![tactic(auto)]

ghost use Rattle.std.specs.Prelude.{◌≡◌, [], ◌∷◌, length};
ghost use Rattle.elaborate.specs.LentMemory.{lent};
ghost use Rattle.yirtabun.specs.Answers.{number_bytes, shown, CheckShown, ElaborateShown, WrittenShown};

use elaborate::elaborate::{elaborate, written};
use marking::check::check;
use numbers::bytes::write_u32;
use runs::verdict::verdict_number;

// Puts as many bytes of a text as it takes into a slice, and zeros behind them.
fn show(text: &[u8], answer: &mut [u8])
    ensures { answer.new ≡ shown (length answer.old) text.now }
{
    let n = text.len().min(answer.len());
    answer[..n].copy_from_slice(&text[..n]);
    answer[n..].fill(0);
}

// Puts the numbers of a marking into a slice: 12 bytes.
fn show_marked(verdict: u32, steps: u32, visits: u32, answer: &mut [u8])
    ensures { answer.new ≡ shown (length answer.old) (number_bytes (verdict ∷ steps ∷ visits
        ∷ [])) }
{
    let mut text = [0u8; 12];
    write_u32(&mut text, 0, verdict);
    write_u32(&mut text, 4, steps);
    write_u32(&mut text, 8, visits);
    show(&text, answer);
}

// Puts the numbers of an elaboration into a slice: 20 bytes.
fn show_elaborated(verdict: u32, steps: u32, visits: u32, run: u32, tail: u32, answer: &mut [u8])
    ensures { answer.new ≡ shown (length answer.old)
        (number_bytes (verdict ∷ steps ∷ visits ∷ run ∷ tail ∷ [])) }
{
    let mut text = [0u8; 20];
    write_u32(&mut text, 0, verdict);
    write_u32(&mut text, 4, steps);
    write_u32(&mut text, 8, visits);
    write_u32(&mut text, 12, run);
    write_u32(&mut text, 16, tail);
    show(&text, answer);
}

// Marks a run over a book, under a limit of visits. The answer has 12 bytes: verdict, accepted steps, visits. The work
// area is zeros afterwards.
#[unsafe(no_mangle)]
pub extern "C" fn yirtabun_check(
    book: &[u8],
    run: &[u8],
    limit: u32,
    work: &mut [u8],
    answer: &mut [u8],
) -> u32
    ensures { CheckShown book.now run.now limit work.old
        answer.old book.now run.now work.new answer.new result }
{
    let m = check(book, run, limit, work);
    let verdict = u32::from(verdict_number(m.verdict));
    show_marked(verdict, m.steps as u32, m.visits, answer);
    verdict
}

// Marks a run and elaborates its accepted steps. The answer has 20 bytes: verdict, accepted steps, visits, bytes
// written to the out run and to the out tail. The work area is zeros afterwards; each out area has what is written, and
// then zeros.
#[unsafe(no_mangle)]
pub extern "C" fn yirtabun_elaborate(
    book: &[u8],
    run: &[u8],
    limit: u32,
    work: &mut [u8],
    outrun: &mut [u8],
    outtail: &mut [u8],
    answer: &mut [u8],
) -> u32
    ensures { ElaborateShown (lent book.now run.now work.old
        outrun.old outtail.old) limit answer.old
        (lent book.now run.now work.new outrun.new outtail.new)
        answer.new result }
{
    let e = elaborate(book, run, limit, work, outrun, outtail);
    let verdict = u32::from(verdict_number(e.verdict));
    show_elaborated(
        verdict,
        e.steps as u32,
        e.visits,
        e.run as u32,
        e.tail as u32,
        answer,
    );
    verdict
}

// How many bytes of the out run are written, given the byte count of the answer; 0 where the count is above the area or
// not a multiple of 4.
#[unsafe(no_mangle)]
pub extern "C" fn yirtabun_written(outrun: &[u8], bytes: usize) -> usize
    ensures { WrittenShown outrun.now bytes outrun.now result }
{
    written(outrun, bytes).len()
}
