// Demand 3 on running code: a run is elaborated, its elaboration is marked again over book and tail, and both answers
// are compared.
ghost use Rattle.std.specs.Prelude.{◌≡◌, ◌+◌, leb, length};
ghost use Rattle.elaborate.specs.Elaborate.{Answer};
ghost use Rattle.marking.specs.Answers.{area};
ghost use Rattle.elaborate.specs.LentMemory.{Memory, answer_to, memory_after, lent};
ghost use Rattle.elaborate.specs.LentMemory.{elaborated_of};
ghost use Rattle.again.specs.Again.{second, joined_book, agree, MarkedAgain};
ghost use Rattle.again.specs.AgainEntry.{AgainDone};

use elaborate::elaborate::{Elaborated, elaborate, written};
use numbers::bytes::{clear_from, paste, room, same_bytes};
use runs::verdict::Verdict;

#[derive(Clone, Copy, Debug, PartialEq, Eq)]
pub struct Twice {
    // The answer to the elaboration.
    pub first: Elaborated,
    // Whether its second marking agrees.
    pub again: bool,
}

// Puts book and tail one behind the other, and zeros behind them; only zeros where there is no room. Whether there is.
fn join(book: &[u8], tail: &[u8], joined: &mut [u8]) -> bool
    ensures value { result ≡ leb (length book.now + length tail.now)
        (length joined.old) }
    ensures joined_after { joined.new ≡ area (length joined.old)
        (joined_book (length joined.old) book.now tail.now) }
{
    let n = book.len();
    let m = tail.len();
    if room(joined, n, m) {
        paste(joined, 0, book);
        paste(joined, n, tail);
        clear_from(joined, n + m);
        return true;
    }
    clear_from(joined, 0);
    false
}

// Whether the second marking accepts all, with the steps and visits of the first, and writes the same run and an empty
// tail.
fn agree(first: Elaborated, second: Elaborated, run: &[u8], again: &[u8]) -> bool
    ensures { (a c : Answer) → first ≡ elaborated_of a → second ≡ elaborated_of c → run.now ≡ a.run →
        again.now ≡ c.run →
        result ≡ agree a c }
{
    !matches!(first.verdict, Verdict::Lent(_))
        && second.verdict == Verdict::AllAccepted
        && second.steps == first.steps
        && second.visits == first.visits
        && second.tail == 0
        && same_bytes(again, run)
}

// Marks again what `elaborate` answered and wrote.
fn mark_again(
    book: &[u8],
    limit: u32,
    work: &mut [u8],
    outrun: &[u8],
    outtail: &[u8],
    first: Elaborated,
    joined: &mut [u8],
    againrun: &mut [u8],
    againtail: &mut [u8],
) -> bool
    ensures { (m : Memory) → m.book ≡ book.now → length m.work ≡ length work.old →
        first ≡ elaborated_of (answer_to m limit) → outrun.now ≡ (memory_after m limit).out_run →
        outtail.now ≡ (memory_after m limit).out_tail →
        MarkedAgain m limit (second joined.old againrun.old againtail.old) result
        work.new (second joined.new againrun.new againtail.new) }
{
    let run = written(outrun, first.run);
    let tail = written(outtail, first.tail);
    let fits = join(book, tail, joined);
    let n = if fits { book.len() + tail.len() } else { 0 };
    let again = elaborate(&joined[0..n], run, limit, work, againrun, againtail);
    let agreed = agree(first, again, run, written(againrun, again.run));
    fits && agreed
}

// Elaborates a run as `elaborate` does, joins book and tail, elaborates the written run over them, and says whether
// both agree. It says yes where refusals 1 to 8 don't arise and no bounded_farkas step has more arguments than
// literals, if `joined` has room for book and tail and the second out areas are as large as the first.
pub fn elaborate_and_mark(
    book: &[u8],
    run: &[u8],
    limit: u32,
    work: &mut [u8],
    outrun: &mut [u8],
    outtail: &mut [u8],
    joined: &mut [u8],
    againrun: &mut [u8],
    againtail: &mut [u8],
) -> Twice
    ensures { AgainDone (lent book.now run.now work.old outrun.old
        outtail.old) limit
        (second joined.old againrun.old againtail.old)
        (lent book.now run.now work.new outrun.new outtail.new)
        (second joined.new againrun.new againtail.new) result }
{
    let first = elaborate(book, run, limit, work, outrun, outtail);
    let again = mark_again(
        book, limit, work, outrun, outtail, first, joined, againrun, againtail,
    );
    Twice { first, again }
}
