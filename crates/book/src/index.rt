// The index of a book's records while it is read, so that a record is compared with few of the earlier ones. The work
// area holds the sorts in bytes 0 to 2047 and the index in bytes 2048 to 8191: 1024 chains of records, by a hash of
// their bytes. A chain's first number lies in two bytes from 2048 on, the number after record m in two bytes from 4096
// on; a number k stands for record k - 1, and 0 ends a chain. Records enter at the front, so the numbers on a chain
// fall.
ghost use Rattle.std.specs.Prelude.{◌≡◌, ◌+◌, ◌≤◌, ◌<◌, length};
ghost use Rattle.numbers.specs.Bytes.{Bytes};
ghost use Rattle.terms.specs.Book.{record_of, stands};
ghost use Rattle.book.specs.Memory.RecordIndex.{chain, Indexed, Beside, Unused};

use numbers::bytes::{read_u16, same_bytes, write_u16};
use terms::areas::{HEADS_AT, INDEX_END, LINKS_AT};
use terms::records::record;

// The chain of a record's bytes, by a hash of them.
pub(crate) fn chain(r: &[u8]) -> usize
    ensures { (result ≡ chain r.now) × (result < 1024) }
{
    let h = r.iter().fold(
        0u16,
        |h, &x| h.wrapping_mul(40503).wrapping_add(u16::from(x)),
    );
    usize::from(h / 64)
}

// Whether an earlier record has the bytes of record `id`, whose chain is h.
pub(crate) fn found(book: &[u8], work: &[u8], id: usize, h: usize) -> bool
    requires indexed { Indexed id book.now work.now }
    requires h_value { (h ≡ chain (record_of book.now id)) × (h < 1024) }
    ensures { result ≡ stands id book.now (record_of book.now id) }
{
    let r = record(book, id);
    let mut k = read_u16(work, HEADS_AT + 2 * h) as usize;
    // A while, since each link says which record is looked at next.
    while 0 < k {
        if same_bytes(record(book, k - 1), r) {
            return true;
        }
        k = read_u16(work, LINKS_AT + 2 * (k - 1)) as usize;
    }
    false
}

// Enters record `id` at the front of its chain, which is h.
pub(crate) fn enter(work: &mut [u8], id: usize, h: usize)
    requires { (id < 2048) × (h < 1024) }
    ensures { (b : Bytes) → Indexed id b work.old → h ≡ chain (record_of b id) →
        Indexed (id + 1) b work.new × Beside work.new work.old }
{
    let at = HEADS_AT + 2 * h;
    let first = read_u16(work, at);
    write_u16(work, LINKS_AT + 2 * id, first);
    write_u16(work, at, (id + 1) as u32);
}

// Empties the index.
pub(crate) fn clear(work: &mut [u8])
    requires { 8192 ≤ length work.old }
    ensures { Unused work.new × Beside work.new work.old }
{
    work[HEADS_AT..INDEX_END].fill(0);
}
