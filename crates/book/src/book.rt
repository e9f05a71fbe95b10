// Reading a book of terms: refusals 2 to 5, record by record.
ghost use Rattle.std.specs.Prelude.{◌≡◌, ◌≤◌, ◌<◌, length};
ghost use Rattle.terms.specs.Book.{record_of, record_read, SortsBelow, BookDone};
ghost use Rattle.book.specs.Memory.RecordIndex.{chain, Indexed, Unused, BookLeft};

use crate::index::{chain, clear, enter, found};
use crate::layout::layout_ok;
use crate::sort::sort_of;
use terms::format::{MAX_RECORDS, RECORD_BYTES};
use terms::reading::{BookError, BookRefusal};
use terms::records::record;

// Refusal 3, 4 or 5 of a record, whose chain is h, or its sort, where the work area has the sorts and the index of the
// records before it.
fn record_read(book: &[u8], id: usize, work: &[u8], h: usize) -> Result<u8, BookRefusal>
    requires read { SortsBelow id book.now work.now × Indexed id book.now work.now }
    requires h_value { (h ≡ chain (record_of book.now id)) × (h < 1024) }
    ensures { result ≡ record_read book.now id }
{
    // Sought first, though refusal 5 comes last: the hash is one long chain of products, and the processor tests the
    // layout beside it.
    let again = found(book, work, id, h);
    let r = record(book, id);
    if !layout_ok(r, id) {
        return Err(BookRefusal::RecordLayout);
    }
    match sort_of(r, id, work) {
        None => Err(BookRefusal::SortBroken),
        Some(_) if again => Err(BookRefusal::RecordRepeated),
        Some(s) => Ok(s),
    }
}

// Reads a book as `read_book` does, and leaves its index in the work area.
fn read_records(book: &[u8], work: &mut [u8]) -> Result<usize, BookError>
    requires { (8192 ≤ length work.old) × Unused work.old }
    ensures { BookLeft book.now work.old work.new result }
{
    let n = book.len() / RECORD_BYTES;
    if book.len() % RECORD_BYTES != 0 || MAX_RECORDS < n {
        return Err(BookError {
            refusal: BookRefusal::BookSize,
            at: 0,
        });
    }
    for i in 0..n {
        // once for both: the search and the entry
        let h = chain(record(book, i));
        match record_read(book, i, work, h) {
            Ok(s) => {
                work[i] = s;
                enter(work, i, h);
            }
            Err(refusal) => return Err(BookError { refusal, at: i }),
        }
    }
    Ok(n)
}

// Reads a book by refusals 2 to 5, in document 01's order. The sort of each record that is read is left in a byte of
// `work`; all other bytes are unchanged, and those of the index are 0 before and after.
pub fn read_book(book: &[u8], work: &mut [u8]) -> Result<usize, BookError>
    requires { (8192 ≤ length work.old) × Unused work.old }
    ensures { BookDone book.now work.old work.new result }
{
    let read = read_records(book, work);
    clear(work);
    read
}
