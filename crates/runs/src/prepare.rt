// Before the first step: the book is read, and the work area holds the sorts of its records.
ghost use Rattle.std.specs.Prelude.{◌≤◌, length, replicate};
ghost use Rattle.terms.specs.Book.{BookDone};

use book::book::read_book;
use numbers::bytes::clear_from;
use terms::reading::BookError;

// Reads a book: the work area then holds the sorts of its records, and is 0 elsewhere.
pub fn prepare(book: &[u8], work: &mut [u8]) -> Result<usize, BookError>
    requires { 8192 ≤ length work.old }
    ensures { BookDone book.now (replicate (length work.old) 0) work.new result }
{
    clear_from(work, 0);
    read_book(book, work)
}
