// What reading a book answers, and document 01's number of each refusal.
ghost use Rattle.std.specs.Prelude.{◌≡◌};
ghost use Rattle.terms.specs.Book.{book_number};

// What is wrong with a book, by document 01's numbers.
#[derive(Clone, Copy, Debug, PartialEq, Eq)]
pub enum BookRefusal {
    // Not whole records, or more than 2,048.
    BookSize = 2,
    // Bytes that make no record.
    RecordLayout = 3,
    // Arguments of sorts that the operator does not take.
    SortBroken = 4,
    // A record equal to an earlier one.
    RecordRepeated = 5,
}

// Why a book is refused, and at which record.
#[derive(Clone, Copy, Debug, PartialEq, Eq)]
pub struct BookError {
    pub refusal: BookRefusal,
    pub at: usize,
}

// Document 01's number of a refusal.
pub fn book_number(r: BookRefusal) -> u8
    ensures { result ≡ book_number r }
{
    r as u8
}
