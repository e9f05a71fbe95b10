// What is lent and what is read of it, the records of a run, and what the program names of the formats beside
// `terms::format`.
ghost use Rattle.std.specs.Prelude.{◌≡◌, get_or};
ghost use Rattle.listing.specs.RunRecords.{opens_of, assumes_of};

use numbers::bytes::byte;
use runs::rule::{Rule, rule_number};
use terms::format::{BYTE_AT, STEP};

// ---- sizes

pub const RUN_RECORDS: usize = 4096;

// The bytes of an argument of an operation.
pub const ARGUMENT_BYTES: usize = 2;

// ---- what is lent

// A book, and a run over it.
#[derive(Clone, Copy)]
pub struct Lent<'a> {
    pub book: &'a [u8],
    pub run: &'a [u8],
}

// A book that was read: its records, and the sort of each, a byte, at the start of the work area.
#[derive(Clone, Copy)]
pub struct Terms<'a> {
    pub book: &'a [u8],
    pub sorts: &'a [u8],
}

impl Terms<'_> {
    // The sort of record `id`.
    pub fn sort(self, id: usize) -> u8
        ensures { result ≡ get_or self.entry.sorts.now id 0 }
    {
        byte(self.sorts, id)
    }
}

// ---- the records of a run

// Where the mark stands.
pub const MARK: usize = 0;

// Whether a record opens a step.
pub fn opens(r: &[u8]) -> bool
    ensures { result ≡ opens_of r.now }
{
    byte(r, MARK) == STEP
}

// Whether a record opens an assume.
pub fn assumes(r: &[u8]) -> bool
    ensures { result ≡ assumes_of r.now }
{
    opens(r) && byte(r, BYTE_AT) == rule_number(Rule::Assume)
}
