// The readers of src/ast/term.rs that refuse a term of another kind: `as_fraction_err` and its kin.
ghost use Rattle.std.specs.Prelude.{◌≡◌, ℕ, is_some};
ghost use Rattle.terms.specs.Book.{tree};
ghost use Rattle.terms.specs.Readers.{as_op};
ghost use Rattle.rules.specs.Limits.{limited, fraction_err, signed_number_err, bitvector_err, op_err};
ghost use Rattle.rules.specs.Memory.Parts.{Expects, operator_alone};

use crate::refusal::Refusal;
use numbers::bytes::byte;
use numbers::number::Number;
use terms::format::OPERATION;
use terms::records::record;
use terms::term::{as_bitvector, as_fraction, as_signed_number, operator};

pub fn as_fraction_err(book: &[u8], id: usize) -> Result<Number, Refusal>
    ensures { (l : ℕ) → Expects result (fraction_err (limited l) (tree book.now id)) }
{
    Ok(as_fraction(book, id)?)
}

pub fn as_signed_number_err(book: &[u8], id: usize) -> Result<Number, Refusal>
    ensures { Expects result (signed_number_err (tree book.now id)) }
{
    Ok(as_signed_number(book, id)?)
}

// Value and width.
pub fn as_bitvector_err(book: &[u8], id: usize) -> Result<(u64, u64), Refusal>
    ensures { result ≡ bitvector_err (tree book.now id) }
{
    as_bitvector(book, id).ok_or(Refusal::ExpectedBitvector)
}

// Whether `as_op` finds an operation.
fn is_operation(book: &[u8], id: usize) -> bool
    ensures { result ≡ is_some (as_op (tree book.now id)) }
{
    byte(record(book, id), 0) == OPERATION
}

// The operator; the arguments are those of the record.
pub fn as_op_err(book: &[u8], id: usize) -> Result<u8, Refusal>
    ensures { result ≡ operator_alone (op_err (tree book.now id)) }
{
    if is_operation(book, id) {
        return Ok(operator(book, id));
    }
    Err(Refusal::ExpectedOperationTerm)
}
