// Which fields of a record are a number, a width or a bit-vector.
ghost use Rattle.std.specs.Prelude.{◌≡◌};
ghost use Rattle.numbers.specs.Rational.{frac};
ghost use Rattle.terms.specs.Book.{is_number, is_width};
ghost use Rattle.terms.specs.Book.{is_vector};

use crate::format::{FIRST_AT, MAX_WIDTH, SECOND_AT};
use numbers::bytes::read_u64;
use numbers::number::magnitude;

const LIMIT: u64 = 2147483647;

// Whether n/d is in range with a denominator of at least 1.
pub fn is_number(n: i64, d: i64) -> bool
    ensures { result ≡ is_number (frac n d) }
{
    magnitude(n) <= LIMIT && magnitude(d) <= LIMIT && 0 < d
}

pub fn is_width(w: u64) -> bool
    ensures { result ≡ is_width w }
{
    (1..=MAX_WIDTH).contains(&w)
}

// Whether the fields are a bit-vector's width and a value below 2^width.
pub fn is_vector(r: &[u8]) -> bool
    ensures { result ≡ is_vector r.now }
{
    let w = read_u64(r, SECOND_AT);
    is_width(w) && read_u64(r, FIRST_AT) < 1 << w
}
