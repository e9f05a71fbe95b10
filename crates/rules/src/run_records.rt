// Parts of a run: 4-byte records, of which a rule reads the 16-bit numbers.
ghost use Rattle.std.specs.Prelude.{◌≡◌, ◌*◌, ◌≤◌, ◌<◌, length, get_or, drop};
ghost use Rattle.rules.specs.Memory.Parts.{numbers_in};

use numbers::bytes::read_u16;
use terms::format::{NUMBER_AT, RUN_RECORD_BYTES};

// The record that record k of a part of the run names.
pub fn number_in(part: &[u8], k: usize) -> usize
    requires { k < length (numbers_in part.now) }
    ensures { result ≡ get_or (numbers_in part.now) k 0 }
{
    read_u16(part, RUN_RECORD_BYTES * k + NUMBER_AT) as usize
}

// What is left of a part of the run after k records.
pub fn rest(part: &[u8], k: usize) -> &[u8]
    requires { k ≤ 65536 }
    ensures { result.now ≡ drop (4 * k) part.now }
{
    part.get(RUN_RECORD_BYTES * k..).unwrap_or(&[])
}
