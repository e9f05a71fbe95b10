// Maps in lent bytes, whatever their keys: what is the same for sums (index_map) and for polynomials (monomials, in the
// crate polynomial). How many entries there are is carried by value. A refusal leaves the area empty.
ghost use Rattle.std.specs.Prelude.{◌≡◌, ℕ, ◌+◌, ◌*◌, ◌-◌, ◌≤◌, ◌<◌, length};
ghost use Rattle.numbers.specs.Rational.{Makes, Proper};
ghost use Rattle.numbers.specs.Bytes.{number_at};
ghost use Rattle.rules.specs.Memory.Parts.{blank};
ghost use Rattle.index_map.specs.Memory.Answers.{AtMost};
ghost use Rattle.index_map.specs.Memory.StoredMaps.{Encoding, size, put_entry, blanked, swapped, Added};

use numbers::number::Number;
use rules::refusal::Refusal;

// How an entry is read and written, and what follows for all.
pub trait StoredMap {
    type Key: Copy;

    ghost Of: { Type 0 };

    ghost encoding: { Encoding Of Self.Key };

    // Whether so many bytes have a place k.
    ghost room: { ℕ → ℕ → Type 0 };

    fn key_at(entries: &[u8], k: usize) -> Self::Key
        requires { room (length entries.now) k }
        ensures { result ≡ encoding.read entries.now (size encoding * k) };

    fn value_at(entries: &[u8], k: usize) -> Number
        requires { room (length entries.now) k }
        ensures { Makes result (number_at entries.now (size encoding * k + encoding.width)) };

    fn put_entry(entries: &mut [u8], k: usize, key: &Self::Key, value: Number)
        requires { room (length entries.old) k }
        ensures { entries.new ≡ put_entry encoding entries.old k key.now value };

    fn blank_entry(entries: &mut [u8], k: usize)
        requires { room (length entries.old) k }
        ensures { entries.new ≡ put_entry encoding entries.old k encoding.blank_key blank };

    // Empties an area of n entries.
    final fn clear(entries: &mut [u8], n: usize)
        requires { (k : ℕ) → k < n → room (length entries.old) k }
        ensures { entries.new ≡ blanked encoding n entries.old }
    {
        for k in 0..n {
            Self::blank_entry(entries, k);
        }
    }

    // The last of n entries takes the place of entry k.
    final fn swap_remove(entries: &mut [u8], n: usize, k: usize)
        requires { ((j : ℕ) → j < n → room (length entries.old) j) × (k < n) }
        ensures { entries.new ≡ swapped encoding n k entries.old }
    {
        let last = n - 1;
        let key = Self::key_at(entries, last);
        let value = Self::value_at(entries, last);
        Self::put_entry(entries, k, &key, value);
        Self::blank_entry(entries, last);
    }

    // Adds to entry k of n, whose key it is; an entry that becomes 0 is removed. How many entries there are then;
    // refused where the sum leaves the range.
    final fn add(
        entries: &mut [u8],
        n: usize,
        k: usize,
        key: &Self::Key,
        value: Number,
    ) -> Result<usize, Refusal>
        requires { ((j : ℕ) → j < n → room (length entries.old) j) × ((k < n) × Proper value) }
        ensures most { (m : ℕ) → n ≤ m → AtMost m result }
        ensures adds { Added encoding entries.old n k key.now value result entries.new }
    {
        let Some(sum) = Self::value_at(entries, k).add(value) else {
            Self::clear(entries, n);
            return Err(Refusal::NumberRange);
        };
        if sum.is_zero() {
            Self::swap_remove(entries, n, k);
            return Ok(n - 1);
        }
        Self::put_entry(entries, k, key, sum);
        Ok(n)
    }
}
