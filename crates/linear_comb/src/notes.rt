// A bit for each record of a book. A walk notes the records that it enters as atoms: one that is not noted is no key of
// an entry, and need not be sought.
ghost use Rattle.std.specs.Prelude.{◌≡◌, ℕ, ◌<◌, IfErr};
ghost use Rattle.numbers.specs.Bytes.{Bytes};
ghost use Rattle.terms.specs.Book.{count, tree};
ghost use Rattle.terms.specs.Format.{max_records};
ghost use Rattle.rules.specs.Limits.{limited};
ghost use Rattle.rules.specs.declared.refusal.Refusal.TheVariants.{NumberRange};
ghost use Rattle.index_map.specs.IndexMap.{insert};
ghost use Rattle.index_map.specs.Memory.Entries.{terms, entries_of, Kept, Inserts, NewEntry};
ghost use Rattle.linear_comb.specs.Memory.Notes.{is_noted, with_note, noting, Noted};

use index_map::index_map::{append, insert};
use numbers::number::Number;
use rules::refusal::Refusal;

// A word has a bit for each of 64 records.
pub const NOTE_WORDS: usize = 32;

const WORD_BITS: usize = 64;

// Whether record x is noted.
fn is_noted(noted: &[u64; NOTE_WORDS], x: usize) -> bool
    requires { x < max_records }
    ensures { result ≡ is_noted noted.now x }
{
    (noted[x / WORD_BITS] >> (x % WORD_BITS)) % 2 == 1
}

// Notes record x.
pub fn note(noted: &mut [u64; NOTE_WORDS], x: usize)
    requires { x < max_records }
    ensures { noted.new ≡ with_note noted.old x }
{
    noted[x / WORD_BITS] |= 1 << (x % WORD_BITS);
}

// Adds `value` times the atom of record x to the n entries, and notes it. All atoms so far are noted. How many entries
// there are then.
pub fn enter(
    entries: &mut [u8],
    n: usize,
    x: usize,
    value: Number,
    noted: &mut [u64; NOTE_WORDS],
) -> Result<usize, Refusal>
    requires { NewEntry n x value × (x < max_records) }
    ensures noted_after { noted.new ≡ noting noted.old x }
    ensures refused { IfErr result (λ r. r ≡ NumberRange) }
    ensures inserts { (b : Bytes) → Kept b entries.old n → x < count b →
        Noted noted.old (entries_of b entries.old n) → (l : ℕ) →
        Inserts b entries.new result
        (insert terms (limited l) (entries_of b entries.old n) (tree b x) value) }
{
    if is_noted(noted, x) {
        return insert(entries, n, x, value);
    }
    note(noted, x);
    Ok(append(entries, n, x, value))
}
