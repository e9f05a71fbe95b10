// `IndexMap<Rc<Term>, Rational>`: entries in the order of insertion, in an area of the lent work area. An entry is a
// record number in two bytes and a number in eight; after the entries come zeros. How many there are is carried by
// value, since an area is lent, is longer than what is used of it, and nothing is allocated. A refusal leaves the area
// empty.
ghost use Rattle.std.specs.Prelude.{◌≡◌, true, not, ℕ, ◌+◌, ◌*◌, ◌/◌, ◌≤◌, ◌<◌, eqb, length, MatchOption, Ok, IfErr};
ghost use Rattle.std.specs.List.{list_all};
ghost use Rattle.numbers.specs.Rational.{Makes, Proper};
ghost use Rattle.numbers.specs.Bytes.{Bytes, le, number_at};
ghost use Rattle.terms.specs.Term.{Term};
ghost use Rattle.terms.specs.Book.{count, tree};
ghost use Rattle.rules.specs.Limits.{limited};
ghost use Rattle.rules.specs.declared.refusal.Refusal.TheVariants.{NumberRange};
ghost use Rattle.index_map.specs.IndexMap.{insert, get};
ghost use Rattle.index_map.specs.Memory.Entries.{most_entries, terms, keys_of, entries_of, place, put_entry, blanked};
ghost use Rattle.index_map.specs.Memory.Entries.{sums, absent, Kept, Grown, Inserts, CoefficientIs};
ghost use Rattle.index_map.specs.Memory.Entries.{EntryPlace, NewEntry};

use crate::stored_map::StoredMap;
use numbers::bytes::{read_u16, wide, write_u16};
use numbers::number::Number;
use rules::refusal::Refusal;
use terms::areas::{COEFFICIENT_AT, ENTRY_BYTES};

// The bytes of eight entries.
const EIGHT_ENTRIES: usize = 80;

// The record number of entry k.
pub fn key_at(entries: &[u8], k: usize) -> usize
    requires { k ≤ most_entries }
    ensures { (result ≡ le 2 entries.now (10 * k)) × (result < 65536) }
{
    read_u16(entries, ENTRY_BYTES * k) as usize
}

pub fn value_at(entries: &[u8], k: usize) -> Number
    requires { k ≤ most_entries }
    ensures { Makes result (number_at entries.now (10 * k + 2)) }
{
    Number::read(entries, ENTRY_BYTES * k + COEFFICIENT_AT)
}

pub fn put_entry(entries: &mut [u8], k: usize, key: usize, value: Number)
    requires { EntryPlace k key }
    ensures { entries.new ≡ put_entry entries.old k key value }
{
    write_u16(entries, ENTRY_BYTES * k, key as u32);
    value.write(entries, ENTRY_BYTES * k + COEFFICIENT_AT);
}

// Sums are maps of terms.
struct Sums;

impl StoredMap for Sums {
    type Key = u16;

    ghost Of = { Term };

    ghost encoding = { sums };

    ghost room = { λ l k. k ≤ most_entries };

    fn key_at(entries: &[u8], k: usize) -> u16 {
        key_at(entries, k) as u16
    }

    fn value_at(entries: &[u8], k: usize) -> Number {
        value_at(entries, k)
    }

    fn put_entry(entries: &mut [u8], k: usize, key: &u16, value: Number) {
        put_entry(entries, k, usize::from(*key), value)
    }

    fn blank_entry(entries: &mut [u8], k: usize) {
        put_entry(entries, k, 0, Number { num: 0, den: 0 })
    }
}

// The key of the entry at the front of some bytes. It is known to be inside, which spares a test for each entry.
fn first_key(entry: &[u8]) -> usize
    requires { 2 ≤ length entry.now }
    ensures { result ≡ le 2 entry.now 0 }
{
    (wide(entry[0]) + 256 * wide(entry[1])) as usize
}

// Whether none of some whole entries has the key.
fn lacks(entries: &[u8], key: usize) -> bool
    ensures { result ≡ list_all (λ k. not (eqb k key)) (keys_of entries.now (length entries.now / 10)) }
{
    entries
        .chunks_exact(ENTRY_BYTES)
        .all(|entry| first_key(entry) != key)
}

// How many entries need no second look: they come in eights of which none has the key. Of eight entries, whose length
// is fixed, the compiler makes eight comparisons in a row.
fn skipped(entries: &[u8], n: usize, key: usize) -> usize
    requires { n ≤ most_entries }
    ensures { result ≤ place (keys_of entries.now n) key }
{
    let Some(used) = entries.get(..ENTRY_BYTES * n) else {
        return 0;
    };
    8 * used
        .chunks_exact(EIGHT_ENTRIES)
        .take_while(|eight| lacks(eight, key))
        .count()
}

// The place of the entry with a key.
fn find(entries: &[u8], n: usize, key: usize) -> Option<usize>
    requires { n ≤ most_entries }
    ensures { MatchOption result (n ≡ place (keys_of entries.now n) key)
        (λ k. (k < n) × (k ≡ place (keys_of entries.now n) key)) }
{
    let start = skipped(entries, n, key);
    (start..n).find(|k| key_at(entries, *k) == key)
}

// The coefficient of a key.
pub fn get(entries: &[u8], n: usize, key: usize) -> Option<Number>
    requires { n ≤ most_entries }
    ensures { (b : Bytes) → Kept b entries.now n →
        CoefficientIs result (get terms (entries_of b entries.now n) (tree b key)) }
{
    let k = find(entries, n, key)?;
    Some(value_at(entries, k))
}

// Empties an area of n entries.
pub fn clear(entries: &mut [u8], n: usize)
    requires { n ≤ most_entries }
    ensures { entries.new ≡ blanked n entries.old }
{
    Sums::clear(entries, n)
}

// Appends an entry whose key no other has: the search for it is spared. 0 is not entered. How many entries there are
// then.
pub fn append(entries: &mut [u8], n: usize, key: usize, value: Number) -> usize
    requires { NewEntry n key value }
    ensures upper_bound { result ≤ n + 1 }
    ensures inserts { (b : Bytes) → Kept b entries.old n → key < count b →
        absent key (entries_of b entries.old n) ≡ true → (l : ℕ) →
        Inserts b entries.new (Ok result)
        (insert terms (limited l) (entries_of b entries.old n) (tree b key) value) }
{
    if value.is_zero() {
        return n;
    }
    put_entry(entries, n, key, value);
    n + 1
}

// Adds to the entry that has the key, or appends one; an entry that becomes 0 is removed. How many entries there are
// then; refused where the sum leaves the range.
pub fn insert(entries: &mut [u8], n: usize, key: usize, value: Number) -> Result<usize, Refusal>
    requires { NewEntry n key value }
    ensures grown { Grown n result }
    ensures refused { IfErr result (λ r. r ≡ NumberRange) }
    ensures inserts { (b : Bytes) → Kept b entries.old n → key < count b → (l : ℕ) →
        Inserts b entries.new result
        (insert terms (limited l) (entries_of b entries.old n) (tree b key) value) }
{
    if value.is_zero() {
        return Ok(n);
    }
    let Some(k) = find(entries, n, key) else {
        put_entry(entries, n, key, value);
        return Ok(n + 1);
    };
    Sums::add(entries, n, k, &(key as u16), value)
}
