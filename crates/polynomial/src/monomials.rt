// `IndexMap<Monomial, Rational>` of src/checker/rules/polynomial.rs: up to 64 entries in the order of insertion, in an
// area of 1,600 bytes. A monomial is 17 bytes: how many atoms it has, and eight record numbers, of which those not used
// are 0; so monomials are equal where their bytes are. A refusal leaves the area empty.
ghost use Rattle.std.specs.Prelude.{◌≡◌, ℕ, ◌+◌, ◌*◌, ◌≤◌, ◌<◌, length, get_or, MatchOption};
ghost use Rattle.numbers.specs.Rational.{Makes};
ghost use Rattle.numbers.specs.Bytes.{Bytes, number_at, same_bytes};
ghost use Rattle.terms.specs.Term.{Term, record_number};
ghost use Rattle.rules.specs.Limits.{limited};
ghost use Rattle.index_map.specs.IndexMap.{Map, insert};
ghost use Rattle.polynomial.specs.Polynomial.{Monomial, monomials, place, joined};
ghost use Rattle.polynomial.specs.Memory.PolynomialArea as area;
ghost use Rattle.polynomial.specs.Memory.PolynomialArea.{first_above, key_at, keys_of, put_entry, blanked};
ghost use Rattle.polynomial.specs.Memory.PolynomialArea.{Atom, Key, Held, Inserts, Few};
ghost use Rattle.polynomial.specs.Memory.PolynomialArea.{MonomialPlace, MonomialCount, NewMonomial};
ghost use Rattle.polynomial.specs.Memory.PolynomialArea.{places, max_atoms, key_size, place_size, area_size};
ghost use Rattle.polynomial.specs.Memory.PolynomialArea.{polynomials};

use index_map::stored_map::StoredMap;
use numbers::bytes::{read_u16, same_bytes, write_u16};
use numbers::number::Number;
use rules::refusal::Refusal;
use terms::areas::{MAX_MONOMIALS, MONOMIAL_BYTES, PLACE_BYTES};

// ---- monomials

// The place among the n atoms of a monomial in front of which an atom is put: the first that is greater.
fn place_of(key: &[u8], n: usize, atom: usize) -> usize
    requires { (length key.now ≡ key_size) × (n ≤ max_atoms) }
    ensures upper_bound { result ≤ n }
    ensures value { (b : Bytes) (m : Monomial) → Key b key.now m → n ≡ length m →
        result ≡ first_above m atom }
{
    for k in 0..n {
        if atom < read_u16(key, 2 * k + 1) as usize {
            return k;
        }
    }
    n
}

// Puts an atom into a monomial of fewer than eight.
pub fn put_atom(key: &mut [u8], atom: usize)
    requires { (length key.old ≡ key_size) × ((get_or key.old 0 0 < max_atoms) × (atom < 65536)) }
    ensures key_after { get_or key.new 0 0 ≡ get_or key.old 0 0 + 1 }
    ensures key { (b : Bytes) (m : Monomial) (t : Term) → Key b key.old m → length m < max_atoms →
        Atom b t → atom ≡ record_number t → Key b key.new (place t m) }
{
    let n = key[0] as usize;
    let at = place_of(key, n, atom);
    // By two bytes: copy_within goes by single bytes, and is slower for so few.
    for k in (at..n).rev() {
        let moved = read_u16(key, 2 * k + 1);
        write_u16(key, 2 * k + 3, moved);
    }
    write_u16(key, 2 * at + 1, atom as u32);
    key[0] = n as u8 + 1;
}

// Puts the atoms of a monomial into another; together they have eight at most.
pub fn join(key: &mut [u8], other: &[u8])
    requires { ((length key.old ≡ key_size) × (length other.now ≡ key_size)) ×
        (get_or key.old 0 0 + get_or other.now 0 0 ≤ max_atoms) }
    ensures { (b : Bytes) (m n : Monomial) → Key b key.old m → Key b other.now n →
        Key b key.new (joined m n) }
{
    for k in 0..other[0] as usize {
        put_atom(key, read_u16(other, 2 * k + 1) as usize);
    }
}

// ---- entries

// The monomial of entry k.
pub fn key_at(entries: &[u8], k: usize) -> [u8; MONOMIAL_BYTES]
    requires { (length entries.now ≡ area_size) × (k < places) }
    ensures { result ≡ key_at entries.now k }
{
    let start = PLACE_BYTES * k;
    let mut key = [0u8; MONOMIAL_BYTES];
    key.copy_from_slice(&entries[start..start + MONOMIAL_BYTES]);
    key
}

// The coefficient of entry k.
pub fn value_at(entries: &[u8], k: usize) -> Number
    requires { k < places }
    ensures { Makes result (number_at entries.now (place_size * k + key_size)) }
{
    Number::read(entries, PLACE_BYTES * k + MONOMIAL_BYTES)
}

pub fn put_entry(entries: &mut [u8], k: usize, key: &[u8], value: Number)
    requires { MonomialPlace k entries.old key.now }
    ensures { entries.new ≡ put_entry entries.old k key.now value }
{
    let start = PLACE_BYTES * k;
    let end = start + MONOMIAL_BYTES;
    // The compiler copies a part of known length without a call.
    entries[start..end].copy_from_slice(&key[..MONOMIAL_BYTES]);
    value.write(entries, end);
}

// Polynomials are maps of monomials.
struct Polynomials;

impl StoredMap for Polynomials {
    type Key = [u8; MONOMIAL_BYTES];

    ghost Of = { Monomial };

    ghost encoding = { polynomials };

    ghost room = { λ l k. (l ≡ area_size) × (k < places) };

    #[tactic(auto, unfolding(crate::specs::Memory::PolynomialArea::key_at))]
    fn key_at(entries: &[u8], k: usize) -> [u8; MONOMIAL_BYTES] {
        key_at(entries, k)
    }

    fn value_at(entries: &[u8], k: usize) -> Number {
        value_at(entries, k)
    }

    fn put_entry(entries: &mut [u8], k: usize, key: &[u8; MONOMIAL_BYTES], value: Number) {
        put_entry(entries, k, key, value)
    }

    fn blank_entry(entries: &mut [u8], k: usize) {
        put_entry(entries, k, &[0; MONOMIAL_BYTES], Number { num: 0, den: 0 })
    }
}

// Whether entry k has the monomial. The compiler compares parts of known length without a call.
fn has_key(entries: &[u8], k: usize, key: &[u8; MONOMIAL_BYTES]) -> bool
    requires { (length entries.now ≡ area_size) × (k < places) }
    ensures { result ≡ same_bytes (key_at entries.now k) key.now }
{
    let start = PLACE_BYTES * k;
    same_bytes(&entries[start..start + MONOMIAL_BYTES], key)
}

// The place of the entry with a monomial.
fn find(entries: &[u8], n: usize, key: &[u8; MONOMIAL_BYTES]) -> Option<usize>
    requires { MonomialCount n entries.now }
    ensures { MatchOption result (n ≡ area.place (keys_of entries.now n) key.now)
        (λ k. (k < n) × (k ≡ area.place (keys_of entries.now n) key.now)) }
{
    (0..n).find(|k| has_key(entries, *k, key))
}

// Empties an area of n entries.
pub fn clear(entries: &mut [u8], n: usize)
    requires { MonomialCount n entries.old }
    ensures { entries.new ≡ blanked n entries.old }
{
    Polynomials::clear(entries, n)
}

// Adds to the entry that has the monomial, or enters another, up to 64; an entry that becomes 0 is removed. How many
// entries there are then.
pub fn insert(entries: &mut [u8], n: usize, key: &[u8], value: Number) -> Result<usize, Refusal>
    requires { NewMonomial n key.now value entries.old }
    ensures few { Few result }
    ensures inserts { (b : Bytes) (p : Map Monomial) (m : Monomial) → Held b entries.old p → n ≡ length p →
        Key b key.now m → (l : ℕ) →
        Inserts b entries.new result (insert monomials (limited l) p m value) }
{
    if value.is_zero() {
        return Ok(n);
    }
    let mut sought = [0u8; MONOMIAL_BYTES];
    sought.copy_from_slice(key);
    let Some(k) = find(entries, n, &sought) else {
        if MAX_MONOMIALS <= n {
            clear(entries, n);
            return Err(Refusal::PolynomialSize);
        }
        put_entry(entries, n, key, value);
        return Ok(n + 1);
    };
    Polynomials::add(entries, n, k, &sought, value)
}
