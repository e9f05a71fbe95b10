// Combinations in the three areas of the work area: the accumulated one, and a literal's two sides. The areas lie
// apart, and each function changes the bytes of one area alone. A refusal leaves that area empty.
ghost use Rattle.std.specs.Prelude.{◌≡◌, true, [], ℕ, ◌+◌, ◌-◌, ◌≤◌, ◌<◌};
ghost use Rattle.numbers.specs.Rational.{Makes, Proper};
ghost use Rattle.numbers.specs.Bytes.{Bytes};
ghost use Rattle.terms.specs.Book.{count, tree, SortsBelow};
ghost use Rattle.rules.specs.Limits.{limited};
ghost use Rattle.rules.specs.declared.refusal.Refusal.TheVariants.{NumberRange};
ghost use Rattle.index_map.specs.IndexMap.{insert, insert_all, add, sub, neg_all};
ghost use Rattle.linear_comb.specs.LinearComb.{mul, all_int};
ghost use Rattle.index_map.specs.Memory.Entries.{slots, terms, entries_of, blanked, Kept, Grown, Held, absent, Inserts};
ghost use Rattle.index_map.specs.Memory.Entries.{most_entries, NewEntry};
ghost use Rattle.linear_comb.specs.Memory.WorkArea.{Area, Apart, area_of, with_area, OnlyArea, comb_of};
ghost use Rattle.linear_comb.specs.Memory.WorkArea.{signed_all, signed_q, signed_comb, negated, KeptSum, Combines};
ghost use Rattle.linear_comb.specs.Memory.WorkArea.{SumFits, AreaCount, AreaSum, TwoSums};
ghost use Rattle.std.specs.Prelude.{Ok, IfErr};

use index_map::index_map::{append, clear, insert, key_at, value_at};
use linear_comb::linear_comb::{LinearComb, mul, neg};
use numbers::bytes::byte;
use numbers::number::Number;
use rules::refusal::Refusal;
use terms::areas::{STEP_AT, SUM_BYTES};
use terms::format::INT_SORT;

// ---- one area
pub const ACCUMULATED: usize = 0;

pub const LEFT: usize = 1;

pub const RIGHT: usize = 2;

// Area j.
pub fn area(work: &[u8], j: usize) -> &[u8]
    requires { Area j work.now }
    ensures { result.now ≡ area_of j work.now }
{
    let start = STEP_AT + SUM_BYTES * j;
    &work[start..start + SUM_BYTES]
}

// Empties area j of n entries.
pub fn clear_in(work: &mut [u8], j: usize, n: usize)
    requires { AreaCount j n work.old }
    ensures { work.new ≡ with_area j (blanked n (area_of j work.old)) work.old }
{
    let start = STEP_AT + SUM_BYTES * j;
    clear(&mut work[start..start + SUM_BYTES], n);
}

fn insert_in(
    work: &mut [u8],
    j: usize,
    n: usize,
    key: usize,
    value: Number,
) -> Result<usize, Refusal>
    requires { Area j work.old × NewEntry n key value }
    ensures grown { Grown n result × OnlyArea j work.old work.new }
    ensures refused { IfErr result (λ r. r ≡ NumberRange) }
    ensures inserts { (b : Bytes) → Kept b (area_of j work.old) n → key < count b → (l : ℕ) →
        Inserts b (area_of j work.new) result
        (insert terms (limited l) (entries_of b (area_of j work.old) n) (tree b key) value) }
{
    let start = STEP_AT + SUM_BYTES * j;
    insert(&mut work[start..start + SUM_BYTES], n, key, value)
}

// The same with a key that no entry has.
fn append_in(work: &mut [u8], j: usize, n: usize, key: usize, value: Number) -> usize
    requires { Area j work.old × NewEntry n key value }
    ensures upper_bound { (result ≤ n + 1) × OnlyArea j work.old work.new }
    ensures inserts { (b : Bytes) → Kept b (area_of j work.old) n → key < count b →
        absent key (entries_of b (area_of j work.old) n) ≡ true → (l : ℕ) →
        Inserts b (area_of j work.new) (Ok result)
        (insert terms (limited l) (entries_of b (area_of j work.old) n) (tree b key) value) }
{
    let start = STEP_AT + SUM_BYTES * j;
    append(&mut work[start..start + SUM_BYTES], n, key, value)
}

pub fn neg_in(work: &mut [u8], j: usize, s: LinearComb) -> LinearComb
    requires { Area j work.old × SumFits s }
    ensures value { (result ≡ negated s) × OnlyArea j work.old work.new }
    ensures held { (b : Bytes) → KeptSum b (area_of j work.old) s →
        Held b (area_of j work.new) (neg_all (entries_of b (area_of j work.old) s.len)) }
{
    let start = STEP_AT + SUM_BYTES * j;
    neg(&mut work[start..start + SUM_BYTES], s)
}

pub fn mul_in(work: &mut [u8], j: usize, s: LinearComb, q: Number) -> Result<LinearComb, Refusal>
    requires { AreaSum j s q work.old }
    ensures only_area { OnlyArea j work.old work.new }
    ensures refused { IfErr result (λ r. r ≡ NumberRange) }
    ensures combines { (b : Bytes) → KeptSum b (area_of j work.old) s → (l : ℕ) →
        Combines b (area_of j work.new) result
        (mul (limited l) (comb_of b (area_of j work.old) s) q) }
{
    let start = STEP_AT + SUM_BYTES * j;
    mul(&mut work[start..start + SUM_BYTES], s, q)
}

// ---- two areas

// A number with the sign turned, or as it is.
fn signed(turned: bool, q: Number) -> Number
    requires { Proper q }
    ensures { Makes result (signed_q turned q) }
{
    if turned { q.neg() } else { q }
}

// Inserts the m entries of area `from` into area `to`, which is empty, with the sign turned or as they are: the keys of
// area `from` differ, so each is a key that no entry has. How many entries there are then.
fn copy_all(work: &mut [u8], to: usize, from: usize, m: usize, turned: bool) -> usize
    requires { Apart to from work.old × (m ≤ slots) }
    ensures upper_bound { (result ≤ most_entries) × OnlyArea to work.old work.new }
    ensures inserts { (b : Bytes) → Kept b (area_of to work.old) 0 →
        Kept b (area_of from work.old) m → (l : ℕ) →
        Inserts b (area_of to work.new) (Ok result)
        (insert_all terms (limited l) [] (signed_all turned (entries_of b (area_of from work.old) m))) }
{
    let mut len = 0;
    for k in 0..m {
        let key = key_at(area(work, from), k);
        let value = signed(turned, value_at(area(work, from), k));
        len = append_in(work, to, len, key, value);
    }
    len
}

// Inserts the m entries of area `from` into the n of area `to`, one by one, with the sign turned or as they are. There
// are no more in the end than two areas have.
fn insert_all(
    work: &mut [u8],
    to: usize,
    n: usize,
    from: usize,
    m: usize,
    turned: bool,
) -> Result<usize, Refusal>
    requires { Apart to from work.old × ((n ≤ slots) × (m ≤ slots)) }
    ensures grown { Grown (most_entries - 1) result × OnlyArea to work.old work.new }
    ensures refused { IfErr result (λ r. r ≡ NumberRange) }
    ensures inserts { (b : Bytes) → Kept b (area_of to work.old) n →
        Kept b (area_of from work.old) m → (l : ℕ) →
        Inserts b (area_of to work.new) result
        (insert_all terms (limited l) (entries_of b (area_of to work.old) n)
        (signed_all turned (entries_of b (area_of from work.old) m))) }
{
    if n == 0 {
        return Ok(copy_all(work, to, from, m, turned));
    }
    let mut len = n;
    for k in 0..m {
        let key = key_at(area(work, from), k);
        let value = signed(turned, value_at(area(work, from), k));
        len = insert_in(work, to, len, key, value)?;
    }
    Ok(len)
}

// Adds combination b of area `from`, with the sign turned or as it is, to a of area `to`.
fn add_signed(
    work: &mut [u8],
    to: usize,
    a: LinearComb,
    from: usize,
    b: LinearComb,
    turned: bool,
) -> Result<LinearComb, Refusal>
    requires { TwoSums to a from b work.old }
    ensures only_area { OnlyArea to work.old work.new }
    ensures refused { IfErr result (λ r. r ≡ NumberRange) }
    ensures combines { (bk : Bytes) → KeptSum bk (area_of to work.old) a →
        KeptSum bk (area_of from work.old) b → (l : ℕ) →
        Combines bk (area_of to work.new) result
        (add terms (limited l) (comb_of bk (area_of to work.old) a)
        (signed_comb turned (comb_of bk (area_of from work.old) b))) }
{
    let len = insert_all(work, to, a.len, from, b.len, turned)?;
    let Some(constant) = a.constant.add(signed(turned, b.constant)) else {
        clear_in(work, to, len);
        return Err(Refusal::NumberRange);
    };
    Ok(LinearComb { len, constant })
}

pub fn add(
    work: &mut [u8],
    to: usize,
    a: LinearComb,
    from: usize,
    b: LinearComb,
) -> Result<LinearComb, Refusal>
    requires { TwoSums to a from b work.old }
    ensures only_area { OnlyArea to work.old work.new }
    ensures refused { IfErr result (λ r. r ≡ NumberRange) }
    ensures combines { (bk : Bytes) → KeptSum bk (area_of to work.old) a →
        KeptSum bk (area_of from work.old) b → (l : ℕ) →
        Combines bk (area_of to work.new) result
        (add terms (limited l) (comb_of bk (area_of to work.old) a)
        (comb_of bk (area_of from work.old) b)) }
{
    add_signed(work, to, a, from, b, false)
}

pub fn sub(
    work: &mut [u8],
    to: usize,
    a: LinearComb,
    from: usize,
    b: LinearComb,
) -> Result<LinearComb, Refusal>
    requires { TwoSums to a from b work.old }
    ensures only_area { OnlyArea to work.old work.new }
    ensures refused { IfErr result (λ r. r ≡ NumberRange) }
    ensures combines { (bk : Bytes) → KeptSum bk (area_of to work.old) a →
        KeptSum bk (area_of from work.old) b → (l : ℕ) →
        Combines bk (area_of to work.new) result
        (sub terms (limited l) (comb_of bk (area_of to work.old) a)
        (comb_of bk (area_of from work.old) b)) }
{
    add_signed(work, to, a, from, b, true)
}

// ---- reading

// Whether all atoms of the n entries of area j are Int.
pub fn all_int(work: &[u8], j: usize, n: usize) -> bool
    requires { AreaCount j n work.now }
    ensures { (b : Bytes) → SortsBelow (count b) b work.now →
        Kept b (area_of j work.now) n →
        result ≡ all_int (entries_of b (area_of j work.now) n) }
{
    let entries = area(work, j);
    (0..n).all(|k| byte(work, key_at(entries, k)) == INT_SORT)
}
