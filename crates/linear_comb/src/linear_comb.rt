// `impl LinearComb` of src/checker/rules/linear_arithmetic.rs, on one combination: its entries lie in an area of the
// work area, their number and the constant are carried by value. A refusal leaves the area empty.
ghost use Rattle.std.specs.Prelude.{◌≡◌, ℕ, ◌≤◌, nat_abs, IfErr};
ghost use Rattle.numbers.specs.Rational.{Proper, limit, whole};
ghost use Rattle.numbers.specs.Bytes.{Bytes};
ghost use Rattle.rules.specs.Limits.{limited};
ghost use Rattle.rules.specs.declared.refusal.Refusal.TheVariants.{NumberRange};
ghost use Rattle.index_map.specs.IndexMap.{neg_all, scale_all};
ghost use Rattle.linear_comb.specs.LinearComb.{mul, gcd_from, coefficients_gcd};
ghost use Rattle.index_map.specs.Memory.Entries.{most_entries, entries_of, Held, Kept, Inserts};
ghost use Rattle.linear_comb.specs.Memory.WorkArea.{comb_of, KeptSum, negated, Combines};
ghost use Rattle.linear_comb.specs.Memory.WorkArea.{SumFits, SumScales};

use index_map::combination::Combination;
use index_map::index_map::{clear, key_at, put_entry, value_at};
use numbers::number::{Number, gcd, magnitude};
use rules::refusal::Refusal;

// A combination of terms.
pub type LinearComb = Combination;

pub fn neg(entries: &mut [u8], s: LinearComb) -> LinearComb
    requires { SumFits s }
    ensures value { result ≡ negated s }
    ensures held { (b : Bytes) → KeptSum b entries.old s →
        Held b entries.new (neg_all (entries_of b entries.old s.len)) }
{
    for k in 0..s.len {
        let key = key_at(entries, k);
        let value = value_at(entries, k);
        put_entry(entries, k, key, value.neg());
    }
    LinearComb {
        len: s.len,
        constant: s.constant.neg(),
    }
}

// Multiplies each of n entries. How many there are then.
fn scale_all(entries: &mut [u8], n: usize, q: Number) -> Result<usize, Refusal>
    requires { (n ≤ most_entries) × Proper q }
    ensures refused { IfErr result (λ r. r ≡ NumberRange) }
    ensures inserts { (b : Bytes) → Kept b entries.old n → (l : ℕ) →
        Inserts b entries.new result (scale_all (limited l) q (entries_of b entries.old n)) }
{
    for k in 0..n {
        let key = key_at(entries, k);
        let value = value_at(entries, k);
        let Some(scaled) = value.mul(q) else {
            clear(entries, n);
            return Err(Refusal::NumberRange);
        };
        put_entry(entries, k, key, scaled);
    }
    Ok(n)
}

// Multiplies a combination, in its own place.
pub fn mul(entries: &mut [u8], s: LinearComb, q: Number) -> Result<LinearComb, Refusal>
    requires { SumScales s q }
    ensures refused { IfErr result (λ r. r ≡ NumberRange) }
    ensures combines { (b : Bytes) → KeptSum b entries.old s → (l : ℕ) →
        Combines b entries.new result (mul (limited l) (comb_of b entries.old s) q) }
{
    if q.is_zero() {
        clear(entries, s.len);
        return Ok(Combination::new());
    }
    if q.eq(Number::whole(1)) {
        return Ok(s);
    }
    scale_all(entries, s.len, q)?;
    let Some(constant) = s.constant.mul(q) else {
        clear(entries, s.len);
        return Err(Refusal::NumberRange);
    };
    Ok(LinearComb {
        len: s.len,
        constant,
    })
}

// The loop over the coefficients, with the result so far.
fn gcd_from(entries: &[u8], n: usize, start: i64) -> i64
    requires { (n ≤ most_entries) × (nat_abs start ≤ limit) }
    ensures proper { Proper (whole result) }
    ensures value { (b : Bytes) → Kept b entries.now n →
        result ≡ gcd_from start (entries_of b entries.now n) }
{
    let mut result = start;
    for k in 0..n {
        if result == 1 {
            return 1;
        }
        let value = value_at(entries, k);
        if !value.is_integer() {
            return 1;
        }
        result = gcd(magnitude(result), magnitude(value.num)) as i64;
    }
    result.max(1)
}

// The greatest common divisor of the coefficients and the constant; 1 where one of them is not whole, and where all are
// 0.
pub fn coefficients_gcd(entries: &[u8], s: LinearComb) -> i64
    requires { SumFits s }
    ensures proper { Proper (whole result) }
    ensures value { (b : Bytes) → Kept b entries.now s.len →
        result ≡ coefficients_gcd (comb_of b entries.now s) }
{
    if !s.constant.is_integer() {
        return 1;
    }
    gcd_from(entries, s.len, s.constant.num)
}
