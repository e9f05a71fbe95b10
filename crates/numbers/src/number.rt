// Rational numbers: rug's `Rational` as two machine numbers. A number is n/d in lowest terms, d at least 1, |n| and d
// at most 2147483647. An operation that can leave this range answers None then, which is refusal 11; `neg`, `abs` and
// `floor` cannot.
ghost use Rattle.std.specs.Prelude.{◌≡◌, nat_abs, pos, ◌<ℤ◌};
ghost use Rattle.numbers.specs.Rational.{Proper, Divisor, Makes, Gives, frac, whole, gcd, lowest, checked, mul_q};
ghost use Rattle.numbers.specs.Rational.{div_q, add_q, neg_q, abs_q, floor_q, is_integer, is_zero, is_positive, eq_q};
ghost use Rattle.numbers.specs.Rational.{less_q, less_eq_q};
ghost use Rattle.numbers.specs.Bytes.{number_at, put_number};

use crate::bytes::{complement, read_u32, room, signed, write_u32};

#[derive(Clone, Copy, Debug, PartialEq, Eq)]
pub struct Number {
    pub num: i64,
    pub den: i64,
}

const LIMIT: u64 = 2147483647;

// The greatest common divisor, by repeated remainder.
pub fn gcd(a: u64, b: u64) -> u64
    ensures { result ≡ gcd a b }
{
    let mut x = a;
    let mut y = b;
    loop {
        if y == 0 {
            break x;
        }
        let rest = x % y;
        x = y;
        y = rest;
    }
}

// The absolute value of an integer.
pub fn magnitude(n: i64) -> u64
    ensures { result ≡ nat_abs n }
{
    n.unsigned_abs()
}

// n/d as a number, if it is in range.
fn in_range(n: i64, d: i64) -> Option<Number>
    ensures { result ≡ checked (frac n d) }
{
    if magnitude(n) <= LIMIT && magnitude(d) <= LIMIT {
        Some(Number { num: n, den: d })
    } else {
        None
    }
}

// n/d put in lowest terms, and then tested. A whole number is in lowest terms, and most numbers are whole.
fn reduced(n: i64, d: i64) -> Option<Number>
    requires { pos 0 <ℤ d }
    ensures { Gives result (checked (lowest n d)) }
{
    if d == 1 {
        return in_range(n, d);
    }
    let g = gcd(magnitude(n), magnitude(d)) as i64;
    in_range(n / g, d / g)
}

impl Number {
    // The number n/1.
    pub fn whole(n: i64) -> Number
        ensures { result ≡ whole n }
    {
        Number { num: n, den: 1 }
    }

    pub fn mul(self, other: Number) -> Option<Number>
        requires { Proper self × Proper other }
        ensures { Gives result (checked (mul_q self other)) }
    {
        reduced(self.num * other.num, self.den * other.den)
    }

    // The quotient by a number that is not 0; a divisor's sign moves to the numerator.
    pub fn div(self, other: Number) -> Option<Number>
        requires { Proper self × Divisor other }
        ensures { Gives result (checked (div_q self other)) }
    {
        let n = self.num * other.den;
        let d = self.den * other.num;
        if d < 0 {
            reduced(-n, -d)
        } else {
            reduced(n, d)
        }
    }

    pub fn add(self, other: Number) -> Option<Number>
        requires { Proper self × Proper other }
        ensures { Gives result (checked (add_q self other)) }
    {
        reduced(
            self.num * other.den + other.num * self.den,
            self.den * other.den,
        )
    }

    pub fn neg(self) -> Number
        requires { Proper self }
        ensures { Makes result (neg_q self) }
    {
        Number {
            num: -self.num,
            ..self
        }
    }

    pub fn abs(self) -> Number
        requires { Proper self }
        ensures { Makes result (abs_q self) }
    {
        Number {
            num: self.num.abs(),
            ..self
        }
    }

    // The greatest whole number that is not above this one. Of a whole number that is itself, without a division.
    pub fn floor(self) -> Number
        requires { Proper self }
        ensures { Makes result (floor_q self) }
    {
        if self.den == 1 {
            return self;
        }
        Number::whole(self.num.div_euclid(self.den))
    }

    pub fn is_integer(self) -> bool
        ensures { result ≡ is_integer self }
    {
        self.den == 1
    }

    pub fn is_zero(self) -> bool
        ensures { result ≡ is_zero self }
    {
        self.num == 0
    }

    pub fn is_positive(self) -> bool
        ensures { result ≡ is_positive self }
    {
        0 < self.num
    }

    // Whether the product is a whole number. `strengthen` asks this alone, so the product itself need not be in range.
    pub fn is_integer_product(self, other: Number) -> bool
        requires { Proper self × Proper other }
        ensures { result ≡ is_integer (mul_q self other) }
    {
        magnitude(self.num * other.num) % magnitude(self.den * other.den) == 0
    }

    pub fn eq(self, other: Number) -> bool
        ensures { result ≡ eq_q self other }
    {
        self == other
    }

    // `less` and `less_eq` compare values. `PartialOrd` has a law that they can't keep, that it answers Equal just
    // where `==` holds: 1/2 is not 2/4.
    pub fn less(self, other: Number) -> bool
        requires { Proper self × Proper other }
        ensures { result ≡ less_q self other }
    {
        self.num * other.den < other.num * self.den
    }

    pub fn less_eq(self, other: Number) -> bool
        requires { Proper self × Proper other }
        ensures { result ≡ less_eq_q self other }
    {
        self.num * other.den <= other.num * self.den
    }

    // The number in the eight bytes at `at`: four of numerator, four of denominator. Bytes that hold no number, and
    // places where fewer than eight are left, read as 0.
    pub fn read(s: &[u8], at: usize) -> Number
        ensures { Makes result (number_at s.now at) }
    {
        if room(s, at, 8) {
            let n = signed(read_u32(s, at));
            let d = read_u32(s, at + 4);
            if 1 <= d {
                if let Some(q) = in_range(n, i64::from(d)) {
                    return q;
                }
            }
        }
        Number::whole(0)
    }

    // Puts the number into the eight bytes at `at`, where there are as many.
    pub fn write(self, s: &mut [u8], at: usize)
        ensures { s.new ≡ put_number self s.old at }
    {
        if room(s, at, 8) {
            write_u32(s, at, complement(self.num));
            write_u32(s, at + 4, complement(self.den));
        }
    }
}
