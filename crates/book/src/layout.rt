// Refusal 3: the layout of a record. Unused bytes are 0.
ghost use Rattle.std.specs.Prelude.{◌≡◌, take};
ghost use Rattle.terms.specs.Book.{all_zero, unused, count_ok, all_below, numbers, integer_ok};
ghost use Rattle.terms.specs.Book.{real_ok, vector_ok, atom_ok, arguments_ok, operation_ok, layout_ok};

use numbers::bytes::{byte, read_u16, read_u64, signed_u64};
use numbers::number::{gcd, magnitude};
use terms::fields::{is_number, is_vector, is_width};
use terms::format::{
    ARGS_AT, ATOM, BIT_VECTOR, BITS_SORT, BOOL_SORT, COUNT_AT, FIELDS_END, FIRST_AT, INTEGER,
    MAX_ARGS, OPERATION, OPERATOR_AT, REAL, REAL_SORT, RECORD_BYTES, SECOND_AT, SORT_AT,
};
use terms::operator::{BV_MUL, BV_NEG, BV_SUB, INT_DIV, NOT, REAL_DIV, SUB, TO_REAL};
use terms::records::arg_bytes;

// Whether the first n bytes are 0.
fn all_zero(s: &[u8], n: usize) -> bool
    ensures { result ≡ all_zero (take n s.now) }
{
    s.iter().take(n).all(|&x| x == 0)
}

// Whether the n bytes at k are unused.
fn unused(r: &[u8], k: usize, n: usize) -> bool
    ensures { result ≡ unused n r.now k }
{
    r.len() < k || all_zero(&r[k..], n)
}

fn integer_ok(r: &[u8]) -> bool
    ensures { result ≡ integer_ok r.now }
{
    unused(r, OPERATOR_AT, 3)
        && unused(r, SECOND_AT, 20)
        && is_number(signed_u64(read_u64(r, FIRST_AT)), 1)
}

fn real_ok(r: &[u8]) -> bool
    ensures { result ≡ real_ok r.now }
{
    let n = signed_u64(read_u64(r, FIRST_AT));
    let d = signed_u64(read_u64(r, SECOND_AT));
    unused(r, OPERATOR_AT, 3)
        && unused(r, FIELDS_END, 12)
        && is_number(n, d)
        && gcd(magnitude(n), magnitude(d)) == 1
}

fn vector_ok(r: &[u8]) -> bool
    ensures { result ≡ vector_ok r.now }
{
    unused(r, OPERATOR_AT, 3) && unused(r, FIELDS_END, 12) && is_vector(r)
}

fn atom_ok(r: &[u8]) -> bool
    ensures { result ≡ atom_ok r.now }
{
    let w = read_u64(r, SECOND_AT);
    unused(r, OPERATOR_AT, 2)
        && unused(r, FIELDS_END, 12)
        && match byte(r, SORT_AT) {
            BITS_SORT => is_width(w),
            BOOL_SORT..=REAL_SORT => w == 0,
            _ => false,
        }
}

// Whether an operator takes n arguments.
fn count_ok(o: u8, n: u8) -> bool
    ensures { result ≡ count_ok o n }
{
    match o {
        NOT | TO_REAL | BV_NEG => n == 1,
        INT_DIV | REAL_DIV | BV_SUB => n == 2,
        SUB => 1 <= n && n <= MAX_ARGS,
        _ => 2 <= n && n <= MAX_ARGS,
    }
}

// Whether each argument is a record before `id`.
fn all_below(args: &[u8], id: usize) -> bool
    ensures { result ≡ all_below id (numbers args.now) }
{
    for k in 0..args.len() / 2 {
        if id <= read_u16(args, 2 * k) as usize {
            return false;
        }
    }
    true
}

// Whether an operation's arguments are as many as its operator takes, and earlier records.
fn arguments_ok(r: &[u8], id: usize) -> bool
    ensures { result ≡ arguments_ok id r.now }
{
    let n = byte(r, COUNT_AT);
    let used = 2 * usize::from(n);
    count_ok(byte(r, OPERATOR_AT), n)
        && byte(r, SORT_AT) == 0
        && unused(r, ARGS_AT + used, RECORD_BYTES - ARGS_AT - used)
        && all_below(arg_bytes(r), id)
}

fn operation_ok(r: &[u8], id: usize) -> bool
    ensures { result ≡ operation_ok id r.now }
{
    matches!(byte(r, OPERATOR_AT), NOT..=BV_MUL) && arguments_ok(r, id)
}

// Whether record `id` with bytes r is laid out as document 01 says.
pub fn layout_ok(r: &[u8], id: usize) -> bool
    ensures { result ≡ layout_ok id r.now }
{
    match byte(r, 0) {
        INTEGER => integer_ok(r),
        REAL => real_ok(r),
        BIT_VECTOR => vector_ok(r),
        ATOM => atom_ok(r),
        OPERATION => operation_ok(r, id),
        _ => false,
    }
}
