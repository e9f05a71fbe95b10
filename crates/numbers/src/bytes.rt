// Lent bytes: one of them, whether two parts are the same, copies and zeros, and little-endian numbers. A reader or
// writer of numbers takes any bytes and any place: what does not lie wholly in the bytes reads as 0, and is not
// written.
ghost use Rattle.std.specs.Prelude.{◌≡◌, ◌+◌, ◌≤◌, ◌<◌, leb, length, get_or, take, drop, MatchOption};
ghost use Rattle.std.proofs.Math.Seq.{paste};
ghost use Rattle.numbers.specs.Bytes.{le, put, signed, complement, same_bytes, zeroed_from};

// Byte k; 0 past the end.
pub fn byte(s: &[u8], k: usize) -> u8
    ensures { result ≡ get_or s.now k 0 }
{
    s.get(k).copied().unwrap_or(0)
}

// Whether two parts have the same bytes.
pub fn same_bytes(a: &[u8], b: &[u8]) -> bool
    ensures { result ≡ same_bytes a.now b.now }
{
    a == b
}

// Puts bytes at `at`, where there is room for them.
pub fn paste(area: &mut [u8], at: usize, part: &[u8])
    requires { at + length part.now ≤ length area.old }
    ensures { area.new ≡ paste area.old at part.now
        (length part.now) }
{
    // `copy_from_slice` would ask the system's library for memmove
    for k in 0..part.len() {
        area[at + k] = part[k];
    }
}

// Zeros from byte n on.
pub fn clear_from(area: &mut [u8], n: usize)
    ensures { area.new ≡ zeroed_from n area.old }
{
    if n < area.len() {
        area[n..].fill(0);
    }
}

// ---- numbers

// Whether n bytes stand at `at`. Of the two tests the first is the same for all places: a loop over places makes it
// once.
pub fn room(s: &[u8], at: usize, n: usize) -> bool
    ensures { result ≡ leb (at + n) (length s.now) }
{
    n <= s.len() && at <= s.len() - n
}

// A byte as a wider number.
pub fn wide(x: u8) -> u32
    ensures { (result ≡ x) × (result < 256) }
{
    u32::from(x)
}

// The N bytes at `at`, if they are there.
fn bytes_at<const N: usize>(s: &[u8], at: usize) -> Option<[u8; N]>
    ensures { MatchOption result (length s.now < at + N) (λ a. (at + N ≤ length s.now) × (a ≡ take N (drop at s.now))) }
{
    if room(s, at, N) {
        s[at..at + N].try_into().ok()
    } else {
        None
    }
}

// The number in the two bytes at `at`.
pub fn read_u16(s: &[u8], at: usize) -> u32
    ensures { result ≡ le 2 s.now at }
{
    bytes_at(s, at).map_or(0, u16::from_le_bytes).into()
}

// The number in the four bytes at `at`.
pub fn read_u32(s: &[u8], at: usize) -> u32
    ensures { result ≡ le 4 s.now at }
{
    bytes_at(s, at).map_or(0, u32::from_le_bytes)
}

// The number in the eight bytes at `at`.
pub fn read_u64(s: &[u8], at: usize) -> u64
    ensures { result ≡ le 8 s.now at }
{
    bytes_at(s, at).map_or(0, u64::from_le_bytes)
}

// Puts the two low bytes of v at `at`.
pub fn write_u16(s: &mut [u8], at: usize, v: u32)
    ensures { s.new ≡ put 2 v s.old at }
{
    if room(s, at, 2) {
        paste(s, at, &v.to_le_bytes()[..2]);
    }
}

// Puts v into the four bytes at `at`.
pub fn write_u32(s: &mut [u8], at: usize, v: u32)
    ensures { s.new ≡ put 4 v s.old at }
{
    if room(s, at, 4) {
        paste(s, at, &v.to_le_bytes());
    }
}

// Four bytes read as two's complement.
pub fn signed(v: u32) -> i64
    ensures { result ≡ signed 4 v }
{
    i64::from(v.cast_signed())
}

// The four low bytes of n in two's complement.
pub fn complement(n: i64) -> u32
    ensures { result ≡ complement 4 n }
{
    n.rem_euclid(4294967296) as u32
}

// Eight bytes read as two's complement.
pub fn signed_u64(v: u64) -> i64
    ensures { result ≡ signed 8 v }
{
    v.cast_signed()
}
