// Integers of 128 bits: two unsigned limbs while digits are read, an i64 high limb and a u64 low limb once they have a sign; their text; 16 bytes.
#![tactic(auto)]

mod digits;

ghost use Rattle.std.specs.Prelude.{◌≡◌, ◌+◌, ◌-◌, ◌*◌, ◌/◌, ◌%◌, ◌^◌, ◌<◌, ◌≤◌, length, take, drop, pos, int_lt, unsigned_abs, MatchOption};
ghost use Rattle.std.specs.Int.{w64};
ghost use Rattle.std.proofs.Common.{of_z};
ghost use Rattle.lists.specs.Over.{over, fitted};
ghost use Rattle.wide.specs.Value.{val, value, grown, reduced, integer_of, signed_of};
ghost use Rattle.wide.specs.Text.{decimal, is_lowest, integer_text};
ghost use Rattle.wide.specs.Bytes.{le, number_at, number_in, wide_bytes, wide_in};

// Two types: a high limb with a sign, as document 01 wants it, and one that has none yet.
#[derive(Clone, Copy, Debug, PartialEq, Eq)]
pub struct Limbs {
    pub hi: u64,
    pub lo: u64,
}

#[derive(Clone, Copy, Debug, PartialEq, Eq)]
pub struct Wide {
    pub hi: i64,
    pub lo: u64,
}

// The bits of z: `cast_unsigned` by the name of a public promise.
pub fn as_unsigned(z: i64) -> u64
    ensures { result ≡ of_z w64 z }
{
    z.cast_unsigned()
}

// The high limb alone has the sign.
pub fn negative(w: Wide) -> bool
    ensures { result ≡ int_lt (value w) (pos 0) }
{
    w.hi < 0
}

// Minus n, modulo 2^128: each limb wraps, and a low limb that is not 0 borrows from the high one.
fn negated(n: Limbs) -> Limbs
    ensures { val result ≡ (2 ^ 128 - val n) % 2 ^ 128 }
{
    let (lo, borrow) = 0u64.overflowing_sub(n.lo);
    let hi = 0u64.wrapping_sub(n.hi).wrapping_sub(u64::from(borrow));
    Limbs { hi, lo }
}

// The 128 bits, read with a sign. No From: `magnitude` is the other way to read them.
fn wide_of(n: Limbs) -> Wide
    ensures { value result ≡ reduced (val n) }
{
    Wide {
        hi: n.hi.cast_signed(),
        lo: n.lo,
    }
}

// The limbs of 2^127, and the bits of -2^127.
const LOWEST: Limbs = Limbs {
    hi: 0x8000_0000_0000_0000,
    lo: 0,
};

// n or, with a minus, minus n, modulo 2^128; with a minus, 2^127 is refused.
pub fn with_sign(n: Limbs, minus: bool) -> Option<Wide>
    ensures { signed_of result ≡ integer_of minus (val n) }
{
    if !minus {
        return Some(wide_of(n));
    }
    if n == LOWEST {
        return None;
    }
    Some(wide_of(negated(n)))
}

// n times the radix, plus a digit, if 128 bits hold it. Below 2^56 one product of 64 bits holds it; most literals stay there.
pub fn grow(n: Limbs, radix: u8, digit: u8) -> Option<Limbs>
    ensures { result ≡ grown (val n * radix + digit) }
{
    let by = radix as u64;
    let plus = digit as u64;
    if n.hi == 0 && n.lo < 0x100_0000_0000_0000 {
        let lo = n.lo * by + plus;
        return Some(Limbs { hi: 0, lo });
    }
    let (lo, carry) = n.lo.carrying_mul(by, plus);
    let (hi, over) = n.hi.carrying_mul(by, carry);
    if over == 0 {
        return Some(Limbs { hi, lo });
    }
    None
}

// The 128 bits that the magnitude of w has.
fn magnitude(w: Wide) -> Limbs
    ensures { val result ≡ unsigned_abs (value w) }
{
    let hi = as_unsigned(w.hi);
    let bits = Limbs { hi, lo: w.lo };
    if negative(w) {
        return negated(bits);
    }
    bits
}

// How many bytes w takes in decimal.
fn decimal_len(w: Wide) -> usize
    ensures { result ≡ length (decimal (value w)) }
{
    let k = digits::count(magnitude(w));
    if negative(w) {
        return k + 1;
    }
    k
}

// Puts w in decimal at the front of out and answers its length; a room that is too short stays as it was.
fn put_decimal(w: Wide, out: &mut [u8]) -> usize
    ensures { (result ≡ length (decimal (value w))) × (out.new ≡ fitted (decimal (value w)) out.old) }
{
    let n = magnitude(w);
    let k = digits::count(n);
    if negative(w) {
        if out.len() <= k {
            return k + 1;
        }
        out[0] = b'-';
        digits::put_digits(n, k, &mut out[1..]);
        return k + 1;
    }
    if out.len() < k {
        return k;
    }
    digits::put_digits(n, k, out);
    k
}

// Whether w is -2^127, the one integer whose text is not decimal: with a minus sign it would not read back.
fn is_lowest(w: Wide) -> bool
    ensures { result ≡ is_lowest (value w) }
{
    w == wide_of(LOWEST)
}

// How many bytes the text of w takes.
pub fn text_len(w: Wide) -> usize
    ensures { result ≡ length (integer_text (value w)) }
{
    if is_lowest(w) {
        return 34;
    }
    decimal_len(w)
}

// Puts the text of w at the front of out and answers its length; a room that is too short stays as it was.
pub fn put_text(w: Wide, out: &mut [u8]) -> usize
    ensures { (result ≡ length (integer_text (value w))) × (out.new ≡ fitted (integer_text (value w)) out.old) }
{
    if is_lowest(w) {
        return lists::put(b"0x80000000000000000000000000000000", out);
    }
    put_decimal(w, out)
}

// Puts the K lowest bytes of x at the front of out, the least first; a room that is too short stays as it was.
fn put_le<const K: usize>(x: u64, out: &mut [u8])
    requires { K ≤ 8 }
    ensures { out.new ≡ fitted (le K x) out.old }
{
    match out.first_chunk_mut::<K>() {
        Some(front) => *front = *x.to_le_bytes().first_chunk::<K>().unwrap(),
        None => {}
    }
}

// Puts the two lowest bytes of n at the front of out; a room that is too short stays as it was.
pub fn put_u16(n: usize, out: &mut [u8])
    ensures { out.new ≡ fitted (le 2 n) out.old }
{
    put_le::<2>(n as u64, out);
}

// Puts the four lowest bytes of n at the front of out; a room that is too short stays as it was.
pub fn put_u32(n: usize, out: &mut [u8])
    ensures { out.new ≡ fitted (le 4 n) out.old }
{
    put_le::<4>(n as u64, out);
}

// Puts the sixteen bytes of w's two's complement at the front of out; a room that is too short stays as it was.
pub fn put_wide(w: Wide, out: &mut [u8])
    ensures { out.new ≡ fitted (wide_bytes (value w)) out.old }
{
    if out.len() < 16 {
        return;
    }
    put_le::<8>(w.lo, out);
    put_le::<8>(w.hi.cast_unsigned(), &mut out[8..]);
}

// The N bytes from `at` on, if so many are left.
fn bytes_at<const N: usize>(t: &[u8], at: usize) -> Option<&[u8; N]>
    ensures { MatchOption result (length t.now < at + N) (λ b. (at + N ≤ length t.now) × (b.now ≡ take N (drop at t.now))) }
{
    // The room is asked for once, and of N bytes whether they are N costs nothing: `t.get(at..)?.first_chunk()` made a print 6 % slower.
    if t.len().checked_sub(N)? < at {
        return None;
    }
    t[at..at + N].first_chunk()
}

// The number in the two bytes from `at` on, or 0 where fewer are left: no Option, for `number_in` is the public promise. Beside `u32_at`, since `from_le_bytes` is of no trait.
pub fn u16_at(t: &[u8], at: usize) -> usize
    ensures { result ≡ number_in 2 t.now at }
{
    match bytes_at(t, at) {
        Some(bytes) => u16::from_le_bytes(*bytes) as usize,
        None => 0,
    }
}

// The number in the four bytes from `at` on, or 0 where fewer are left, as in `u16_at`.
pub fn u32_at(t: &[u8], at: usize) -> usize
    ensures { result ≡ number_in 4 t.now at }
{
    match bytes_at(t, at) {
        Some(bytes) => u32::from_le_bytes(*bytes) as usize,
        None => 0,
    }
}

// The integer in the sixteen bytes from `at` on, or 0 where fewer are left: `wide_in` is the public promise.
pub fn wide_at(t: &[u8], at: usize) -> Wide
    ensures { value result ≡ wide_in t.now at }
{
    match bytes_at::<16>(t, at) {
        Some(bytes) => wide_of(Limbs {
            hi: u64::from_le_bytes(*bytes.last_chunk().unwrap()),
            lo: u64::from_le_bytes(*bytes.first_chunk().unwrap()),
        }),
        None => Wide { hi: 0, lo: 0 },
    }
}
