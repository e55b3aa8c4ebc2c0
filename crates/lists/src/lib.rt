// Lists and buffers: what every crate says and knows of bytes in a slice.
#![tactic(auto)]

ghost use Rattle.std.specs.Prelude.{◌≡◌, ◌+◌, ◌-◌, ◌≤◌, length, take, get_or};
ghost use Rattle.lists.specs.Over.{over, fitted};

// The byte at i, or 0 past the end: no Option, for that is the public promise.
pub fn byte_at(s: &[u8], i: usize) -> u8
    ensures { result ≡ get_or s.now i 0 }
{
    s.get(i).copied().unwrap_or(0)
}

// What a is above b, or 0: `saturating_sub` by the name of a public promise (`lists_less` of demands).
pub fn less(a: usize, b: usize) -> usize
    ensures { result ≡ a - b }
{
    a.saturating_sub(b)
}

// The lesser of two: `min` by the name of a public promise (`lists_least` of demands).
pub fn least(a: usize, b: usize) -> usize
    ensures { (result ≤ b) × (a ≤ b → result ≡ a) × (b ≤ a → result ≡ b) }
{
    a.min(b)
}

// The first N bytes, read as an array before one is written, so that they go as one number: `copy_from_slice` asks first whether the two overlap (tried: 39 % more
// instructions a short put).
fn put_first<const N: usize>(s: &[u8], out: &mut [u8])
    requires { (N ≤ length s.now) × (N ≤ length out.old) }
    ensures { out.new ≡ over (take N s.now) out.old }
{
    *out.first_chunk_mut::<N>().unwrap() = *s.first_chunk::<N>().unwrap();
}

// All of s, of at least N bytes and at most twice as many: the first N and the last N, and what is put twice is put the same.
fn put_ends<const N: usize>(s: &[u8], out: &mut [u8])
    requires { (N ≤ length s.now) × (length s.now ≤ N + N) × (length s.now ≤ length out.old) }
    ensures { out.new ≡ over s.now out.old }
{
    let k = s.len() - N;
    put_first::<N>(s, out);
    put_first::<N>(&s[k..], &mut out[k..]);
}

// At most three bytes; apart from `put`, so that the lengths of most symbols are tested first.
fn put_few(s: &[u8], out: &mut [u8])
    requires { (length s.now ≤ 3) × (length s.now ≤ length out.old) }
    ensures { out.new ≡ over s.now out.old }
{
    match s.len() {
        0 => {}
        1 => put_first::<1>(s, out),
        _ => put_ends::<2>(s, out),
    }
}

// Puts s at the front of a room that has its bytes; a shorter one stays. Most symbols are short: up to 16 bytes go by their two ends. It is a call, since in line its
// callers save registers for the long copies (tried: 37 % more instructions a short put).
#[inline(never)]
pub fn put(s: &[u8], out: &mut [u8]) -> usize
    ensures { (result ≡ length s.now) × (out.new ≡ fitted s.now out.old) }
{
    let n = s.len();
    if out.len() < n {
        return n;
    }
    match n {
        0..=3 => put_few(s, out),
        4..=8 => put_ends::<4>(s, out),
        9..=16 => put_ends::<8>(s, out),
        _ => out[..n].copy_from_slice(s),
    }
    n
}
