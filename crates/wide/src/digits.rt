// The decimal digits of a number of two limbs: how many, and the digits themselves.
ghost use Rattle.std.specs.Prelude.{◌≡◌, ◌/◌, ◌%◌, ◌≤◌, length};
ghost use Rattle.lists.specs.Over.{over};
ghost use Rattle.wide.specs.Value.{val};
ghost use Rattle.wide.specs.Text.{digits_of};

use crate::Limbs;

#[derive(Clone, Copy, Debug, PartialEq, Eq)]
struct Tenth {
    rest: Limbs,
    digit: u8,
}

// A number of two limbs by ten, and its last digit: three divisions of one limb each.
fn by_ten(n: Limbs) -> Tenth
    ensures { (val result.rest ≡ val n / 10) × (result.digit ≡ val n % 10) }
{
    let a = n.hi % 10 * 0x1_0000_0000 + n.lo / 0x1_0000_0000;
    let b = a % 10 * 0x1_0000_0000 + n.lo % 0x1_0000_0000;
    Tenth {
        rest: Limbs {
            hi: n.hi / 10,
            lo: a / 10 * 0x1_0000_0000 + b / 10,
        },
        digit: (b % 10) as u8,
    }
}

// How many digits x has in decimal.
fn count_low(x: u64) -> usize
    ensures { result ≡ length (digits_of x) }
{
    match x.checked_ilog10() {
        Some(power) => power as usize + 1,
        None => 1,
    }
}

// How many digits n has in decimal: those above the low limb are split off first.
pub fn count(n: Limbs) -> usize
    ensures { result ≡ length (digits_of (val n)) }
{
    let mut rest = n;
    let mut k = 0;
    // No `for`: how often ten goes until the high limb is 0 is what the loop finds.
    while rest.hi > 0 {
        rest = by_ten(rest).rest;
        k += 1;
    }
    k + count_low(rest.lo)
}

// The k digits of x, from the last to the first, at the front of out. Apart from `put_digits`, as `count_low` from `count`: `by_ten` for each digit, with a case for
// one limb, took 36 % more instructions.
fn put_low(x: u64, k: usize, out: &mut [u8])
    requires { (k ≡ length (digits_of x)) × (k ≤ length out.old) }
    ensures { out.new ≡ over (digits_of x) out.old }
{
    let mut rest = x;
    for i in (1..k).rev() {
        out[i] = b'0' + (rest % 10) as u8;
        rest /= 10;
    }
    out[0] = b'0' + rest as u8;
}

// The k digits of n at the front of out: those above the low limb are split off first.
pub fn put_digits(n: Limbs, k: usize, out: &mut [u8])
    requires { (k ≡ length (digits_of (val n))) × (k ≤ length out.old) }
    ensures { out.new ≡ over (digits_of (val n)) out.old }
{
    let mut rest = n;
    let mut at = k;
    // No `for`, as in `count`; the place goes down from the last digit.
    while rest.hi > 0 {
        let t = by_ten(rest);
        at -= 1;
        out[at] = b'0' + t.digit;
        rest = t.rest;
    }
    put_low(rest.lo, at, out);
}
