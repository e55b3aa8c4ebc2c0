// Literals: an optional sign, an optional prefix, and digits in a radix.
ghost use Rattle.std.specs.Prelude.{◌≡◌, drop};
ghost use Rattle.wide.specs.Value.{val};
ghost use Rattle.lexer.specs.Tokens.{answer_of};
ghost use Rattle.lexer.specs.Literals.{Empty as NoDigit, taken, grow, reading, literal_end, radix_of, concluded};

use crate::{Lexed, Token};
use refusals::{Fault, Refusal};
use wide::Limbs;

// What the digits so far read as: the refusal of the first digit that is foreign or too much stays. No `Result` of an `Option`, for these are the three cases that
// a feeder's state keeps.
#[derive(Clone, Copy, Debug, PartialEq, Eq)]
pub enum Reading {
    Empty,
    Bad(Refusal),
    Number(Limbs),
}

// The digits from a place on, and the place past them.
#[derive(Clone, Copy, Debug, PartialEq, Eq)]
pub struct Digits {
    pub reading: Reading,
    pub end: usize,
}

#[tactic(auto, unfolding(crate::specs::Literals::taken), using(std::proofs::lemmas::Bool::Decides::nat_tests))]
fn taken(radix: u8, n: Limbs, d: u8, place: usize) -> Reading
    ensures { result ≡ taken radix (val n) d place }
{
    if radix <= d {
        return Reading::Bad(Fault::ForeignDigit.at(place));
    }
    match wide::grow(n, radix, d) {
        Some(k) => Reading::Number(k),
        None => Reading::Bad(Fault::TooLarge.at(place)),
    }
}

// One byte of a literal more, which stands at `place`.
#[tactic(auto, unfolding(crate::specs::Literals::grow, wide::specs::Value::val), using(std::proofs::lemmas::Bool::Decides::nat_tests))]
pub fn grow(radix: u8, x: Reading, b: u8, place: usize) -> Reading
    ensures { result ≡ grow radix x b place }
{
    if b == b'_' {
        return x;
    }
    let d = classes::digit_of(b);
    match x {
        Reading::Empty => taken(radix, Limbs { hi: 0, lo: 0 }, d, place),
        Reading::Bad(first) => Reading::Bad(first),
        Reading::Number(n) => taken(radix, n, d, place),
    }
}

// All the bytes of a literal that stand from `at` on.
#[tactic(auto, using(crate::proofs::Digits::turns, crate::proofs::Runs::max_end))]
pub fn digits_from(src: &[u8], at: usize, radix: u8) -> Digits
    ensures { (result.reading ≡ reading radix NoDigit (drop at src.now) at) × (result.end ≡ literal_end (drop at src.now) at) }
{
    let mut x = Reading::Empty;
    for i in at..src.len() {
        let b = src[i];
        if classes::is_literal_byte(b) {
            x = grow(radix, x, b, i);
        } else {
            return Digits { reading: x, end: i };
        }
    }
    Digits {
        reading: x,
        end: at.max(src.len()),
    }
}

// The radix that two bytes name, `0x`, `0o` or `0b` in either case, or 10.
#[tactic(auto, unfolding(crate::specs::Literals::radix_of), using(std::proofs::lemmas::Bool::Decides::nat_tests))]
pub fn radix_of(b: u8, c: u8) -> u8
    ensures { result ≡ radix_of b c }
{
    if b != b'0' {
        return 10;
    }
    match c {
        b'x' | b'X' => 16,
        b'o' | b'O' => 8,
        b'b' | b'B' => 2,
        _ => 10,
    }
}

// The answer for a literal from `start` up to `end`: the refusal of a digit names the digit, every other one the literal's start.
#[tactic(auto, unfolding(crate::specs::Literals::concluded))]
pub fn concluded(minus: bool, start: usize, end: usize, x: Reading) -> Result<Lexed, Refusal>
    ensures { answer_of result ≡ concluded minus start end x }
{
    match x {
        Reading::Empty => Err(Fault::NoDigits.at(start)),
        Reading::Bad(digit) => Err(digit),
        Reading::Number(n) => {
            let w = wide::with_sign(n, minus).ok_or(Fault::MinusLowest.at(start))?;
            Ok(Lexed::Token(Token::Int(w, end.saturating_sub(start)), start))
        }
    }
}
