// What a byte is: a table of the class of every byte, and the tests that loops over runs of bytes ask. One computed test over all 256 bytes proves them all.
#![tactic(auto)]

mod numbers;
pub mod runs;

ghost use Rattle.std.specs.Prelude.{◌≡◌};
ghost use Rattle.classes.specs.Classes.{class_of, blank, line_end, semicolon, lparen, rparen, is_at_sign, symbol_first, symbol_other, high, digit_of, literal_byte};
ghost use Rattle.classes.specs.Numbers.{named};

#[derive(Clone, Copy, Debug, PartialEq, Eq)]
pub enum Class {
    Space,
    LineEnd,
    Semicolon,
    LParen,
    RParen,
    AtSign,
    FormFeed,
    Minus,
    Digit,
    // Every other byte: it begins a symbol.
    Other,
}

// The class that a number of the table names.
impl From<u8> for Class {
    ghost from_gives = { λ n class. class ≡ named n };

    #[tactic(auto, unfolding(crate::specs::Numbers::named))]
    fn from(n: u8) -> Class {
        match n {
            0 => Class::Space,
            1 => Class::LineEnd,
            2 => Class::Semicolon,
            3 => Class::LParen,
            4 => Class::RParen,
            5 => Class::AtSign,
            6 => Class::FormFeed,
            7 => Class::Minus,
            8 => Class::Digit,
            _ => Class::Other,
        }
    }
}

// Unfolded so that a branch on a byte is proved too, such as the edit form_feed_blank and its twin have.
#[tactic(auto, unfolding(crate::specs::Classes::class_of))]
pub fn class_of(b: u8) -> Class
    ensures { result ≡ class_of b }
{
    Class::from(numbers::number_of(b))
}

// The same by the name of a public promise (`classes_class_in_loop` of demands); nothing calls it.
pub fn class_in_loop(b: u8) -> Class
    ensures { result ≡ class_of b }
{
    class_of(b)
}

pub fn is_blank(b: u8) -> bool
    ensures { result ≡ blank (class_of b) }
{
    numbers::number_of(b) <= 1
}

pub fn is_line_end(b: u8) -> bool
    ensures { result ≡ line_end (class_of b) }
{
    b == b'\n' || b == b'\r'
}

pub fn is_semicolon(b: u8) -> bool
    ensures { result ≡ semicolon (class_of b) }
{
    b == b';'
}

pub fn is_lparen(b: u8) -> bool
    ensures { result ≡ lparen (class_of b) }
{
    b == b'('
}

pub fn is_rparen(b: u8) -> bool
    ensures { result ≡ rparen (class_of b) }
{
    b == b')'
}

pub fn is_at_sign(b: u8) -> bool
    ensures { result ≡ is_at_sign (class_of b) }
{
    b == b'@'
}

// A byte above `@`: each begins a symbol and goes on in one.
pub fn is_high(b: u8) -> bool
    ensures { result ≡ high b }
{
    b'@' < b
}

pub fn is_sym_first_char(b: u8) -> bool
    ensures { result ≡ symbol_first (class_of b) }
{
    9 <= numbers::number_of(b)
}

pub fn is_sym_other_char(b: u8) -> bool
    ensures { result ≡ symbol_other (class_of b) }
{
    7 <= numbers::number_of(b)
}

// The digit's value, or 16, which is below no radix: `digit_of` of specs/Classes has it so. By a `match` of ranges source of many literals took 9 % more
// instructions.
#[tactic(auto, unfolding(crate::specs::Classes::digit_of), using(std::proofs::lemmas::Bool::Decides::nat_tests))]
pub fn digit_of(b: u8) -> u8
    ensures { result ≡ digit_of b }
{
    if b'0' <= b && b <= b'9' {
        return b - b'0';
    }
    if b'a' <= b && b <= b'f' {
        return b - b'a' + 10;
    }
    if b'A' <= b && b <= b'F' {
        return b - b'A' + 10;
    }
    16
}

// By the numbers of the table source of many literals took 10 % more instructions, with `||` 3 % more.
#[tactic(auto, unfolding(crate::specs::Classes::literal_byte))]
pub fn is_literal_byte(b: u8) -> bool
    ensures { result ≡ literal_byte b }
{
    (b == b'_') | (digit_of(b) <= 15)
}
