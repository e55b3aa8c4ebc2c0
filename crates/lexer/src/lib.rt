// The uncut lexer, a port of the crate's `Lexer::next_token`: skip blanks and comments, then one token.
#![tactic(auto)]

pub mod literal;

ghost use Rattle.std.specs.Prelude.{◌≡◌, true, false, ◌+◌, ◌-◌, ◌≤◌, ◌<◌, length, drop};
ghost use Rattle.classes.specs.Classes.{class_of};
ghost use Rattle.refusals.specs.Numbers.{source_limit};
ghost use Rattle.lexer.specs.Tokens.{answer_of};
ghost use Rattle.lexer.specs.Literals.{unsigned_in};
ghost use Rattle.lexer.specs.Lexing.{InBlock, lex_at, next_token};
ghost use Rattle.lexer.specs.Gaps.{skip_in, gap_end};
ghost use Rattle.lexer.specs.PrivateBlocks.{mark_of, block_left, Beyond};

use classes::Class;
use refusals::{Fault, Refusal};
use wide::Wide;

#[derive(Clone, Copy, Debug, PartialEq, Eq)]
pub enum Token {
    LParen,
    RParen,
    At,
    // A symbol: its length.
    Symbol(usize),
    // A literal: its integer, and the length of its whole spelling.
    Int(Wide, usize),
}

// What lexing comes to where nothing is refused. The form of document 01: `Token` is an enum inside the answer's enum.
#[derive(Clone, Copy, Debug, PartialEq, Eq)]
pub enum Lexed {
    // The next token, and its start.
    Token(Token, usize),
    End,
}

// What two bytes of a block comment are together. `Neither` is a case and no None: the loop steps by each of the three.
#[derive(Clone, Copy, Debug, PartialEq, Eq)]
enum Mark {
    Opener,
    Closer,
    Neither,
}

fn mark_of(b: u8, c: u8) -> Mark
    ensures { result ≡ mark_of (class_of b) (class_of c) }
{
    if classes::is_lparen(b) && classes::is_semicolon(c) {
        Mark::Opener
    } else if classes::is_semicolon(b) && classes::is_rparen(c) {
        Mark::Closer
    } else {
        Mark::Neither
    }
}

// The place past the block comment whose `(;` stands at `start`, or none where it is never closed.
#[tactic(auto, using(crate::proofs::Comments::turns))]
fn block_end(src: &[u8], start: usize) -> Option<usize>
    requires { start + 2 ≤ length src.now }
    ensures { Beyond result start × (block_left result src.now start ≡ skip_in 0 (InBlock 1 start) (drop (start + 2) src.now) (start + 2)) }
{
    let mut i = start + 2;
    let mut depth: usize = 1;
    // A scanner and no `for`: the two bytes there decide the step.
    while i < src.len() {
        match mark_of(src[i], lists::byte_at(src, i + 1)) {
            Mark::Opener => {
                depth += 1;
                i += 2;
            }
            Mark::Closer => {
                if depth <= 1 {
                    return Some(i + 2);
                }
                depth -= 1;
                i += 2;
            }
            Mark::Neither => {
                i += 1;
            }
        }
    }
    None
}

// The place where what comes next begins, behind blanks and comments; of a block comment that is never closed, its own.
#[tactic(auto, using(crate::proofs::Runs::line_run_lem, crate::proofs::Starts::skips))]
fn gap_from(src: &[u8], at: usize) -> usize
    ensures { result ≡ gap_end src.now at }
{
    let mut i = at;
    // A scanner and no `for`: what the byte begins decides the step.
    while i < src.len() {
        let b = src[i];
        if classes::is_blank(b) {
            i += 1;
        } else if classes::is_semicolon(b) {
            i = classes::runs::line_end(src, i + 1);
        } else if classes::is_lparen(b) && classes::is_semicolon(lists::byte_at(src, i + 1)) {
            let Some(j) = block_end(src, i) else {
                return i;
            };
            i = j;
        } else {
            return i;
        }
    }
    i
}

// The same. Most gaps are blanks alone: any other is left to the routine above, so that the compiler takes this one into a caller's loop. Without it reading
// real.isle took 34.9 instructions a byte in place of 33.2, and with a `for` in it 35.7.
#[tactic(auto, using(crate::proofs::Starts::skips))]
pub fn gap_end(src: &[u8], at: usize) -> usize
    ensures { result ≡ gap_end src.now at }
{
    let mut i = at;
    while i < src.len() {
        let b = src[i];
        if classes::is_blank(b) {
            i += 1;
        } else if classes::is_semicolon(b) {
            return gap_from(src, i);
        } else if classes::is_lparen(b) && classes::is_semicolon(lists::byte_at(src, i + 1)) {
            return gap_from(src, i);
        } else {
            return i;
        }
    }
    i
}

// The literal from `start` whose prefix or digits stand at `at`.
#[tactic(auto, using(crate::proofs::Starts::unsigned_placed, std::proofs::lemmas::Bool::Decides::nat_tests))]
fn unsigned_at(src: &[u8], minus: bool, start: usize, at: usize) -> Result<Lexed, Refusal>
    requires { at ≤ length src.now }
    ensures { answer_of result ≡ unsigned_in minus start (drop at src.now) at }
{
    let radix = literal::radix_of(lists::byte_at(src, at), lists::byte_at(src, at + 1));
    let first = if radix == 10 { at } else { at + 2 };
    let d = literal::digits_from(src, first, radix);
    literal::concluded(minus, start, d.end, d.reading)
}

// The next token from a place on, whatever byte it begins with, by its class.
#[inline(never)]
#[tactic(auto, using(crate::proofs::Runs::symbol_run_lem, crate::proofs::Skips::gaps, crate::proofs::Starts::nexts))]
fn token_from(src: &[u8], at: usize) -> Result<Lexed, Refusal>
    ensures { answer_of result ≡ lex_at src.now at }
{
    let i = gap_from(src, at);
    if src.len() <= i {
        return Ok(Lexed::End);
    }
    match classes::class_of(src[i]) {
        // A gap ends at none of these three.
        Class::Space | Class::LineEnd | Class::Semicolon => unreachable!(),
        Class::LParen => {
            if classes::is_semicolon(lists::byte_at(src, i + 1)) {
                return Err(Fault::OpenComment.at(i));
            }
            Ok(Lexed::Token(Token::LParen, i))
        }
        Class::RParen => Ok(Lexed::Token(Token::RParen, i)),
        Class::AtSign => Ok(Lexed::Token(Token::At, i)),
        Class::FormFeed => Err(Fault::FormFeed.at(i)),
        Class::Minus => unsigned_at(src, true, i, i + 1),
        Class::Digit => unsigned_at(src, false, i, i),
        Class::Other => {
            let len = classes::runs::symbol_end(src, i + 1) - i;
            Ok(Lexed::Token(Token::Symbol(len), i))
        }
    }
}

// The same, called from a body of its own: room for a callee's answer is cleared where the body that calls it begins, and this one begins only where the loop
// below has come to it.
#[inline(always)]
fn token_apart(src: &[u8], at: usize) -> Result<Lexed, Refusal>
    ensures { answer_of result ≡ lex_at src.now at }
{
    token_from(src, at)
}

// The next token of the source from a place on, with its start; the end; or a refusal. The loop is for the bytes that most tokens begin with, the rest is left to
// `token_from`: with one `match` for all bytes lexing real.isle took 15.9 instructions a byte in place of 13.3.
#[tactic(auto, unfolding(crate::specs::Lexing::next_token), using(crate::proofs::Runs::line_run_lem, crate::proofs::Runs::symbol_run_lem, crate::proofs::Skips::lexed_at, crate::proofs::Starts::told, crate::proofs::Starts::skips, crate::proofs::Starts::nexts))]
pub fn next_token(src: &[u8], at: usize) -> Result<Lexed, Refusal>
    ensures { answer_of result ≡ next_token src.now at }
{
    if refusals::SOURCE_LIMIT < src.len() {
        return Err(Fault::TooLong.at(refusals::SOURCE_LIMIT));
    }
    if src.len() < at {
        return Err(Fault::PastSource.at(src.len()));
    }
    let mut i = at;
    // A scanner and no `for`: what the byte begins decides the step.
    while i < src.len() {
        let b = src[i];
        if classes::is_blank(b) {
            i += 1;
        } else if classes::is_high(b) {
            let len = classes::runs::symbol_end(src, i + 1) - i;
            return Ok(Lexed::Token(Token::Symbol(len), i));
        } else if classes::is_rparen(b) {
            return Ok(Lexed::Token(Token::RParen, i));
        } else if classes::is_semicolon(b) {
            i = classes::runs::line_end(src, i + 1);
        } else if classes::is_lparen(b) && !classes::is_semicolon(lists::byte_at(src, i + 1)) {
            return Ok(Lexed::Token(Token::LParen, i));
        } else {
            return token_apart(src, i);
        }
    }
    Ok(Lexed::End)
}
