// Every answer of the doors for C as eight words: kind; start or place; length or number; an integer's high and low 64 bits; bytes consumed; a count; whose file a setting is from (tulbazhik_settings), else 0.
#![tactic(auto)]

ghost use Rattle.std.specs.Prelude.{◌≡◌};
ghost use Rattle.lexer.specs.Tokens.{token_of, answer_of};
ghost use Rattle.feeder.specs.Feeding.{reply_of};
ghost use Rattle.words.specs.Words.{kind_word, token_words, refused_words, done_words, text_words, answer_words, reply_words};

use feeder::{Answer, Out};
use lexer::{Lexed, Token};
use refusals::Refusal;

// The kinds of answers: numbers by the names of the header for C, which host/check compares.
pub const END: u64 = 0;

pub const LPAREN: u64 = 1;

pub const RPAREN: u64 = 2;

pub const AT: u64 = 3;

pub const SYMBOL: u64 = 4;

pub const INT: u64 = 5;

pub const REFUSED: u64 = 6;

pub const MORE: u64 = 7;

pub const DONE: u64 = 8;

// No From: the number is the header's and not the token's.
fn kind_of(t: Token) -> u64
    ensures { result ≡ kind_word (token_of t 0).kind }
{
    match t {
        Token::LParen => LPAREN,
        Token::RParen => RPAREN,
        Token::At => AT,
        Token::Symbol(_) => SYMBOL,
        Token::Int(..) => INT,
    }
}

fn size_of(t: Token) -> u64
    ensures { result ≡ (token_of t 0).size }
{
    match t {
        Token::LParen | Token::RParen | Token::At => 1,
        // Two arms: as one, the ways of symbols and integers meet (tried: 5 % more instructions a token).
        Token::Symbol(n) => n as u64,
        Token::Int(_, n) => n as u64,
    }
}

// A token, and the bytes consumed. An integer's limbs are written over the zeros that all other tokens have there: so the compiler keeps the two apart.
pub fn put_token(t: Token, start: usize, used: usize, answer: &mut [u64; 8])
    ensures { answer.new ≡ token_words (token_of t start) used }
{
    *answer = [
        kind_of(t),
        start as u64,
        size_of(t),
        0,
        0,
        used as u64,
        0,
        0,
    ];
    if let Token::Int(w, _) = t {
        answer[3] = wide::as_unsigned(w.hi);
        answer[4] = w.lo;
    }
}

// A refusal, and the bytes consumed.
pub fn put_refusal(r: Refusal, used: usize, answer: &mut [u64; 8])
    ensures { answer.new ≡ refused_words r.number r.place used }
{
    *answer = [
        REFUSED,
        r.place as u64,
        r.number as u64,
        0,
        0,
        used as u64,
        0,
        0,
    ];
}

// So many bytes were written into the room lent.
pub fn put_length(n: usize, answer: &mut [u64; 8])
    ensures { answer.new ≡ done_words n }
{
    *answer = [DONE, 0, n as u64, 0, 0, 0, 0, 0];
}

// The same of a text, with the records that the fits test looked at: a word of its own in the header for C.
pub fn put_text(n: usize, looked: usize, answer: &mut [u64; 8])
    ensures { answer.new ≡ text_words n looked }
{
    *answer = [DONE, 0, n as u64, 0, 0, 0, looked as u64, 0];
}

// The uncut lexer's answer.
#[tactic(auto, unfolding(crate::specs::Words::answer_words))]
pub fn put_lexed(l: Result<Lexed, Refusal>, answer: &mut [u64; 8])
    ensures { answer.new ≡ answer_words (answer_of l) }
{
    match l {
        Ok(Lexed::End) => {
            *answer = [END, 0, 0, 0, 0, 0, 0, 0];
        }
        Ok(Lexed::Token(t, start)) => put_token(t, start, 0, answer),
        Err(r) => put_refusal(r, 0, answer),
    }
}

// A call's answer, and the bytes consumed.
#[tactic(auto, unfolding(crate::specs::Words::reply_words))]
pub fn put_out(o: Out, answer: &mut [u64; 8])
    ensures { answer.new ≡ reply_words (reply_of o.answer) o.used }
{
    let used = o.used;
    match o.answer {
        Ok(Answer::More) => {
            *answer = [MORE, 0, 0, 0, 0, used as u64, 0, 0];
        }
        Ok(Answer::End) => {
            *answer = [END, 0, 0, 0, 0, used as u64, 0, 0];
        }
        Ok(Answer::Token(t, start)) => put_token(t, start, used, answer),
        Err(r) => put_refusal(r, used, answer),
    }
}
