// What the answers' lines are made of.
use feeder::Answer;
use lexer::Token;
use refusals::Refusal;
use std::fmt;
use wide::Wide;

// In decimal, -2^127 too: what is shown is a token's value, and not the text that a print has for it.
fn value(w: Wide) -> i128 {
    (i128::from(w.hi) << 64) | i128::from(w.lo)
}

// A token's kind, the place where it starts, its length if that is its own, and an integer's value.
#[derive(Clone, Copy, Debug, PartialEq, Eq)]
pub struct Placed(pub Token, pub usize);

impl fmt::Display for Placed {
    fn fmt<W: fmt::Write>(&self, f: &mut fmt::Formatter<W>) -> fmt::Result {
        let start = self.1;
        match self.0 {
            Token::LParen => write!(f, "( {start}"),
            Token::RParen => write!(f, ") {start}"),
            Token::At => write!(f, "@ {start}"),
            Token::Symbol(len) => write!(f, "s {start} {len}"),
            Token::Int(w, len) => write!(f, "i {start} {len} {}", value(w)),
        }
    }
}

// What the feeder answers.
#[derive(Clone, Copy, Debug, PartialEq, Eq)]
pub struct Reply(pub Result<Answer, Refusal>);

impl fmt::Display for Reply {
    fn fmt<W: fmt::Write>(&self, f: &mut fmt::Formatter<W>) -> fmt::Result {
        match self.0 {
            Ok(Answer::More) => f.write_str("more"),
            Ok(Answer::End) => f.write_str("end"),
            Ok(Answer::Token(token, start)) => write!(f, "{}", Placed(token, start)),
            Err(r) => write!(f, "{r}"),
        }
    }
}
