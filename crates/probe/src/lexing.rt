// The op L: all tokens of a source from a place on.
use crate::Case;
use crate::lines::Placed;
use lexer::{Lexed, Token};
use std::io;
use std::io::Write;

// More tokens than a source can have.
const TURNS: usize = 1200000;

// Not the door's: what runs the proved code leans on no door.
fn length_of(t: Token) -> usize {
    match t {
        Token::LParen | Token::RParen | Token::At => 1,
        Token::Symbol(len) | Token::Int(_, len) => len,
    }
}

pub fn tokens(to: &mut impl Write, case: Case<'_>) -> io::Result<()> {
    let mut at = case.a;
    for _ in 0..TURNS {
        match lexer::next_token(case.src, at) {
            Ok(Lexed::Token(token, start)) => {
                writeln!(to, "{}", Placed(token, start))?;
                at = start.wrapping_add(length_of(token));
            }
            Ok(Lexed::End) => return writeln!(to, "end"),
            Err(r) => return writeln!(to, "{r}"),
        }
    }
    Ok(())
}
