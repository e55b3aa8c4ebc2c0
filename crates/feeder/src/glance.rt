// The next token at a glance: one that the piece decides alone is seen without a walk through the modes.
ghost use Rattle.std.specs.Prelude.{◌≡◌, ◌<◌, length, not, position};
ghost use Rattle.classes.specs.Classes.{class_of, blank};
ghost use Rattle.feeder.specs.PrivateRuns.{token_by, Ran, Shown};

use lexer::Token;

// A token's bytes in the piece, from `start` up to `end`.
#[derive(Clone, Copy, Debug, PartialEq, Eq)]
pub struct Seen {
    pub start: usize,
    pub end: usize,
}

// The token that begins with the byte b and is n bytes long.
pub fn token_by(b: u8, n: usize) -> Token
    ensures { result ≡ token_by b n }
{
    if classes::is_lparen(b) {
        return Token::LParen;
    }
    if classes::is_rparen(b) {
        return Token::RParen;
    }
    if classes::is_at_sign(b) {
        return Token::At;
    }
    Token::Symbol(n)
}

// The symbol that begins at j, if the piece also has the byte that ends it.
fn symbol_to(piece: &[u8], j: usize) -> Option<Seen>
    requires { j < length piece.now }
    ensures { Ran piece.now j result }
{
    let k = classes::runs::symbol_end(piece, j + 1);
    if k < piece.len() {
        return Some(Seen { start: j, end: k });
    }
    None
}

// The place of the first byte that is no blank.
fn past_blanks(piece: &[u8]) -> Option<usize>
    ensures { result ≡ position (λ b. not (blank (class_of b))) piece.now }
{
    piece.iter().position(|b| !classes::is_blank(*b))
}

// Behind blanks, a parenthesis, an at sign, or a symbol that begins with a byte above it, where no byte behind the piece has a say.
pub fn token_ahead(piece: &[u8]) -> Option<Seen>
    ensures { Shown piece.now result }
{
    let j = past_blanks(piece)?;
    let b = piece[j];
    if classes::is_high(b) {
        return symbol_to(piece, j);
    }
    if classes::is_rparen(b) | classes::is_at_sign(b) {
        return Some(Seen {
            start: j,
            end: j + 1,
        });
    }
    if classes::is_lparen(b) && j + 1 < piece.len() && !classes::is_semicolon(piece[j + 1]) {
        return Some(Seen {
            start: j,
            end: j + 1,
        });
    }
    None
}
