// Runs of bytes in one mode: a live state is fed a piece, a run at a time.
ghost use Rattle.std.specs.Prelude.{◌≡◌, ◌-◌, ◌<◌, ◌≤◌, ◌++◌, length};
ghost use Rattle.refusals.specs.Numbers.{source_limit};
ghost use Rattle.feeder.specs.Machine.{Blank, Line, Opener, Symbol};
ghost use Rattle.feeder.specs.Feeding.{feed_from, fed_of};
ghost use Rattle.feeder.specs.PrivateRuns.{Runs};

use crate::glance::{token_ahead, token_by};
use crate::literals::begun_by;
use crate::rest::Rest;
use crate::{Answer, Fed, Half, Mode, State, answered};
use classes::Class;
use lexer::Token;
use refusals::{Fault, Refusal};

// Where a run ends: in a mode before a byte of the piece; with a token or a refusal, and the bytes consumed. No Result: each of the three has those bytes, a refusal too.
#[derive(Clone, Copy, Debug, PartialEq, Eq)]
pub enum Moved {
    On(Mode, usize),
    Give(Token, usize, usize),
    Halt(Refusal, usize),
}

#[tactic(auto, using(crate::proofs::Calls::moves), unfolding(crate::specs::Machine::turn))]
impl Rest<'_> {
    fn in_blank(self) -> Moved
        ensures { Runs self.entry Blank result }
    {
        for j in self.at..self.piece.len() {
            let b = self.piece[j];
            let start = self.place + j;
            match classes::class_of(b) {
                Class::Space | Class::LineEnd => {}
                Class::Semicolon => return Moved::On(Mode::Line, j + 1),
                Class::LParen => return Moved::On(Mode::Opener { start }, j + 1),
                Class::RParen => return Moved::Give(Token::RParen, start, j + 1),
                Class::AtSign => return Moved::Give(Token::At, start, j + 1),
                Class::FormFeed => return Moved::Halt(Fault::FormFeed.at(start), j),
                Class::Minus => return Moved::On(Mode::Sign { start }, j + 1),
                Class::Digit => return Moved::On(begun_by(start, false, start, b), j + 1),
                Class::Other => return Moved::On(Mode::Symbol { start }, j + 1),
            }
        }
        Moved::On(Mode::Blank, self.piece.len())
    }

    fn in_line(self) -> Moved
        ensures { Runs self.entry Line result }
    {
        let j = classes::runs::line_end(self.piece, self.at);
        if j < self.piece.len() {
            return Moved::On(Mode::Blank, j + 1);
        }
        Moved::On(Mode::Line, j)
    }

    fn in_opener(self, start: usize) -> Moved
        ensures { Runs self.entry (Opener start) result }
    {
        if classes::is_semicolon(self.piece[self.at]) {
            return Moved::On(
                Mode::Block {
                    start,
                    depth: 1,
                    half: Half::Clear,
                },
                self.at + 1,
            );
        }
        Moved::Give(Token::LParen, start, self.at)
    }

    fn in_symbol(self, start: usize) -> Moved
        ensures { Runs self.entry (Symbol start) result }
    {
        let j = classes::runs::symbol_end(self.piece, self.at);
        if j < self.piece.len() {
            let len = (self.place + j).saturating_sub(start);
            return Moved::Give(Token::Symbol(len), start, j);
        }
        Moved::On(Mode::Symbol { start }, j)
    }

    // The run of bytes from here on, in any mode.
    fn advance(self, mode: Mode) -> Moved
        ensures { Runs self.entry mode result }
    {
        match mode {
            Mode::Blank => self.in_blank(),
            Mode::Line => self.in_line(),
            Mode::Opener { start } => self.in_opener(start),
            Mode::Symbol { start } => self.in_symbol(start),
            Mode::Sign { start } => self.in_sign(start),
            Mode::Block { start, depth, half } => self.in_block(start, depth, half),
            Mode::Zero { start, minus } => self.in_zero(start, minus),
            Mode::Digits {
                start,
                minus,
                radix,
                reading,
            } => self.in_digits(start, minus, radix, reading),
        }
    }
}

// A live state is fed the bytes of a piece that stand below the source's limit, a run at a time. One that stands beyond is refused.
fn fed_on(mode: Mode, place: usize, below: &[u8], beyond: &[u8]) -> Fed
    requires below { length below.now ≤ source_limit - place }
    requires beyond { 0 < length beyond.now → source_limit - place ≤ length below.now }
    ensures { fed_of result ≡ feed_from mode place (below.now ++ beyond.now) }
{
    let mut m = mode;
    let mut at = 0;
    // No `for`: a run says where the next one begins.
    while at < below.len() {
        let rest = Rest {
            piece: below,
            place,
            at,
        };
        match rest.advance(m) {
            Moved::On(next, end) => {
                m = next;
                at = end;
            }
            Moved::Give(t, start, used) => {
                return answered(
                    Ok(Answer::Token(t, start)),
                    used,
                    State::live(Mode::Blank, place + used),
                );
            }
            Moved::Halt(r, used) => {
                return answered(Err(r), used, State::refused(r, place + used));
            }
        }
    }
    if !beyond.is_empty() {
        let r = Fault::TooLong.at(refusals::SOURCE_LIMIT);
        return answered(Err(r), at, State::refused(r, place + at));
    }
    answered(Ok(Answer::More), at, State::live(m, place + at))
}

// A live state is fed a piece. Most calls begin outside of tokens and comments, in a piece that decides the next token alone: the walk is for
// the rest.
pub fn fed_live(mode: Mode, place: usize, piece: &[u8]) -> Fed
    ensures { fed_of result ≡ feed_from mode place piece.now }
{
    let left = refusals::SOURCE_LIMIT.saturating_sub(place);
    let (below, beyond) = piece.split_at(piece.len().min(left));
    if let Mode::Blank = mode
        && let Some(seen) = token_ahead(below)
    {
        let start = seen.start;
        let end = seen.end;
        return answered(
            Ok(Answer::Token(token_by(below[start], end - start), place + start)),
            end,
            State::live(Mode::Blank, place + end),
        );
    }
    fed_on(mode, place, below, beyond)
}
