// Feeding in pieces: a state and a piece give a token, "more" or a refusal, the bytes consumed, and the new state.
#![tactic(auto)]

mod comments;
mod glance;
mod literals;
mod rest;
mod runs;

ghost use Rattle.std.specs.Prelude.{◌≡◌};
ghost use Rattle.lexer.specs.Tokens.{answer_of};
ghost use Rattle.feeder.specs.Machine.{closing as closing_of};
ghost use Rattle.feeder.specs.Feeding.{feed_of, close_of, fed_of, fresh_state, live, dead, shut};

use lexer::literal::Reading;
use lexer::{Lexed, Token};
use refusals::{Fault, Refusal};
use wide::Limbs;

// Half of `(;` or `;)` in a block comment.
#[derive(Clone, Copy, Debug, PartialEq, Eq)]
pub enum Half {
    Clear,
    Semi,
    Paren,
}

// What is held, from its start on. The fields of each case are words of a host (theorem packed_states), so `start` and `minus` are no struct.
#[derive(Clone, Copy, Debug, PartialEq, Eq)]
pub enum Mode {
    Blank,
    Line,
    Opener {
        start: usize,
    },
    Symbol {
        start: usize,
    },
    Sign {
        start: usize,
    },
    Block {
        start: usize,
        depth: usize,
        half: Half,
    },
    Zero {
        start: usize,
        minus: bool,
    },
    Digits {
        start: usize,
        minus: bool,
        radix: u8,
        reading: Reading,
    },
}

// Cases of its own and no Result or closure: the words of a host mean them, between calls too (theorem packed_states).
#[derive(Clone, Copy, Debug, PartialEq, Eq)]
pub enum Phase {
    Live(Mode),
    Closed,
    Refused(Refusal),
}

#[derive(Clone, Copy, Debug, PartialEq, Eq)]
pub struct State {
    pub phase: Phase,
    // The bytes consumed so far.
    pub place: usize,
}

impl State {
    // At work, in a mode.
    fn live(mode: Mode, place: usize) -> Self
        ensures { result ≡ live mode place }
    {
        State {
            phase: Phase::Live(mode),
            place,
        }
    }

    // Refused for good.
    fn refused(r: Refusal, place: usize) -> Self
        ensures { result ≡ dead r.number r.place place }
    {
        State {
            phase: Phase::Refused(r),
            place,
        }
    }
}

// What a call answers that refuses nothing: the end is an answer like the others, and no None.
#[derive(Clone, Copy, Debug, PartialEq, Eq)]
pub enum Answer {
    More,
    End,
    // A token, and its start.
    Token(Token, usize),
}

#[derive(Clone, Copy, Debug, PartialEq, Eq)]
pub struct Out {
    pub answer: Result<Answer, Refusal>,
    pub used: usize,
}

#[derive(Clone, Copy, Debug, PartialEq, Eq)]
pub struct Fed {
    pub out: Out,
    pub state: State,
}

pub fn fresh() -> State
    ensures { result ≡ fresh_state }
{
    State::live(Mode::Blank, 0)
}

fn answered(answer: Result<Answer, Refusal>, used: usize, state: State) -> Fed
    ensures { result ≡ record { out = record { answer = answer; used = used }; state = state } }
{
    Fed {
        out: Out { answer, used },
        state,
    }
}

// What the source's end makes of a mode.
#[tactic(auto, unfolding(crate::specs::Machine::closing))]
fn closing(mode: Mode, place: usize) -> Result<Lexed, Refusal>
    ensures { answer_of result ≡ closing_of mode place }
{
    match mode {
        Mode::Blank | Mode::Line => Ok(Lexed::End),
        Mode::Opener { start } => Ok(Lexed::Token(Token::LParen, start)),
        Mode::Symbol { start } => Ok(Lexed::Token(
            Token::Symbol(place.saturating_sub(start)),
            start,
        )),
        Mode::Sign { start } => lexer::literal::concluded(true, start, place, Reading::Empty),
        Mode::Block { start, .. } => Err(Fault::OpenComment.at(start)),
        Mode::Zero { start, minus } => lexer::literal::concluded(
            minus,
            start,
            place,
            Reading::Number(Limbs { hi: 0, lo: 0 }),
        ),
        Mode::Digits {
            start,
            minus,
            reading,
            ..
        } => lexer::literal::concluded(minus, start, place, reading),
    }
}

// The first close, by what the source's end makes of what is held. No From for the answer: each arm has a state of its own beside it.
fn shut_by(last: Result<Lexed, Refusal>, place: usize) -> Fed
    ensures { fed_of result ≡ shut (answer_of last) place }
{
    let closed = State {
        phase: Phase::Closed,
        place,
    };
    match last {
        Ok(Lexed::End) => answered(Ok(Answer::End), 0, closed),
        Ok(Lexed::Token(t, start)) => answered(Ok(Answer::Token(t, start)), 0, closed),
        Err(r) => answered(Err(r), 0, State::refused(r, place)),
    }
}

// The source's end: the held token, the end, or a refusal, and then the end for ever or the refusal again.
#[tactic(auto, unfolding(crate::specs::Feeding::close_of))]
pub fn close(s: State) -> Fed
    ensures { fed_of result ≡ close_of s }
{
    match s.phase {
        Phase::Live(mode) => shut_by(closing(mode, s.place), s.place),
        Phase::Closed => answered(Ok(Answer::End), 0, s),
        Phase::Refused(r) => answered(Err(r), 0, s),
    }
}

// A piece of the source: the next token, "more" once the piece is consumed, or a refusal.
#[tactic(auto, unfolding(crate::specs::Feeding::feed_of))]
pub fn feed(s: State, piece: &[u8]) -> Fed
    ensures { fed_of result ≡ feed_of s piece.now }
{
    match s.phase {
        Phase::Live(mode) => runs::fed_live(mode, s.place, piece),
        Phase::Closed => answered(Err(Fault::FedAfterClose.at(s.place)), 0, s),
        Phase::Refused(r) => answered(Err(r), 0, s),
    }
}
