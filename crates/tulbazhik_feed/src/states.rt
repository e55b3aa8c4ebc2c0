// A feeder's state as eight words and back: tag, place, start, then what the tag's mode holds. The tags are bare numbers, for a host keeps them: they may not
// change (theorem packed_states). Functions and no From: the state is the feeder's, and what its words mean is the door's.
ghost use Rattle.std.specs.Prelude.{◌≡◌, get_or};
ghost use Rattle.tulbazhik_feed.specs.States.{pack_of, half_in, reading_in, phase_in, unpack_of};

use feeder::{Half, Mode, Phase, State};
use lexer::literal::Reading;
use refusals::Refusal;
use wide::Limbs;

// A state's words, written where they are to stay: as a value that the door writes there they cost a call of the feeder 12 instructions more.
#[inline(always)]
#[tactic(auto, unfolding(crate::specs::States::pack_of))]
pub fn put(s: State, words: &mut [u64; 8])
    ensures { words.new ≡ pack_of s }
{
    let place = s.place as u64;
    match s.phase {
        Phase::Live(Mode::Blank) => {
            *words = [0, place, 0, 0, 0, 0, 0, 0];
        }
        Phase::Live(Mode::Line) => {
            *words = [1, place, 0, 0, 0, 0, 0, 0];
        }
        Phase::Live(Mode::Opener { start }) => {
            *words = [2, place, start as u64, 0, 0, 0, 0, 0];
        }
        Phase::Live(Mode::Symbol { start }) => {
            *words = [3, place, start as u64, 0, 0, 0, 0, 0];
        }
        Phase::Live(Mode::Sign { start }) => {
            *words = [4, place, start as u64, 0, 0, 0, 0, 0];
        }
        Phase::Live(Mode::Block { start, depth, half }) => {
            *words = [5, place, start as u64, depth as u64, half as u64, 0, 0, 0];
        }
        Phase::Live(Mode::Zero { start, minus }) => {
            *words = [6, place, start as u64, 0, minus as u64, 0, 0, 0];
        }
        Phase::Live(
            Mode::Digits {
                start,
                minus,
                radix,
                reading,
            },
        ) => {
            let (start, minus, radix) = (start as u64, minus as u64, radix as u64);
            match reading {
                Reading::Empty => {
                    *words = [7, place, start, radix, minus, 0, 0, 0];
                }
                Reading::Bad(digit) => {
                    let number = digit.number as u64;
                    *words = [7, place, start, radix, minus, 1, digit.place as u64, number];
                }
                Reading::Number(n) => {
                    *words = [7, place, start, radix, minus, 2, n.hi, n.lo];
                }
            }
        }
        Phase::Closed => {
            *words = [8, place, 0, 0, 0, 0, 0, 0];
        }
        Phase::Refused(r) => {
            let number = r.number as u64;
            *words = [9, place, r.place as u64, number, 0, 0, 0, 0];
        }
    }
}

// The same by value.
pub fn pack(s: State) -> [u64; 8]
    ensures { result ≡ pack_of s }
{
    let mut words = [0; 8];
    put(s, &mut words);
    words
}

fn half_in(h: u64) -> Half
    ensures { result ≡ half_in h }
{
    match h {
        0 => Half::Clear,
        1 => Half::Semi,
        _ => Half::Paren,
    }
}

#[tactic(auto, unfolding(crate::specs::States::reading_in))]
fn reading_in(k: u64, hi: u64, lo: u64) -> Reading
    ensures { result ≡ reading_in k hi lo }
{
    match k {
        0 => Reading::Empty,
        1 => Reading::Bad(Refusal {
            number: (lo % 256) as u8,
            place: hi as usize,
        }),
        _ => Reading::Number(Limbs { hi, lo }),
    }
}

// The states outside of tokens and comments, which most calls begin in, are told by a test of their own: a jump by the tag takes more instructions a call.
#[tactic(auto, unfolding(crate::specs::States::phase_in, crate::specs::States::mode_in))]
fn phase_in(w: [u64; 8]) -> Phase
    ensures { result ≡ phase_in (get_or w 0 0) (get_or w 2 0) (get_or w 3 0) (get_or w 4 0) (reading_in (get_or w 5 0) (get_or w 6 0) (get_or w 7 0)) }
{
    if w[0] == 0 {
        return Phase::Live(Mode::Blank);
    }
    let start = w[2] as usize;
    match w[0] {
        1 => Phase::Live(Mode::Line),
        2 => Phase::Live(Mode::Opener { start }),
        3 => Phase::Live(Mode::Symbol { start }),
        4 => Phase::Live(Mode::Sign { start }),
        5 => Phase::Live(Mode::Block {
            start,
            depth: w[3] as usize,
            half: half_in(w[4]),
        }),
        6 => Phase::Live(Mode::Zero {
            start,
            minus: w[4] != 0,
        }),
        7 => Phase::Live(Mode::Digits {
            start,
            minus: w[4] != 0,
            radix: (w[3] % 256) as u8,
            reading: reading_in(w[5], w[6], w[7]),
        }),
        8 => Phase::Closed,
        _ => Phase::Refused(Refusal {
            number: (w[3] % 256) as u8,
            place: start,
        }),
    }
}

// The state of any eight words.
#[tactic(auto, unfolding(crate::specs::States::unpack_of))]
pub fn unpack(w: [u64; 8]) -> State
    ensures { result ≡ unpack_of w }
{
    State {
        phase: phase_in(w),
        place: w[1] as usize,
    }
}
