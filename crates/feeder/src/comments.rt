// Runs of bytes in a block comment.
ghost use Rattle.std.specs.Prelude.{◌≡◌};
ghost use Rattle.classes.specs.Classes.{class_of};
ghost use Rattle.feeder.specs.Machine.{Block, half};
ghost use Rattle.feeder.specs.PrivateRuns.{Runs, inside_of};

use crate::rest::Rest;
use crate::runs::Moved;
use crate::{Half, Mode};

// Half of `(;` or `;)`, by the byte that was just consumed. No From: it tests a byte, and most are no half.
fn half_of(b: u8) -> Half
    ensures { result ≡ half (class_of b) }
{
    if classes::is_semicolon(b) {
        return Half::Semi;
    }
    if classes::is_lparen(b) {
        return Half::Paren;
    }
    Half::Clear
}

// One more byte inside a block comment: how deep it goes on, if it is not left.
fn inside_by(b: u8, depth: usize, half: Half) -> Option<(usize, Half)>
    ensures { result ≡ inside_of (class_of b) depth half }
{
    match half {
        Half::Semi if classes::is_rparen(b) => {
            if depth <= 1 {
                return None;
            }
            Some((depth - 1, Half::Clear))
        }
        Half::Paren if classes::is_semicolon(b) => {
            if depth < refusals::SOURCE_LIMIT {
                return Some((depth + 1, Half::Clear));
            }
            Some((depth, Half::Clear))
        }
        _ => Some((depth, half_of(b))),
    }
}

#[tactic(auto, using(crate::proofs::Calls::moves, crate::proofs::Calls::inside_is), unfolding(crate::specs::Machine::turn))]
impl Rest<'_> {
    pub fn in_block(self, start: usize, depth: usize, half: Half) -> Moved
        ensures { Runs self.entry (Block start depth half) result }
    {
        let mut d = depth;
        let mut h = half;
        for j in self.at..self.piece.len() {
            let Some((e, k)) = inside_by(self.piece[j], d, h) else {
                return Moved::On(Mode::Blank, j + 1);
            };
            d = e;
            h = k;
        }
        Moved::On(
            Mode::Block {
                start,
                depth: d,
                half: h,
            },
            self.piece.len(),
        )
    }
}
