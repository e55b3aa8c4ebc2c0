// Runs of bytes in a literal: its sign, its leading `0`, its digits.
ghost use Rattle.std.specs.Prelude.{◌≡◌};
ghost use Rattle.feeder.specs.Machine.{Sign, Zero, Digits, begun};
ghost use Rattle.feeder.specs.PrivateRuns.{Runs};

use crate::Mode;
use crate::rest::Rest;
use crate::runs::Moved;
use lexer::Lexed;
use lexer::literal::Reading;
use wide::Limbs;

// A literal's first digit, which stands at `place`: `0` may begin a prefix.
pub fn begun_by(start: usize, minus: bool, place: usize, b: u8) -> Mode
    ensures { result ≡ begun start minus place b }
{
    if b == b'0' {
        return Mode::Zero { start, minus };
    }
    Mode::Digits {
        start,
        minus,
        radix: 10,
        reading: lexer::literal::grow(10, Reading::Empty, b, place),
    }
}

#[tactic(auto, using(crate::proofs::Calls::moves, crate::proofs::Calls::as_in, crate::proofs::Calls::no_source_end), unfolding(crate::specs::Machine::turn))]
impl Rest<'_> {
    // Behind a sign the digits begin, if there are any.
    #[tactic(auto, using(crate::proofs::Calls::moves), unfolding(crate::specs::Machine::turn, classes::specs::Classes::literal_byte, classes::specs::Classes::digit_of))]
    pub fn in_sign(self, start: usize) -> Moved
        ensures { Runs self.entry (Sign start) result }
    {
        if self.piece[self.at] == b'0' {
            return Moved::On(Mode::Zero { start, minus: true }, self.at + 1);
        }
        self.in_digits(start, true, 10, Reading::Empty)
    }

    // A literal ends as at the source's end; the answer is a token or a refusal, and never the end. Beside `lexer::literal::digits_from`, which begins at no digit and
    // tells no mode: this one goes on from what was read of the pieces before.
    pub fn in_digits(self, start: usize, minus: bool, radix: u8, reading: Reading) -> Moved
        ensures { Runs self.entry (Digits start minus radix reading) result }
    {
        let mut x = reading;
        for j in self.at..self.piece.len() {
            let b = self.piece[j];
            if !classes::is_literal_byte(b) {
                return match lexer::literal::concluded(minus, start, self.place + j, x) {
                    Ok(Lexed::Token(t, start)) => Moved::Give(t, start, j),
                    Ok(Lexed::End) => unreachable!(),
                    Err(r) => Moved::Halt(r, j),
                };
            }
            x = lexer::literal::grow(radix, x, b, self.place + j);
        }
        Moved::On(
            Mode::Digits {
                start,
                minus,
                radix,
                reading: x,
            },
            self.piece.len(),
        )
    }

    // After a literal's leading `0`: a prefix, or a digit like any other.
    pub fn in_zero(self, start: usize, minus: bool) -> Moved
        ensures { Runs self.entry (Zero start minus) result }
    {
        let radix = lexer::literal::radix_of(b'0', self.piece[self.at]);
        if radix == 10 {
            let zero = Reading::Number(Limbs { hi: 0, lo: 0 });
            return self.in_digits(start, minus, 10, zero);
        }
        Moved::On(
            Mode::Digits {
                start,
                minus,
                radix,
                reading: Reading::Empty,
            },
            self.at + 1,
        )
    }
}
