// The ops, by their letters.
use crate::feeding::{self, Entrance};
use crate::windowed;
use std::fmt;

#[derive(Clone, Copy, Debug, PartialEq, Eq)]
pub enum Op {
    Tokens,
    Pieces(Entrance, feeding::Shown),
    Read,
    Print,
    PrintCounted,
    Rewrite,
    Check,
    Windows(windowed::Shown),
    LookUp,
    WriteWidth,
    WriteStyle,
}

// A letter that stands for no op.
#[derive(Clone, Copy, Debug, PartialEq, Eq)]
pub struct UnknownOp;

impl fmt::Display for UnknownOp {
    fn fmt<W: fmt::Write>(&self, f: &mut fmt::Formatter<W>) -> fmt::Result {
        f.write_str("no such op")
    }
}

impl TryFrom<u8> for Op {
    type Error = UnknownOp;

    fn try_from(letter: u8) -> Result<Self, UnknownOp> {
        match letter {
            b'L' => Ok(Op::Tokens),
            b'F' => Ok(Op::Pieces(Entrance::ByValue, feeding::Shown::Tokens)),
            b'f' => Ok(Op::Pieces(Entrance::Lent, feeding::Shown::Tokens)),
            b'C' => Ok(Op::Pieces(Entrance::ByValue, feeding::Shown::Calls)),
            b'c' => Ok(Op::Pieces(Entrance::Lent, feeding::Shown::Calls)),
            b'R' => Ok(Op::Read),
            b'P' => Ok(Op::Print),
            b'Q' => Ok(Op::PrintCounted),
            b'W' => Ok(Op::Rewrite),
            b'K' => Ok(Op::Check),
            b'V' => Ok(Op::Windows(windowed::Shown::Answers)),
            b'v' => Ok(Op::Windows(windowed::Shown::Bounds)),
            b'S' => Ok(Op::LookUp),
            b'T' => Ok(Op::WriteWidth),
            b't' => Ok(Op::WriteStyle),
            _ => Err(UnknownOp),
        }
    }
}
