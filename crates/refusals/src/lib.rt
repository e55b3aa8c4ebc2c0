// The numbers that documents 01 and 02 give instead of an answer, and the limits, by name.
#![tactic(auto)]

ghost use Rattle.std.specs.Prelude.{◌≡◌, Some};
ghost use Rattle.refusals.specs.Numbers.{fault_at, refusal_text};

use std::error::Error;
use std::fmt;

// The rows of the table 'Numbers given instead of an answer', in its order, and what document 02 adds to them. Each stands for its number.
#[derive(Clone, Copy, Debug, PartialEq, Eq)]
pub enum Fault {
    TooLong = 1,
    PastSource,
    FormFeed,
    OpenComment,
    NoDigits,
    ForeignDigit,
    TooLarge,
    MinusLowest,
    NoListOpen,
    ListOpen,
    NoSymbol,
    NoTree,
    TooDeep,
    TableRoom,
    BadRecord,
    BadSymbol,
    // 17 is retired (document 02, 6/12): it is never given, and its number is not used again.
    PrintRoom = 18,
    FedAfterClose,
    UnknownKind,
    WrongLength,
    MissingTrees,
    BadSettings,
    NotSet,
    WrongCost,
    BadStyleName,
}

impl Fault {
    // The refusal for this fault at a place.
    pub fn at(self, place: usize) -> Refusal
        ensures { result ≡ fault_at self place }
    {
        Refusal {
            number: self as u8,
            place,
        }
    }
}

// A refusal: its number and its place. The number is any byte, for a feeder's state that comes from a host's words holds whatever stands there.
#[derive(Clone, Copy, Debug, PartialEq, Eq)]
pub struct Refusal {
    pub number: u8,
    pub place: usize,
}

impl fmt::Display for Refusal {
    ghost output = { λ r. Some (refusal_text r) };

    fn fmt<W: fmt::Write>(&self, f: &mut fmt::Formatter<W>) -> fmt::Result {
        write!(f, "refusal {} at {}", self.number, self.place)
    }
}

impl Error for Refusal {}

// The limits of a source, of a table and of a settings file in bytes, and of the lists and bindings open at once.
pub const SOURCE_LIMIT: usize = 1048576;

pub const TABLE_LIMIT: usize = 16777216;

pub const SETTINGS_LIMIT: usize = 65536;

pub const DEPTH_LIMIT: usize = 64;
