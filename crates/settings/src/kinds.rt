// The kinds of a settings file's records, and how long the value of each may be.
ghost use Rattle.std.specs.Prelude.{◌≡◌};
ghost use Rattle.settings.specs.Kinds.{kind_number, kind_of, value_fits};

use refusals::Fault;

// The kinds that are known. Each stands for its number.
#[derive(Clone, Copy, Debug, PartialEq, Eq)]
pub enum Kind {
    Edition = 1,
    Width,
    Style,
}

// Unknown kinds from here up are skipped.
pub const FIRST_SKIPPED: usize = 32768;

impl TryFrom<usize> for Kind {
    type Error = Fault;

    ghost try_from_gives = { λ n r. r ≡ kind_of n };

    fn try_from(number: usize) -> Result<Self, Fault> {
        match number {
            1 => Ok(Kind::Edition),
            2 => Ok(Kind::Width),
            3 => Ok(Kind::Style),
            _ => Err(Fault::UnknownKind),
        }
    }
}

impl Kind {
    // Whether a value of this kind may have n bytes.
    pub(crate) fn fits(self, n: usize) -> bool
        ensures { result ≡ value_fits (kind_number self) n }
    {
        match self {
            Kind::Edition => n == 2,
            Kind::Width => n == 4,
            Kind::Style => matches!(n, 1..=32),
        }
    }
}

// The same of the kind of any number.
pub fn value_fits(kind: usize, n: usize) -> bool
    ensures { result ≡ value_fits kind n }
{
    match Kind::try_from(kind) {
        Ok(known) => known.fits(n),
        Err(_) => FIRST_SKIPPED <= kind,
    }
}
