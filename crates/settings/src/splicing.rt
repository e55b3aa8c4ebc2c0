// A copy of a file with one record put between its front and its rest.
ghost use Rattle.std.specs.Prelude.{◌≡◌, ◌+◌, ◌≤◌, length};
ghost use Rattle.settings.specs.Kinds.{kind_number};
ghost use Rattle.settings.specs.Writing.{CopiedInto};
ghost use Rattle.settings.specs.PrivateFinding.{splice_of};

use super::Span;
use super::kinds::Kind;
use records::HEAD;
use refusals::{Fault, Refusal, SETTINGS_LIMIT};

// The file with the record in the place of the span `old`: checked and measured before a byte is written.
pub fn splice(
    f: &[u8],
    old: Span,
    kind: Kind,
    value: &[u8],
    out: &mut [u8],
) -> Result<usize, Refusal>
    requires { (old.place + old.len ≤ length f.now) × (length f.now ≤ 65536) }
    ensures { CopiedInto (splice_of f.now old.place (old.place + old.len) (kind_number kind) value.now (length out.old)) result out.old out.new }
{
    let n = value.len();
    if !kind.fits(n) {
        return Err(Fault::BadStyleName.at(n));
    }
    let rest = &f[old.place + old.len..];
    let after = old.place + (n + HEAD);
    let size = after + rest.len();
    if SETTINGS_LIMIT < size {
        return Err(Fault::TooLong.at(SETTINGS_LIMIT));
    }
    if out.len() < size {
        return Err(Fault::PrintRoom.at(size));
    }
    lists::put(&f[..old.place], out);
    records::put(kind as usize, value, &mut out[old.place..]);
    lists::put(rest, &mut out[after..]);
    Ok(size)
}
