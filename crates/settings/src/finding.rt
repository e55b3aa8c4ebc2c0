// A setting's place in one file, which is checked whole on the way.
ghost use Rattle.std.specs.Prelude.{◌≡◌};
ghost use Rattle.records.specs.Records.{head_at};
ghost use Rattle.settings.specs.Kinds.{kind_number};
ghost use Rattle.settings.specs.Files.{is_edition, settings_of};
ghost use Rattle.settings.specs.PrivateFinding.{found_in};

use super::Span;
use super::kinds::{self, Kind};
use super::seen::Seen;
use records::{HEAD, Head};
use refusals::{Fault, Refusal, SETTINGS_LIMIT};

// Whether the first record is a good edition.
fn edition_first(f: &[u8]) -> bool
    ensures { result ≡ is_edition (head_at f.now 0) }
{
    records::head_at(f, 0)
        == Some(Head {
            kind: Kind::Edition as usize,
            len: 8,
        })
}

// Where the value of a kind stands in a file, or the file's first fault.
pub fn find(f: &[u8], kind: Kind) -> Result<Option<Span>, Refusal>
    ensures { result ≡ found_in (kind_number kind) (settings_of f.now) }
{
    if SETTINGS_LIMIT < f.len() {
        return Err(Fault::TooLong.at(SETTINGS_LIMIT));
    }
    if !edition_first(f) {
        return Err(Fault::BadSettings.at(0));
    }
    let mut seen = Seen::none();
    let mut found = None;
    let mut at = 0;
    // A record's length alone says where the next one begins: an iterator over records would be this loop again.
    while at < f.len() {
        let bad = Fault::BadSettings.at(at);
        let head = records::head_at(f, at).ok_or(bad)?;
        let len = head.len - HEAD;
        if !kinds::value_fits(head.kind, len) || seen.mark(head.kind) {
            return Err(bad);
        }
        if head.kind == kind as usize {
            found = Some(Span {
                place: at + HEAD,
                len,
            });
        }
        at += head.len;
    }
    Ok(found)
}
