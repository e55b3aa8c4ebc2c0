// Settings per project: a project's file with the house file behind it. Both are checked whole at each look-up; writing makes a copy with one record replaced or added.
#![tactic(auto)]

mod finding;
mod kinds;
mod seen;
mod splicing;

ghost use Rattle.std.specs.Prelude.{◌≡◌, ◌⊎◌, ◌+◌, ◌≤◌, length, take, drop};
ghost use Rattle.wide.specs.Bytes.{number};
ghost use Rattle.settings.specs.Kinds.{kind_number};
ghost use Rattle.settings.specs.Files.{setting_is, settings_of};
ghost use Rattle.settings.specs.LookUps.{number_set, edition_in, width_in, span_in, style_in, style_name_in, by_side, part_at, number_of, part_of};
ghost use Rattle.settings.specs.Writing.{copy_of, width_setting, style_setting, CopiedInto};
ghost use Rattle.settings.specs.PrivateFinding.{found_in, on_side};
ghost use Rattle.settings.specs.declared.kinds.Kind.TheVariants.{Edition, Width};

pub use kinds::{FIRST_SKIPPED, Kind};
use records::HEAD;
use refusals::{Fault, Refusal};

// Whose file an answer comes from, or which is at fault. `Neither` is a case and no None: document 02 names it, and it is a word of the header for C.
#[derive(Clone, Copy, Debug, PartialEq, Eq)]
pub enum Side {
    Project,
    House,
    Neither,
}

// A value or a refusal, and whose file it is of.
#[derive(Clone, Copy, Debug, PartialEq, Eq)]
pub struct Sided<T> {
    pub side: Side,
    pub value: T,
}

// The place of the first byte of a part of a file, and the number of its bytes.
#[derive(Clone, Copy, Debug, PartialEq, Eq)]
pub struct Span {
    pub place: usize,
    pub len: usize,
}

impl Side {
    // The file of this side; for neither, which no value is of, the project's. The two files stay two slices here and below: the public functions have them so.
    fn file<'a>(self, project: &'a [u8], house: &'a [u8]) -> &'a [u8]
        ensures { (result.now ≡ by_side self project.now house.now)
            × (result.ref_ptr ≡ by_side self project.entry.ref_ptr house.entry.ref_ptr) }
    {
        match self {
            Side::Project | Side::Neither => project,
            Side::House => house,
        }
    }
}

// Where the value of a kind stands in one file, or the file's first fault; and whose file it is.
fn find(side: Side, f: &[u8], kind: Kind) -> Result<Option<Sided<Span>>, Sided<Refusal>>
    ensures { result ≡ on_side side (found_in (kind_number kind) (settings_of f.now)) }
{
    match finding::find(f, kind) {
        Ok(found) => Ok(found.map(|value| Sided { side, value })),
        Err(value) => Err(Sided { side, value }),
    }
}

// Where the value of a kind stands: in the project's file if it is set there, else in the house file.
#[tactic(auto, using(crate::proofs::Spans::own_bad, crate::proofs::Spans::other_bad, crate::proofs::Spans::both_good))]
fn setting(kind: Kind, project: &[u8], house: &[u8]) -> Result<Sided<Span>, Sided<Refusal>>
    ensures { part_of result ≡ span_in (kind_number kind) project.now house.now }
{
    let own = find(Side::Project, project, kind)?;
    let other = find(Side::House, house, kind)?;
    own.or(other).ok_or(Sided {
        side: Side::Neither,
        value: Fault::NotSet.at(0),
    })
}

// The bytes of a span in the file of its side.
fn part<'a>(at: Sided<Span>, project: &'a [u8], house: &'a [u8]) -> &'a [u8]
    requires { at.value.place + at.value.len ≤ length (by_side at.side project.now house.now) }
    ensures { (result.now ≡ take at.value.len (drop at.value.place (by_side at.side project.now house.now)))
        × (result.ref_ptr ≡ ((by_side at.side project.entry.ref_ptr house.entry.ref_ptr).0, at.value.place + (by_side at.side project.entry.ref_ptr house.entry.ref_ptr).1)) }
{
    let Span { place, len } = at.value;
    &at.side.file(project, house)[place..place + len]
}

// The number in the bytes of a value.
fn number(value: &[u8]) -> usize
    requires { (length value.now ≡ 2) ⊎ (length value.now ≡ 4) }
    ensures { result ≡ number value.now }
{
    if value.len() == 2 {
        return wide::u16_at(value, 0);
    }
    wide::u32_at(value, 0)
}

fn number_in(kind: Kind, project: &[u8], house: &[u8]) -> Result<Sided<usize>, Sided<Refusal>>
    requires { (kind ≡ Edition) ⊎ (kind ≡ Width) }
    ensures { number_of result ≡ number_set (kind_number kind) project.now house.now }
{
    let at = setting(kind, project, house)?;
    Ok(Sided {
        side: at.side,
        value: number(part(at, project, house)),
    })
}

// The edition of the project's file, which is never absent. Beside `width`: two public promises, of one call each.
pub fn edition(project: &[u8], house: &[u8]) -> Result<Sided<usize>, Sided<Refusal>>
    ensures { number_of result ≡ edition_in project.now house.now }
{
    number_in(Kind::Edition, project, house)
}

pub fn width(project: &[u8], house: &[u8]) -> Result<Sided<usize>, Sided<Refusal>>
    ensures { number_of result ≡ width_in project.now house.now }
{
    number_in(Kind::Width, project, house)
}

// Where the style name stands.
pub fn style(project: &[u8], house: &[u8]) -> Result<Sided<Span>, Sided<Refusal>>
    ensures { part_of result ≡ style_in project.now house.now }
{
    setting(Kind::Style, project, house)
}

// The style name itself, as a part of one of the two files; no bytes and no Option where `style` refuses: `style_name_in` is the public promise.
pub fn style_name<'a>(project: &'a [u8], house: &'a [u8]) -> &'a [u8]
    ensures { (result.now ≡ style_name_in project.now house.now)
        × (result.ref_ptr ≡ part_at project.entry.ref_ptr house.entry.ref_ptr (style_in project.now house.now)) }
{
    match style(project, house) {
        Ok(at) => part(at, project, house),
        Err(_) => &project[..0],
    }
}

// A copy of the file with the record of a kind replaced in its place, or added at the end.
fn write(f: &[u8], kind: Kind, value: &[u8], out: &mut [u8]) -> Result<usize, Refusal>
    ensures { CopiedInto (copy_of f.now (setting_is (kind_number kind) value.now) (length out.old)) result out.old out.new }
{
    let found = finding::find(f, kind)?;
    let old = match found {
        Some(Span { place, len }) => Span {
            place: place - HEAD,
            len: len + HEAD,
        },
        None => Span {
            place: f.len(),
            len: 0,
        },
    };
    splicing::splice(f, old, kind, value, out)
}

// Writes a width. Beside `write_style`: two public promises, of one call each.
#[tactic(auto, using(crate::proofs::Joining::width_value))]
pub fn write_width(f: &[u8], width: u32, out: &mut [u8]) -> Result<usize, Refusal>
    ensures { CopiedInto (copy_of f.now (width_setting width) (length out.old)) result out.old out.new }
{
    write(f, Kind::Width, &width.to_le_bytes(), out)
}

// Writes a style name.
pub fn write_style(f: &[u8], name: &[u8], out: &mut [u8]) -> Result<usize, Refusal>
    ensures { CopiedInto (copy_of f.now (style_setting name.now) (length out.old)) result out.old out.new }
{
    write(f, Kind::Style, name, out)
}
