// The door for C to settings per project: the proved functions over slices and an answer of eight words (host/include/tulbazhik.h). tulbazhik_settings_c exports them under their C names.
#![tactic(auto)]

ghost use Rattle.std.specs.Prelude.{◌≡◌, length};
ghost use Rattle.settings.specs.LookUps.{edition_in, width_in, style_in, number_of, part_of};
ghost use Rattle.settings.specs.Writing.{copy_of, width_setting, style_setting, written_of};
ghost use Rattle.words.specs.Words.{length_words};
ghost use Rattle.tulbazhik_settings.specs.Sides.{side_word, sided_words, faulty_words, number_words, style_words, CopiedWords};

use refusals::Refusal;
use settings::{Side, Sided, Span};

// The last word of a look-up's answer, as in the header for C; 0 is an answer that has no side.
pub const PROJECT: u64 = 1;

pub const HOUSE: u64 = 2;

pub const NEITHER: u64 = 3;

// No From: a side is of settings, and its words are the header's.
fn side_word(side: Side) -> u64
    ensures { result ≡ side_word side }
{
    match side {
        Side::Project => PROJECT,
        Side::House => HOUSE,
        Side::Neither => NEITHER,
    }
}

// An answer: its kind, a place, a length or a refusal's number, a number, and the side.
fn put_sided(kind: u64, place: usize, n: usize, low: usize, side: Side, answer: &mut [u64; 8])
    ensures { answer.new ≡ sided_words kind place n low side }
{
    *answer = [
        kind,
        place as u64,
        n as u64,
        0,
        low as u64,
        0,
        0,
        side_word(side),
    ];
}

fn put_faulty(x: Sided<Refusal>, answer: &mut [u64; 8])
    ensures { answer.new ≡ faulty_words x.side x.value.number x.value.place }
{
    let Refusal { number, place } = x.value;
    put_sided(words::REFUSED, place, number as usize, 0, x.side, answer);
}

#[tactic(auto, unfolding(crate::specs::Sides::number_words))]
fn put_number(x: Result<Sided<usize>, Sided<Refusal>>, answer: &mut [u64; 8])
    ensures { answer.new ≡ number_words (number_of x) }
{
    match x {
        Ok(x) => put_sided(words::DONE, 0, 0, x.value, x.side, answer),
        Err(x) => put_faulty(x, answer),
    }
}

#[tactic(auto, unfolding(crate::specs::Sides::style_words))]
fn put_style(x: Result<Sided<Span>, Sided<Refusal>>, answer: &mut [u64; 8])
    ensures { answer.new ≡ style_words (part_of x) }
{
    match x {
        Ok(x) => put_sided(words::DONE, x.value.place, x.value.len, 0, x.side, answer),
        Err(x) => put_faulty(x, answer),
    }
}

// The same match as in `tulbazhik_read`: two doors, of which neither stands on the other.
#[tactic(auto, unfolding(words::specs::Words::length_words))]
fn put_written(x: Result<usize, Refusal>, answer: &mut [u64; 8])
    ensures { answer.new ≡ length_words (written_of x) }
{
    match x {
        Ok(n) => words::put_length(n, answer),
        Err(r) => words::put_refusal(r, 0, answer),
    }
}

// The edition of the project's file.
pub fn tulbazhik_edition(project: &[u8], house: &[u8], answer: &mut [u64; 8])
    ensures { answer.new ≡ number_words (edition_in project.now house.now) }
{
    put_number(settings::edition(project, house), answer);
}

// The width that is set.
pub fn tulbazhik_width(project: &[u8], house: &[u8], answer: &mut [u64; 8])
    ensures { answer.new ≡ number_words (width_in project.now house.now) }
{
    put_number(settings::width(project, house), answer);
}

// Where the style name stands: C callers make the part of the file themselves.
pub fn tulbazhik_style(project: &[u8], house: &[u8], answer: &mut [u64; 8])
    ensures { answer.new ≡ style_words (style_in project.now house.now) }
{
    put_style(settings::style(project, house), answer);
}

// A copy of a file with a width, written into the room lent.
pub fn tulbazhik_write_width(file: &[u8], width: u32, copy: &mut [u8], answer: &mut [u64; 8])
    ensures { CopiedWords (copy_of file.now (width_setting width) (length copy.old)) answer.new copy.old copy.new }
{
    put_written(settings::write_width(file, width, copy), answer);
}

// The same with a style name.
pub fn tulbazhik_write_style(file: &[u8], name: &[u8], copy: &mut [u8], answer: &mut [u64; 8])
    ensures { CopiedWords (copy_of file.now (style_setting name.now) (length copy.old)) answer.new copy.old copy.new }
{
    put_written(settings::write_style(file, name, copy), answer);
}
