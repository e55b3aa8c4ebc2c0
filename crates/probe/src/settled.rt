// The ops S, T and t: a setting is looked up in a project's file with the house file behind it, and a file copied with a width or a style name written.
// Of bytes that are cut short, a file or a name is what is there of it.
use crate::{Case, rooms};
use refusals::Refusal;
use settings::Sided;
use std::io;
use std::io::Write;

// The width (0), the style name (1), or, for any other number, where that stands; or whose file is at fault. No enum: any number of a frame asks for something.
fn show(
    to: &mut impl Write,
    asked: usize,
    project: &[u8],
    house: &[u8],
) -> Result<io::Result<()>, Sided<Refusal>> {
    match asked {
        0 => {
            let width = settings::width(project, house)?;
            Ok(writeln!(to, "width {}", width.value))
        }
        1 => {
            settings::style(project, house)?;
            Ok(rooms::show(to, "style", settings::style_name(project, house)))
        }
        _ => {
            let at = settings::style(project, house)?;
            Ok(writeln!(to, "part {:?} {} {}", at.side, at.value.place, at.value.len))
        }
    }
}

pub fn look_up(to: &mut impl Write, case: Case<'_>) -> io::Result<()> {
    let (project, house) = rooms::parted(case.src, case.b);
    match show(to, case.a, project, house) {
        Ok(shown) => shown,
        Err(x) => writeln!(to, "{} {:?}", x.value, x.side),
    }
}

pub fn write_width(to: &mut impl Write, case: Case<'_>, text: &mut [u8]) -> io::Result<()> {
    rooms::lend(
        to,
        "file",
        rooms::front(text, case.b),
        |room| settings::write_width(case.src, case.width(), room),
    )
}

// The name stands before the file.
pub fn write_style(to: &mut impl Write, case: Case<'_>, text: &mut [u8]) -> io::Result<()> {
    let (name, file) = rooms::parted(case.src, case.a);
    rooms::lend(
        to,
        "file",
        rooms::front(text, case.b),
        |room| settings::write_style(file, name, room),
    )
}
