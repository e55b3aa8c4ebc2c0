// The ops R, P, Q, W and K: a source is read into a room, a table printed into one, both in turn, and a table checked.
use crate::{Case, rooms};
use refusals::Refusal;
use std::io;
use std::io::Write;

pub fn read(to: &mut impl Write, case: Case<'_>, table: &mut [u8]) -> io::Result<()> {
    rooms::lend(
        to,
        "table",
        rooms::front(table, case.a),
        |room| reader::read(case.src, room),
    )
}

pub fn print(to: &mut impl Write, case: Case<'_>, text: &mut [u8]) -> io::Result<()> {
    rooms::lend(to, "print", rooms::front(text, case.b), |room| {
        printer::print(case.src, case.width(), room).map(|text| text.len)
    })
}

// The same, with the records that the fits test looked at; not by `lend`, for the number stands between what was written and what was kept. The first byte is the layout, and there is one; of no bytes the table is empty.
pub fn print_counted(to: &mut impl Write, case: Case<'_>, text: &mut [u8]) -> io::Result<()> {
    let table = rooms::parted(case.src, 1).1;
    let room = rooms::front(text, case.b);
    room.fill(rooms::MARK);
    match printer::print(table, case.width(), room) {
        Ok(text) => {
            let (written, rest) = rooms::parted(room, text.len);
            rooms::show(to, "print", written)?;
            rooms::show_looked(to, text.looked)?;
            rooms::show_kept(to, rooms::is_marked(rest))
        }
        Err(r) => rooms::show_refusal(to, r, room),
    }
}

// The text of a source, by its table.
fn text_of<'a>(case: Case<'_>, table: &mut [u8], text: &'a mut [u8]) -> Result<&'a [u8], Refusal> {
    let len = reader::read(case.src, table)?;
    let written = printer::print(rooms::parted(table, len).0, case.width(), text)?;
    Ok(rooms::parted(text, written.len).0)
}

pub fn rewrite(
    to: &mut impl Write,
    case: Case<'_>,
    table: &mut [u8],
    text: &mut [u8],
) -> io::Result<()> {
    match text_of(case, table, text) {
        Ok(written) => rooms::show(to, "text", written),
        Err(r) => writeln!(to, "{r}"),
    }
}

// The case's numbers make no difference.
pub fn check(to: &mut impl Write, case: Case<'_>) -> io::Result<()> {
    match table::check(case.src) {
        Ok(()) => writeln!(to, "good"),
        Err(r) => writeln!(to, "{r}"),
    }
}
