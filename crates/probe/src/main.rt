// Runs any case on the proved code and prints what it answers: frames on standard input, an answer for each on standard output.
// A frame is an op byte, three numbers a, b, n of four bytes, the lowest first, and n bytes; an answer is some lines and a line with a dot.
// A frame that the input's end cuts, or that does not fit the source's room, ends the run.
// The files stdin and stdout beside src/ are `oracle sample --cases 400 stdin stdout`: fixed cases with the Rust's and the documents' answers.
#![tactic(auto)]

mod feeding;
mod lexing;
mod lines;
mod ops;
mod rooms;
mod settled;
mod tables;
mod windowed;

use feeding::Host;
use ops::Op;
use std::io;
use std::io::{BufWriter, ErrorKind, Read, Write};

// The bytes that are gathered before they go to standard output.
const PAGE: usize = 65536;

// The rooms that cases are run in, on the heap: a source somewhat above the limit, or a table to print; the table of any source that the tests send, or the
// room of a window; what is printed.
const SOURCE: usize = 1114112;

const TABLE: usize = 3145728;

const TEXT: usize = 2097152;

// The numbers and the bytes of a frame.
#[derive(Clone, Copy, Debug, PartialEq, Eq)]
struct Case<'a> {
    a: usize,
    b: usize,
    src: &'a [u8],
}

impl Case<'_> {
    // The first number as a width.
    fn width(self) -> u32 {
        width_of(self.a)
    }
}

fn width_of(n: usize) -> u32 {
    u32::try_from(n).unwrap_or(u32::MAX)
}

// Fills the buffer; false if the input ends before.
fn filled(from: &mut impl Read, buf: &mut [u8]) -> io::Result<bool> {
    match from.read_exact(buf) {
        Ok(()) => Ok(true),
        Err(e) if e.kind() == ErrorKind::UnexpectedEof => Ok(false),
        Err(e) => Err(e),
    }
}

// Reads a frame, its bytes to the front of the room, and gives its op's letter and the rest; none if the input ends or the bytes do not fit.
fn next_case<'a>(from: &mut impl Read, room: &'a mut [u8]) -> io::Result<Option<(u8, Case<'a>)>> {
    let mut head = [0u8; 13];
    if !filled(from, &mut head)? {
        return Ok(None);
    }
    let len = wide::u32_at(&head, 9);
    if room.len() < len || !filled(from, &mut room[..len])? {
        return Ok(None);
    }
    let case = Case {
        a: wide::u32_at(&head, 1),
        b: wide::u32_at(&head, 5),
        src: &room[..len],
    };
    Ok(Some((head[0], case)))
}

// The writer and the rooms are parameters of each op: a struct of them would be taken apart again at each call that lends a room.
fn answer(
    to: &mut impl Write,
    op: Op,
    case: Case<'_>,
    table: &mut [u8],
    text: &mut [u8],
) -> io::Result<()> {
    match op {
        Op::Tokens => lexing::tokens(to, case),
        Op::Pieces(entrance, shown) => feeding::pieces(to, case, Host::new(entrance, shown)),
        Op::Read => tables::read(to, case, table),
        Op::Print => tables::print(to, case, text),
        Op::PrintCounted => tables::print_counted(to, case, text),
        Op::Rewrite => tables::rewrite(to, case, table, text),
        Op::Check => tables::check(to, case),
        Op::Windows(shown) => windowed::print(to, case, shown, table),
        Op::LookUp => settled::look_up(to, case),
        Op::WriteWidth => settled::write_width(to, case, text),
        Op::WriteStyle => settled::write_style(to, case, text),
    }
}

// Answers each frame, with a line that has a dot behind it.
fn serve(
    from: &mut impl Read,
    to: &mut impl Write,
    src: &mut [u8],
    table: &mut [u8],
    text: &mut [u8],
) -> io::Result<()> {
    // A bound that is never met: each loop has to end.
    for _ in 0..u64::MAX {
        let next = next_case(from, src);
        if next.is_err() {
            // The answers before it are written.
            to.flush()?;
        }
        let Some((letter, case)) = next? else {
            break;
        };
        match Op::try_from(letter) {
            Ok(op) => answer(to, op, case, table, text)?,
            Err(unknown) => writeln!(to, "{unknown}")?,
        }
        writeln!(to, ".")?;
    }
    to.flush()
}

fn main(rt: HostRuntime) -> io::Result<()> {
    let mut src = vec![in rt.alloc(); 0u8; SOURCE]?;
    let mut table = vec![in rt.alloc(); 0u8; TABLE]?;
    let mut text = vec![in rt.alloc(); 0u8; TEXT]?;
    let mut to = BufWriter::with_capacity(rt.alloc(), PAGE, rt.stdout())?;
    serve(&mut rt.stdin(), &mut to, &mut src, &mut table, &mut text)
}
