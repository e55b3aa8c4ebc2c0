// The ops V and v: a table is printed through windows, call after call from the state that the call before gave back; v changes the table and the width on the way.
// The bytes of a frame: three numbers, the calls, how many of them are on the first table, and its length; then the windows' lengths and the two tables.
// Of bytes that are cut short, the calls are those whose windows' lengths are there, and a table is what is there of it.
use crate::{Case, rooms, width_of};
use refusals::Refusal;
use std::io;
use std::io::Write;
use windows::{Answer, Filled, State};

// The numbers before the lengths, and a number's bytes.
const HEAD: usize = 12;

const NUMBER: usize = 4;

// The bytes of a room before its window, and those after it.
const EDGE: usize = 16;

// A longer window counts as this.
const MOST: usize = 2097152;

// What is shown of a call: its answer, or only whether it kept to its window.
#[derive(Clone, Copy, Debug, PartialEq, Eq)]
pub enum Shown {
    Answers,
    Bounds,
}

// The first `count` numbers and what stands behind them, or as many as there are.
fn numbers(s: &[u8], count: usize) -> (&[u8], &[u8]) {
    s.split_at(NUMBER * count.min(s.len() / NUMBER))
}

// The window in a room, and what is behind it.
fn window(room: &[u8]) -> &[u8] {
    rooms::parted(room, EDGE).1
}

// Whether a room is still marked but for the first `len` bytes of its window.
fn is_kept_around(room: &[u8], len: usize) -> bool {
    let (edge, rest) = rooms::parted(room, EDGE);
    rooms::is_marked(edge) && rooms::is_marked(rooms::parted(rest, len).1)
}

fn show_answer(
    to: &mut impl Write,
    answer: Result<Answer, Refusal>,
    room: &[u8],
) -> io::Result<()> {
    match answer {
        Ok(Answer::Bytes(len)) => {
            rooms::show(to, "window", rooms::parted(window(room), len).0)?;
            rooms::show_kept(to, is_kept_around(room, len))
        }
        Ok(Answer::End(looked)) => {
            writeln!(to, "end")?;
            rooms::show_looked(to, looked)?;
            rooms::show_kept(to, rooms::is_marked(room))
        }
        Err(r) => rooms::show_refusal(to, r, room),
    }
}

// The bytes that an answer reports.
fn reported(answer: Result<Answer, Refusal>) -> usize {
    match answer {
        Ok(Answer::Bytes(len)) => len,
        Ok(Answer::End(_)) | Err(_) => 0,
    }
}

fn show_bounds(
    to: &mut impl Write,
    answer: Result<Answer, Refusal>,
    room: &[u8],
    len: usize,
) -> io::Result<()> {
    let inside = is_kept_around(room, len) && reported(answer) <= len;
    writeln!(to, "{}", if inside { "inside" } else { "outside" })
}

// A print that goes on: what is shown of it, its table and width, and its state.
#[derive(Clone, Copy, Debug, PartialEq, Eq)]
struct Printing<'a> {
    shown: Shown,
    table: &'a [u8],
    width: u32,
    state: State,
}

impl Printing<'_> {
    // A call with a window of `len` bytes in a room that has nothing but it and its edges.
    fn call(&mut self, to: &mut impl Write, len: usize, room: &mut [u8]) -> io::Result<()> {
        room.fill(rooms::MARK);
        let edge = EDGE.min(room.len());
        let window = rooms::front(&mut room[edge..], len);
        let Filled { answer, state } = windows::fill(self.table, self.width, self.state, window);
        self.state = state;
        match self.shown {
            Shown::Answers => show_answer(to, answer, room),
            Shown::Bounds => show_bounds(to, answer, room, len),
        }
    }

    // A call for each of these lengths.
    fn calls(&mut self, to: &mut impl Write, lengths: &[u8], memory: &mut [u8]) -> io::Result<()> {
        for asked in lengths.chunks_exact(NUMBER) {
            let len = wide::u32_at(asked, 0).min(MOST);
            self.call(to, len, rooms::front(memory, len + 2 * EDGE))?;
        }
        Ok(())
    }
}

// The lengths are parted where the second table begins, and the tables by the length of the first.
pub fn print(
    to: &mut impl Write,
    case: Case<'_>,
    shown: Shown,
    memory: &mut [u8],
) -> io::Result<()> {
    let (head, rest) = rooms::parted(case.src, HEAD);
    let (lengths, tables) = numbers(rest, wide::u32_at(head, 0));
    let (early, late) = numbers(lengths, wide::u32_at(head, NUMBER));
    let (first, second) = rooms::parted(tables, wide::u32_at(head, 2 * NUMBER));
    let mut printing = Printing {
        shown,
        table: first,
        width: case.width(),
        state: windows::fresh(),
    };
    printing.calls(to, early, memory)?;
    printing.table = second;
    // Of V the second number is the layout, and there is one.
    if shown == Shown::Bounds {
        printing.width = width_of(case.b);
    }
    printing.calls(to, late, memory)
}
