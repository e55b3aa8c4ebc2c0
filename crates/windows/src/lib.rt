// The print of a table through a window of any length: a call fills the window, and the state says where the next call goes on.
#![tactic(auto)]

mod give;
mod machine;

ghost use Rattle.std.specs.Prelude.{◌≡◌, length};
ghost use Rattle.windows.specs.Machine.{state as state_of, fresh_state, phase_word, phase_in};
ghost use Rattle.windows.specs.Filling.{turn as turn_of, run as run_of, go_on, fill_of, call_of, call_at};
ghost use Rattle.windows.specs.PrivateGiving.{Runs, begins, begun_of};

use machine::Page;
use refusals::Refusal;

// What is put next: an enum and no closure, for a host keeps it between calls as a number.
#[derive(Clone, Copy, Debug, PartialEq, Eq, Default)]
pub enum Phase {
    // The table was not checked yet.
    #[default]
    Fresh,
    // The bytes of the record at its place: an atom, a binding's name, or `(`.
    Node,
    // ` @ ` after a binding's name.
    Sign,
    // What stands before an item that is not the first.
    Gap,
    // The new line before `)`.
    Back,
    Close,
    // The LF after a tree, and the LF between two trees.
    Line,
    Between,
    Done,
}

impl From<Phase> for u64 {
    ghost from_gives = { λ f n. n ≡ phase_word f };

    fn from(phase: Phase) -> u64 {
        phase as u64
    }
}

// Any number is a phase's: one past the last is the last's.
impl From<u64> for Phase {
    ghost from_gives = { λ n f. f ≡ phase_in n };

    #[tactic(auto, unfolding(crate::specs::Machine::phase_in))]
    fn from(n: u64) -> Phase {
        match n {
            0 => Phase::Fresh,
            1 => Phase::Node,
            2 => Phase::Sign,
            3 => Phase::Gap,
            4 => Phase::Back,
            5 => Phase::Close,
            6 => Phase::Line,
            7 => Phase::Between,
            _ => Phase::Done,
        }
    }
}

// The margin of a list that is on a single line: a value of its own among the bytes, since any words of a host mean a state (theorem through_words of tulbazhik_windows).
const SINGLE_LINE: u8 = 255;

// The small fields stand first, side by side: bytes between fields would be moved with every put.
#[derive(Clone, Copy, Debug, PartialEq, Eq, Default)]
pub struct Cursor {
    pub phase: Phase,
    // Of the innermost open list its indent, or SINGLE_LINE.
    pub margin: u8,
    // The indent of the next record.
    pub indent: u8,
    // Of the innermost list the items still due.
    pub due: u32,
    // The records that the fits test has looked at.
    pub looked: u32,
    // The place of the next record.
    pub at: usize,
    // The lists that are open.
    pub depth: usize,
    // Width + 1 - column: 0 past the width.
    pub left: usize,
    // The bytes that were given of what is put next.
    pub given: usize,
}

#[derive(Clone, Copy, Debug, PartialEq, Eq)]
pub struct State {
    pub cursor: Cursor,
    // For each open list what the cursor held of the one around it: the items due, and the margin times 2^32.
    pub stack: [u64; 64],
}

// What a call answers that refuses nothing: the end has a number of its own, and is no None.
#[derive(Clone, Copy, Debug, PartialEq, Eq)]
pub enum Answer {
    // Bytes given: the front of the window.
    Bytes(usize),
    // The records that the fits test looked at.
    End(usize),
}

#[derive(Clone, Copy, Debug, PartialEq, Eq)]
pub struct Filled {
    pub answer: Result<Answer, Refusal>,
    pub state: State,
}

// The same without the stack, which was lent. (One generic struct for both would call a cursor a state.)
#[derive(Clone, Copy, Debug, PartialEq, Eq)]
pub struct Moved {
    pub answer: Result<Answer, Refusal>,
    pub cursor: Cursor,
}

pub fn fresh() -> State
    ensures { result ≡ fresh_state }
{
    State {
        cursor: Cursor::default(),
        stack: [0; 64],
    }
}

// Bytes given, and the cursor after them.
#[derive(Clone, Copy, Debug, PartialEq, Eq)]
struct Ran {
    n: usize,
    cursor: Cursor,
}

// One put, or as much of it as there is room for.
fn turn(page: Page, c: Cursor, stack: &mut [u64], out: &mut [u8]) -> Ran
    ensures { Runs (turn_of page.entry.table.now page.entry.width (state_of c stack.old) (length out.old)) out.old out.new stack.new result }
{
    let gave = give::put(page.table, c, out);
    let cursor = match gave.left {
        None => page.next(c, stack),
        Some(given) => Cursor { given, ..c },
    };
    Ran { n: gave.n, cursor }
}

// Put after put, until the window is full or nothing is left. A put has a byte at least, so that as many turns as the window has bytes are enough.
fn run(page: Page, from: Cursor, stack: &mut [u64], out: &mut [u8]) -> Ran
    ensures { Runs (run_of (length out.old) page.entry.table.now page.entry.width (state_of from stack.old) (length out.old)) out.old out.new stack.new result }
{
    let n = out.len();
    let mut ran = Ran { n: 0, cursor: from };
    for _ in 0..n {
        if ran.cursor.phase == Phase::Done || ran.n == n {
            break;
        }
        let more = turn(page, ran.cursor, stack, &mut out[ran.n..]);
        ran = Ran {
            n: ran.n + more.n,
            cursor: more.cursor,
        };
    }
    ran
}

// A call that came with the cursor `c` and goes on from `from`.
fn go_on(page: Page, c: Cursor, from: Cursor, stack: &mut [u64], window: &mut [u8]) -> Moved
    ensures { call_at result stack.new window.new ≡ go_on page.entry.table.now page.entry.width (state_of c stack.old) (state_of from stack.old) window.old }
{
    if from.phase == Phase::Done {
        return Moved {
            answer: Ok(Answer::End(from.looked as usize)),
            cursor: from,
        };
    }
    if window.is_empty() {
        return Moved {
            answer: Ok(Answer::Bytes(0)),
            cursor: c,
        };
    }
    let ran = run(page, from, stack, window);
    Moved {
        answer: Ok(Answer::Bytes(ran.n)),
        cursor: ran.cursor,
    }
}

// Where a call that came with the cursor `c` goes on from: the first one checks the table.
fn begun(page: Page, c: Cursor) -> Result<Cursor, Refusal>
    ensures { begun_of result ≡ begins page.entry.table.now page.entry.width c }
{
    if c.phase == Phase::Fresh {
        table::check(page.table)?;
        Ok(page.start())
    } else {
        Ok(c)
    }
}

// The same as `fill`, with the stack lent, as the door for C lends a host's words: 64 words of it are enough, and what a shorter one cannot hold is lost.
pub fn fill_in(
    table: &[u8],
    width: u32,
    cursor: Cursor,
    stack: &mut [u64],
    window: &mut [u8],
) -> Moved
    ensures { call_at result stack.new window.new ≡ fill_of table.now width (state_of cursor stack.old) window.old }
{
    let page = Page { table, width };
    match begun(page, cursor) {
        Ok(from) => go_on(page, cursor, from, stack, window),
        Err(r) => Moved {
            answer: Err(r),
            cursor,
        },
    }
}

// Gives the next bytes of the print of a table at a width, as many as the window holds or as are left. The first call checks the table; a refused call gives its state back.
pub fn fill(table: &[u8], width: u32, mut state: State, window: &mut [u8]) -> Filled
    ensures { call_of result window.new ≡ fill_of table.now width state window.old }
{
    let moved = fill_in(table, width, state.cursor, &mut state.stack, window);
    state.cursor = moved.cursor;
    Filled {
        answer: moved.answer,
        state,
    }
}
