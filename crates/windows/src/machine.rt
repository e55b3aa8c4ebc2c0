// The cursor after a put.
ghost use Rattle.std.specs.Prelude.{◌≡◌, ◌+◌, ◌<◌, length};
ghost use Rattle.refusals.specs.Numbers.{depth_limit};
ghost use Rattle.wide.specs.Bytes.{Bytes};
ghost use Rattle.table.specs.Kinds.{list_len};
ghost use Rattle.table.specs.Records.{record_at};
ghost use Rattle.windows.specs.Machine.{state, leaves, broken as broken_of, held, held_due, held_margin, moved as moved_of, after_phase, past as past_of, test_for, mode_of, margin_for, plus as plus_of, opened as opened_of, list_next, node_next, taken as taken_of, gap_next, popped as popped_of, begin as begin_of, next_of, start_cursor};

use crate::{Cursor, Phase, SINGLE_LINE};
use printer::cost;
use printer::cost::Tested;
use table::Record;

// A table, and the width that it is laid out at. Not the printer's: before the first call has refused it, a table may be longer than the limit.
#[derive(Clone, Copy, Debug, PartialEq, Eq)]
pub struct Page<'a> {
    pub table: &'a [u8],
    pub width: u32,
    // What a slice that is a parameter tells by itself, and one in a field does not: so a list's items fit 32 bits.
    ghost bytes: { Bytes table.now },
}

// What the stack holds of a list: one word, since a host keeps the stack in words (theorem through_words of tulbazhik_windows).
#[derive(Clone, Copy, Debug, PartialEq, Eq)]
struct Held {
    due: u32,
    margin: u8,
}

impl From<Held> for u64 {
    ghost from_gives = { λ h x. x ≡ held h.due h.margin };

    fn from(list: Held) -> u64 {
        list.due as u64 + 4294967296 * (list.margin as u64)
    }
}

impl From<u64> for Held {
    ghost from_gives = { λ x h. h ≡ record { due = held_due x; margin = held_margin x } };

    fn from(word: u64) -> Held {
        Held {
            due: (word % 4294967296) as u32,
            margin: (word / 4294967296 % 256) as u8,
        }
    }
}

// The margin of a list at an indent.
fn margin_for(single: bool, indent: u8) -> u8
    ensures { result ≡ margin_for single indent }
{
    if single { SINGLE_LINE } else { indent }
}

// So many records more, in 32 bits.
fn plus(looked: u32, more: usize) -> u32
    ensures { result ≡ plus_of looked more }
{
    looked.wrapping_add((more % 4294967296) as u32)
}

impl Cursor {
    fn moved(self, phase: Phase, at: usize, left: usize) -> Cursor
        ensures { result ≡ moved_of self phase at left }
    {
        Cursor {
            phase,
            at,
            left,
            given: 0,
            ..self
        }
    }

    // What is put after a tree.
    fn after(self) -> Phase
        ensures { result ≡ after_phase self }
    {
        if self.depth == 0 {
            Phase::Line
        } else if 0 < self.due {
            Phase::Gap
        } else if self.margin == SINGLE_LINE {
            Phase::Close
        } else {
            Phase::Back
        }
    }

    fn past(self, at: usize, left: usize) -> Cursor
        ensures { result ≡ past_of self at left }
    {
        self.moved(self.after(), at, left)
    }

    // Behind the `(` of a list of n items that was tested.
    fn opened(self, n: u32, x: Tested) -> Cursor
        requires { (self.depth < depth_limit) × (self.at + list_len < 18446744073709551616) }
        ensures { result ≡ opened_of self n x }
    {
        Cursor {
            phase: if n == 0 { Phase::Close } else { Phase::Node },
            at: self.at + table::LIST_LEN,
            depth: self.depth + 1,
            due: n.saturating_sub(1),
            looked: plus(self.looked, x.looked),
            margin: margin_for(x.fits, self.indent),
            left: self.left.saturating_sub(1),
            given: 0,
            ..self
        }
    }

    // Before an item.
    fn taken(self, left: usize, indent: u8) -> Cursor
        ensures { result ≡ taken_of self left indent }
    {
        Cursor {
            phase: Phase::Node,
            due: self.due.saturating_sub(1),
            left,
            indent,
            given: 0,
            ..self
        }
    }

    // The list around the innermost comes back from the stack.
    fn popped(self, stack: &[u64]) -> Cursor
        ensures { result ≡ popped_of self stack.now }
    {
        let depth = self.depth.saturating_sub(1);
        let Held { due, margin } = Held::from(stack.get(depth).copied().unwrap_or(0));
        Cursor {
            phase: Phase::Close,
            depth,
            due,
            margin,
            given: 0,
            ..self
        }
    }
}

// A cursor and the stack lent with it stay two parameters: of a struct of both, changed behind a `&mut`, each contract would have to say that its stack is still the same one.
impl Page<'_> {
    // What the start of a line leaves of it, and one more.
    fn line(self) -> usize
        ensures { result ≡ leaves self.entry.width 0 }
    {
        self.width as usize + 1
    }

    // The same after a line break to an indent.
    fn broken(self, indent: u8) -> usize
        ensures { result ≡ broken_of self.entry.width indent }
    {
        self.line()
            .saturating_sub(cost::break_column(indent as usize))
    }

    // Before the first tree.
    pub fn start(self) -> Cursor
        ensures { result ≡ start_cursor (length self.entry.table.now) self.entry.width }
    {
        Cursor {
            phase: if self.table.is_empty() {
                Phase::Done
            } else {
                Phase::Node
            },
            left: self.line(),
            ..Cursor::default()
        }
    }

    // The test of a list at the place of `c`: inside one that is on a single line there is none, and it is on that line too.
    fn test_for(self, c: Cursor) -> Tested
        ensures { result ≡ test_for self.entry.table.now self.entry.width c (mode_of c.margin) }
    {
        if c.margin == SINGLE_LINE {
            return Tested {
                fits: true,
                looked: 0,
            };
        }
        cost::fits(
            self.table,
            c.at,
            self.width,
            self.line().saturating_sub(c.left),
        )
    }

    // What the cursor holds of the innermost list goes to the stack.
    fn list_next(self, c: Cursor, n: u32, stack: &mut [u64]) -> Cursor
        requires { c.at + list_len < 18446744073709551616 }
        ensures { state result stack.new ≡ list_next self.entry.table.now self.entry.width (state c stack.old) n }
    {
        if refusals::DEPTH_LIMIT <= c.depth {
            return c.moved(Phase::Done, c.at, c.left);
        }
        // By `get_mut` nothing would be known of the stack afterwards.
        if c.depth < stack.len() {
            stack[c.depth] = u64::from(Held {
                due: c.due,
                margin: c.margin,
            });
        }
        c.opened(n, self.test_for(c))
    }

    fn node_next(self, c: Cursor, stack: &mut [u64]) -> Cursor
        ensures { state result stack.new ≡ node_next self.entry.table.now self.entry.width (state c stack.old) (record_at self.entry.table.now c.at) }
    {
        let t = self.table;
        let at = c.at;
        let left = c.left;
        match table::record_at(t, at) {
            Ok(Record::Symbol(len)) => c.past(at + len, left.saturating_sub(len - records::HEAD)),
            Ok(Record::Integer) => {
                let n = wide::text_len(wide::wide_at(t, at + records::HEAD));
                c.past(at + table::INTEGER_LEN, left.saturating_sub(n))
            }
            Ok(Record::Binding(len)) => c.moved(
                Phase::Sign,
                at + len,
                left.saturating_sub(len - records::HEAD),
            ),
            Ok(Record::List(n)) => self.list_next(c, n as u32, stack),
            Err(_) => c.moved(Phase::Done, at, left),
        }
    }

    fn gap_next(self, c: Cursor) -> Cursor
        ensures { result ≡ gap_next c self.entry.width }
    {
        if c.margin == SINGLE_LINE {
            return c.taken(c.left.saturating_sub(1), c.indent);
        }
        let indent = c.margin + 1;
        c.taken(self.broken(indent), indent)
    }

    // Each tree begins at column 0 and indent 0.
    fn begin(self, c: Cursor) -> Cursor
        ensures { result ≡ begin_of c self.entry.width }
    {
        Cursor {
            phase: Phase::Node,
            left: self.line(),
            indent: 0,
            given: 0,
            ..c
        }
    }

    #[tactic(auto, unfolding(crate::specs::Machine::next_of))]
    pub fn next(self, c: Cursor, stack: &mut [u64]) -> Cursor
        ensures { state result stack.new ≡ next_of self.entry.table.now self.entry.width (state c stack.old) }
    {
        let at = c.at;
        let left = c.left;
        match c.phase {
            Phase::Node => self.node_next(c, stack),
            Phase::Sign => c.moved(Phase::Node, at, left.saturating_sub(3)),
            Phase::Gap => self.gap_next(c),
            Phase::Back => c.moved(Phase::Close, at, self.broken(c.margin)),
            Phase::Close => c.popped(stack).past(at, left.saturating_sub(1)),
            Phase::Line => {
                let more = at < self.table.len();
                c.moved(if more { Phase::Between } else { Phase::Done }, at, left)
            }
            Phase::Between => self.begin(c),
            Phase::Fresh | Phase::Done => c,
        }
    }
}
