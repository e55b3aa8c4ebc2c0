// Puts into a window: from a place of the put on, as much as there is room for.
ghost use Rattle.std.specs.Prelude.{◌≡◌, ◌+◌, ◌≤◌, ◌<◌, ◌^◌, [], ◌∷◌, length, take, drop, nat_eq, if◌then◌else◌};
ghost use Rattle.wide.specs.Bytes.{integer_at};
ghost use Rattle.wide.specs.Text.{integer_text};
ghost use Rattle.records.specs.Records.{head_len, payload};
ghost use Rattle.table.specs.Kinds.{integer_len};
ghost use Rattle.table.specs.Records.{record_at};
ghost use Rattle.printer.specs.Layout.{bytes, nl};
ghost use Rattle.windows.specs.Machine.{node_put, gap_put, mode_of, put_of};
ghost use Rattle.windows.specs.PrivateGiving.{part_of, Given};

use crate::{Cursor, Phase, SINGLE_LINE};
use table::Record;

// The bytes given, and if something is left of the put, the place in it where that begins.
#[derive(Clone, Copy, Debug, PartialEq, Eq)]
pub struct Gave {
    pub n: usize,
    pub left: Option<usize>,
}

// Of the `rest` bytes that a put has from the place `from` on, as many as a room holds.
fn part(rest: usize, from: usize, room: usize) -> Gave
    requires { from + rest < 2 ^ 64 }
    ensures { result ≡ part_of rest from room }
{
    let n = rest.min(room);
    Gave {
        n,
        left: (n < rest).then_some(from + n),
    }
}

// `from` and the window stay two parameters here and below: what a call writes to a window that a struct holds is not known to the check.
fn give(put: &[u8], from: usize, out: &mut [u8]) -> Gave
    ensures { Given put.now from out.old out.new result }
{
    let rest = &put[from.min(put.len())..];
    let gave = part(rest.len(), from, out.len());
    lists::put(&rest[..gave.n], out);
    gave
}

// A put of one byte. By `give` each would be a call (tried: 5 instructions more an output byte through windows of 512 bytes, which may take 1.7 times an ordinary print's).
fn give_byte(b: u8, from: usize, out: &mut [u8]) -> Gave
    ensures { Given (b ∷ []) from out.old out.new result }
{
    let gave = part(1usize.saturating_sub(from), from, out.len());
    if 0 < gave.n {
        out[0] = b;
    }
    gave
}

// The byte at i of a line break: LF, then spaces.
fn break_byte(i: usize) -> u8
    ensures { result ≡ (if nat_eq i 0 then 10 else 32) }
{
    if i == 0 { b'\n' } else { b' ' }
}

// The bytes of a line break from a place on. Byte by byte and not by `fill`: that is a call of `memset`, a name that the archive for C would need from outside.
fn break_into(indent: u8, from: usize, out: &mut [u8])
    requires { length out.old ≤ length (drop from (bytes (nl indent))) }
    ensures { out.new ≡ take (length out.old) (drop from (bytes (nl indent))) }
{
    for i in 0..out.len() {
        out[i] = break_byte(from + i);
    }
}

// A line break: LF and 4 spaces for each indent.
fn give_break(indent: u8, from: usize, out: &mut [u8]) -> Gave
    ensures { Given (bytes (nl indent)) from out.old out.new result }
{
    let rest = (4 * indent as usize + 1).saturating_sub(from);
    let given = part(rest, from, out.len());
    break_into(indent, from, &mut out[..given.n]);
    given
}

fn give_integer(t: &[u8], at: usize, from: usize, out: &mut [u8]) -> Gave
    requires { at + integer_len ≤ length t.now }
    ensures { Given (integer_text (integer_at t.now (at + head_len))) from out.old out.new result }
{
    // The longest text of an integer has 40 bytes.
    let mut text = [0; 40];
    let n = wide::put_text(wide::wide_at(t, at + records::HEAD), &mut text);
    give(&text[..n], from, out)
}

// The payload of the record of `len` bytes at `at`: three, as in the printer's `atoms`.
fn give_name(t: &[u8], at: usize, len: usize, from: usize, out: &mut [u8]) -> Gave
    requires { (head_len ≤ len) × (at + len ≤ length t.now) }
    ensures { Given (payload t.now at len) from out.old out.new result }
{
    give(&t[at + records::HEAD..at + len], from, out)
}

// The bytes of the record at `at`.
fn give_node(t: &[u8], at: usize, from: usize, out: &mut [u8]) -> Gave
    ensures { Given (node_put t.now at (record_at t.now at)) from out.old out.new result }
{
    // A symbol and a binding have an arm each: what a pattern of both takes has no name in a proof.
    match table::record_at(t, at) {
        Ok(Record::Symbol(len)) => give_name(t, at, len, from, out),
        Ok(Record::Binding(len)) => give_name(t, at, len, from, out),
        Ok(Record::Integer) => give_integer(t, at, from, out),
        Ok(Record::List(_)) => give_byte(b'(', from, out),
        Err(_) => give(b"", from, out),
    }
}

fn give_gap(margin: u8, from: usize, out: &mut [u8]) -> Gave
    ensures { Given (gap_put (mode_of margin) margin) from out.old out.new result }
{
    if margin == SINGLE_LINE {
        give_byte(b' ', from, out)
    } else {
        give_break(margin + 1, from, out)
    }
}

// What is left of the next put.
#[tactic(auto, unfolding(crate::specs::Machine::put_of))]
pub fn put(t: &[u8], c: Cursor, out: &mut [u8]) -> Gave
    ensures { Given (put_of t.now c) c.given out.old out.new result }
{
    let from = c.given;
    match c.phase {
        Phase::Node => give_node(t, c.at, from, out),
        Phase::Sign => give(b" @ ", from, out),
        Phase::Gap => give_gap(c.margin, from, out),
        Phase::Back => give_break(c.margin, from, out),
        Phase::Close => give_byte(b')', from, out),
        Phase::Line | Phase::Between => give_byte(b'\n', from, out),
        Phase::Fresh | Phase::Done => give(b"", from, out),
    }
}
