// The program of document 01: reads rules from standard input and writes them laid out at width 100, or the refusal.
#![tactic(auto)]

use refusals::{Fault, Refusal};
use std::io;
use std::io::{Read, Write};

// The bytes of the longest input, and of the rooms for the table and for the text.
const ROOM: usize = 65536;

const WIDTH: u32 = 100;

// The rules laid out in the front of `out`; their table is made in the other room.
fn laid_out<'a>(src: &[u8], table: &mut [u8], out: &'a mut [u8]) -> Result<&'a [u8], Refusal> {
    if ROOM < src.len() {
        return Err(Fault::TooLong.at(ROOM));
    }
    let len = reader::read(src, table)?;
    let text = printer::print(&table[..len], WIDTH, out)?;
    Ok(&out[..text.len])
}

fn main(rt: HostRuntime) -> io::Result<()> {
    let mut to = rt.stdout();
    let mut src = Vec::new(rt.alloc());
    // A byte past the room tells an input that is too long.
    rt.stdin().take(ROOM as u64 + 1).read_to_end(&mut src)?;
    // Rooms of a fixed size, to be lent; only the input is on the heap.
    let mut table = [0u8; ROOM];
    let mut out = [0u8; ROOM];
    match laid_out(&src, &mut table, &mut out) {
        Ok(text) => to.write_all(text),
        Err(r) => writeln!(to, "{r}"),
    }
}
