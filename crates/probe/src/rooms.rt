// Rooms that are lent to the proved code, and what of them was written.
use refusals::Refusal;
use std::io;
use std::io::Write;

// What a room holds before a call, so that a byte that the call must not touch shows.
pub const MARK: u8 = 0xA5;

static DIGITS: [u8; 16] = *b"0123456789abcdef";

// The first n bytes and the rest, or all of them and nothing.
pub fn parted(s: &[u8], n: usize) -> (&[u8], &[u8]) {
    s.split_at(n.min(s.len()))
}

// The first n bytes of a room, or all of it.
pub fn front(room: &mut [u8], n: usize) -> &mut [u8] {
    let k = n.min(room.len());
    &mut room[..k]
}

// Without an early end, so that the loop goes many bytes at a time.
pub fn is_marked(rest: &[u8]) -> bool {
    rest.iter().fold(0, |other, b| other | (*b ^ MARK)) == 0
}

pub fn show_kept(to: &mut impl Write, marked: bool) -> io::Result<()> {
    writeln!(to, "{}", if marked { "kept" } else { "touched" })
}

// Bytes, two digits each. Put as bytes and not by `Display`: with a `{:02x}` for each the ops that show a table or a text took up to 2.7 times as long.
fn show_digits(to: &mut impl Write, s: &[u8]) -> io::Result<()> {
    for b in s {
        to.write_all(&[DIGITS[(*b / 16) as usize], DIGITS[(*b % 16) as usize]])?;
    }
    Ok(())
}

pub fn show(to: &mut impl Write, word: &str, s: &[u8]) -> io::Result<()> {
    writeln!(to, "{word} {}", s.len())?;
    show_digits(to, s)?;
    writeln!(to)
}

// The records that the fits test looked at.
pub fn show_looked(to: &mut impl Write, count: usize) -> io::Result<()> {
    writeln!(to, "looked {count}")
}

// A refusal, which was not to touch the room.
pub fn show_refusal(to: &mut impl Write, r: Refusal, room: &[u8]) -> io::Result<()> {
    writeln!(to, "{r}")?;
    show_kept(to, is_marked(room))
}

// Lends a marked room to a call, and shows what it wrote there: the front of the room, and its rest was not to be touched.
pub fn lend<F>(to: &mut impl Write, word: &str, room: &mut [u8], call: F) -> io::Result<()>
where
    F: FnOnce(&mut [u8]) -> Result<usize, Refusal>,
    requires { F.IsAlwaysCallable call }
{
    room.fill(MARK);
    match call(room) {
        Ok(len) => {
            let (written, rest) = parted(room, len);
            show(to, word, written)?;
            show_kept(to, is_marked(rest))
        }
        Err(r) => show_refusal(to, r, room),
    }
}
