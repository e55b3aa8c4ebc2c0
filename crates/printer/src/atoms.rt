// What a record puts of its own: a symbol, an integer, or a binding's name. Table, place and length stay three: a slice of a name would be cut before it is asked
// for, by the walks that put nothing.
ghost use Rattle.std.specs.Prelude.{◌+◌, ◌≤◌, length};
ghost use Rattle.wide.specs.Bytes.{integer_at};
ghost use Rattle.wide.specs.Text.{integer_text};
ghost use Rattle.records.specs.Records.{head_len, payload};
ghost use Rattle.table.specs.Kinds.{integer_len};
ghost use Rattle.printer.specs.Layout.{named};
ghost use Rattle.lists.specs.Rooms.{Puts};

use records::HEAD;

// The symbol whose record of `len` bytes stands at `at`.
pub fn put_symbol(t: &[u8], at: usize, len: usize, out: &mut [u8]) -> usize
    requires { (head_len ≤ len) × (at + len ≤ length t.now) }
    ensures { Puts (payload t.now at len) result out.old out.new }
{
    lists::put(&t[at + HEAD..at + len], out)
}

// The integer whose record stands at `at`.
pub fn put_integer(t: &[u8], at: usize, out: &mut [u8]) -> usize
    requires { at + integer_len ≤ length t.now }
    ensures { Puts (integer_text (integer_at t.now (at + head_len))) result out.old out.new }
{
    wide::put_text(wide::wide_at(t, at + HEAD), out)
}

// The name of the binding whose record of `len` bytes stands at `at`, and ` @ `.
pub fn put_name(t: &[u8], at: usize, len: usize, out: &mut [u8]) -> usize
    requires { (head_len ≤ len) × (at + len ≤ length t.now) }
    ensures { Puts (named (payload t.now at len)) result out.old out.new }
{
    let n = len - HEAD;
    if out.len() < n + 3 {
        return n + 3;
    }
    out[..n].copy_from_slice(&t[at + HEAD..at + len]);
    out[n..n + 3].copy_from_slice(b" @ ");
    n + 3
}
