// A tree on a single line, and so all inside it: no column, no width and no indent. Apart from `print_wrapped`, for time: most lists fit (docs/SPEED.md).
ghost use Rattle.std.specs.Prelude.{◌≡◌, ◌≤◌, length, IsOk};
ghost use Rattle.refusals.specs.Numbers.{table_limit, depth_limit};
ghost use Rattle.table.specs.Decoding.{tree_at};
ghost use Rattle.table.specs.Records.{record_at};
ghost use Rattle.printer.specs.PrivateTrees.{Right, named_len};
ghost use Rattle.printer.specs.PrivateWriting.{line, Written};

use crate::{atoms, room};
use table::{Kind, Record};

#[derive(Clone, Copy, Debug, PartialEq, Eq)]
pub struct Run {
    // The place past the tree.
    pub next: usize,
    // The bytes that it takes.
    pub len: usize,
}

// The length of the symbol's record at `at` of a checked table; none of any other record.
fn symbol_at(t: &[u8], at: usize) -> Option<usize>
    requires { at ≤ table_limit }
    ensures { IsOk (record_at t.now at) → result ≡ named_len (record_at t.now at) }
{
    if records::kind_at(t, at) == Kind::Symbol as usize {
        return Some(records::len_at(t, at));
    }
    None
}

// The tree at `at` of a checked table. A symbol in a list takes no call of its own. It gets the table and not the page, through which a print at width 100 costs 3.6 % more instructions.
pub fn print_flat(t: &[u8], at: usize, depth: usize, out: &mut [u8]) -> Run
    requires { (at ≤ length t.now) × (length t.now ≤ table_limit) × (depth ≤ depth_limit) × Right (tree_at t.now depth at) }
    ensures { Written line (tree_at t.now depth at) result.next result.len out.old out.new }
{
    // A checked table has a good record there.
    let node = table::record_at(t, at).unwrap();
    match node {
        Record::Symbol(len) => {
            let n = atoms::put_symbol(t, at, len, out);
            Run {
                next: at + len,
                len: n,
            }
        }
        Record::Integer => {
            let n = atoms::put_integer(t, at, out);
            Run {
                next: at + table::INTEGER_LEN,
                len: n,
            }
        }
        Record::Binding(len) => {
            let k = atoms::put_name(t, at, len, out);
            let rest = k.min(out.len());
            let tree = print_flat(t, at + len, depth - 1, &mut out[rest..]);
            Run {
                next: tree.next,
                len: k + tree.len,
            }
        }
        Record::List(n) => {
            let mut w = room::put_byte(b'(', out);
            let mut p = at + table::LIST_LEN;
            for i in 0..n {
                let from = w.min(out.len());
                let k = w + room::put_optional((0 < i).then_some(b' '), &mut out[from..]);
                let rest = k.min(out.len());
                if let Some(len) = symbol_at(t, p) {
                    w = k + atoms::put_symbol(t, p, len, &mut out[rest..]);
                    p += len;
                } else {
                    let item = print_flat(t, p, depth - 1, &mut out[rest..]);
                    w = k + item.len;
                    p = item.next;
                }
            }
            let rest = w.min(out.len());
            let end = room::put_byte(b')', &mut out[rest..]);
            Run {
                next: p,
                len: w + end,
            }
        }
    }
}
