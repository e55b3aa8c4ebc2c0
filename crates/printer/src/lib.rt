// The layout of a table at a width, a port of the crate's `Printer`: checked and measured in one walk, then laid into the room lent.
#![tactic(auto)]

mod atoms;
pub mod cost;
mod flat;
mod gaps;
mod measure;
mod page;
mod room;

ghost use Rattle.std.specs.Prelude.{◌≡◌, ◌≤◌, ltb, length};
ghost use Rattle.refusals.specs.Numbers.{depth_limit};
ghost use Rattle.refusals.specs.Result.{ok};
ghost use Rattle.table.specs.Costs.{costed};
ghost use Rattle.table.specs.Decoding.{tree_at, table_of};
ghost use Rattle.printer.specs.Layout.{page};
ghost use Rattle.printer.specs.Looking.{page_looked};
ghost use Rattle.printer.specs.Printing.{printing, printed_into, print_of};
ghost use Rattle.printer.specs.PrivateTrees.{Right, tree_of, trees_of};
ghost use Rattle.lists.specs.Rooms.{Filled};
ghost use Rattle.printer.specs.PrivateWriting.{Written, laid, seen, Ready, framed};

use page::Page;
use refusals::{Fault, Refusal};
use table::Record;

// What was written.
#[derive(Clone, Copy, Debug, PartialEq, Eq)]
pub struct Text {
    // Its bytes.
    pub len: usize,
    // The records that the fits test looked at.
    pub looked: usize,
}

// What a tree takes, where lists are tested. Not around a `Run`, which would be taken apart in each arm.
#[derive(Clone, Copy, Debug, PartialEq, Eq)]
struct Laid {
    // The place past the tree.
    next: usize,
    // The bytes that it takes.
    len: usize,
    // The records that the fits test looked at.
    looked: usize,
}

impl Page<'_> {
    // The tree at `at` of a checked table. A list that fits is on a single line, with all inside it; any other has its items tested in turn.
    // `at`, `depth`, `indent` and `column` stay apart: in a struct they go through memory, and a print at width 0 costs 5.7 % more instructions.
    fn print_wrapped(
        &self,
        at: usize,
        depth: usize,
        indent: usize,
        column: usize,
        out: &mut [u8],
    ) -> Laid
        requires { Ready self.now.table.now depth at self.now.width indent column }
        ensures { Written (laid self.now.width indent column) (tree_at self.now.table.now depth at) result.next result.len out.old out.new
            × (result.looked ≡ seen self.now.width indent column (tree_of (tree_at self.now.table.now depth at))) }
    {
        // A checked table has a good record there.
        let node = table::record_at(self.table, at).unwrap();
        match node {
            Record::Symbol(len) => {
                let n = atoms::put_symbol(self.table, at, len, out);
                Laid {
                    next: at + len,
                    len: n,
                    looked: 0,
                }
            }
            Record::Integer => {
                let n = atoms::put_integer(self.table, at, out);
                Laid {
                    next: at + table::INTEGER_LEN,
                    len: n,
                    looked: 0,
                }
            }
            Record::Binding(len) => {
                let k = atoms::put_name(self.table, at, len, out);
                let rest = k.min(out.len());
                let tree = self.print_wrapped(
                    at + len,
                    depth - 1,
                    indent,
                    column + k,
                    &mut out[rest..],
                );
                Laid {
                    next: tree.next,
                    len: k + tree.len,
                    looked: tree.looked,
                }
            }
            Record::List(n) => {
                let test = cost::fits(self.table, at, self.width, column);
                if test.fits {
                    let line = flat::print_flat(self.table, at, depth, out);
                    return Laid {
                        next: line.next,
                        len: line.len,
                        looked: test.looked,
                    };
                }
                let mut w = room::put_byte(b'(', out);
                let mut p = at + table::LIST_LEN;
                let mut looked = test.looked;
                for i in 0..n {
                    let from = w.min(out.len());
                    let k = w + gaps::put_gap(i == 0, indent, &mut out[from..]);
                    let rest = k.min(out.len());
                    let item = self.print_wrapped(
                        p,
                        depth - 1,
                        gaps::item_indent(i == 0, indent),
                        gaps::item_column(i == 0, indent, column + 1),
                        &mut out[rest..],
                    );
                    w = k + item.len;
                    p = item.next;
                    looked += item.looked;
                }
                let rest = w.min(out.len());
                let end = gaps::put_close(n == 0, indent, &mut out[rest..]);
                Laid {
                    next: p,
                    len: w + end,
                    looked,
                }
            }
        }
    }

    // A tree and its LF, and the LF between it and one before it.
    fn print_node(&self, at: usize, out: &mut [u8]) -> Laid
        requires { (at ≤ length self.now.table.now) × Right (tree_at self.now.table.now depth_limit at)
            × (costed self.now.table.now (tree_of (tree_at self.now.table.now depth_limit at)) at ≡ ok tt) }
        ensures { Written (framed (ltb 0 at) self.now.width) (tree_at self.now.table.now depth_limit at) result.next result.len out.old out.new
            × (result.looked ≡ seen self.now.width 0 0 (tree_of (tree_at self.now.table.now depth_limit at))) }
    {
        let w = room::put_optional((0 < at).then_some(b'\n'), out);
        let rest = w.min(out.len());
        let tree = self.print_wrapped(at, refusals::DEPTH_LIMIT, 0, 0, &mut out[rest..]);
        let end = w + tree.len;
        let last = end.min(out.len());
        let k = room::put_byte(b'\n', &mut out[last..]);
        Laid {
            next: tree.next,
            len: end + k,
            looked: tree.looked,
        }
    }

    // All trees of a checked table, each in the rest of the room from its first free byte; the records that the fits test looked at.
    fn print_trees(&self, out: &mut [u8]) -> usize
        requires { Right (table_of self.now.table.now) }
        ensures { Filled (page (trees_of (table_of self.now.table.now)) self.now.width) out.old out.new
            × (result ≡ page_looked (trees_of (table_of self.now.table.now)) self.now.width) }
    {
        let mut p = 0;
        let mut w: usize = 0;
        let mut looked = 0;
        // No `for`: the next place is where a tree ends.
        while p < self.table.len() {
            let rest = w.min(out.len());
            let line = self.print_node(p, &mut out[rest..]);
            w += line.len;
            p = line.next;
            looked += line.looked;
        }
        looked
    }
}

// Prints the trees of a table at a width into the front of `out`; a refusal leaves `out` as it was.
pub fn print(table: &[u8], width: u32, out: &mut [u8]) -> Result<Text, Refusal>
    ensures { (print_of result ≡ printing table.now width (length out.old))
        × (out.new ≡ printed_into table.now width out.old) }
{
    if refusals::TABLE_LIMIT < table.len() {
        return Err(Fault::TooLong.at(refusals::TABLE_LIMIT));
    }
    let page = Page { table, width };
    let len = page.measure()?;
    if out.len() < len {
        return Err(Fault::PrintRoom.at(len));
    }
    let looked = page.print_trees(out);
    Ok(Text { len, looked })
}
