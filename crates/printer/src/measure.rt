// The check of a table and its measure in one walk, before a byte is written: what each tree costs, and the bytes that it takes if the costs are right.
ghost use Rattle.std.specs.Prelude.{◌≡◌, None, false, ◌+◌, ◌*◌, ◌≤◌, ◌<◌, length};
ghost use Rattle.refusals.specs.Numbers.{depth_limit};
ghost use Rattle.refusals.specs.Result.{ok};
ghost use Rattle.table.specs.Kinds.{list_len};
ghost use Rattle.table.specs.Trees.{list};
ghost use Rattle.table.specs.Costs.{stored_cost};
ghost use Rattle.table.specs.Decoding.{tree_at, items_at, and_then, found, table_of};
ghost use Rattle.printer.specs.Layout.{fits_in};
ghost use Rattle.printer.specs.PrivateMeasuring.{Straight, Sized, Summed};

use crate::page::Page;
use crate::{cost, gaps, room};
use records::HEAD;
use refusals::{Fault, Refusal};
use table::{Kind, Record, walk};

// What a tree takes. Beside `table::walk`, and not one walk for both: that one knows no width, indent or column, and walks most of a table (docs/SPEED.md).
#[derive(Clone, Copy, Debug, PartialEq, Eq)]
pub struct Size {
    // The place past the tree.
    pub place: usize,
    pub cost: usize,
    // The place of the first list that stores a wrong cost.
    pub wrong: Option<usize>,
    // The bytes as it is laid, if no cost is wrong.
    pub len: usize,
}

// A symbol or an integer of n bytes.
fn atom(place: usize, n: usize) -> Size
    ensures { result ≡ record { place = place; cost = n; wrong = None; len = n } }
{
    Size {
        place,
        cost: n,
        wrong: None,
        len: n,
    }
}

// `at` is no field of the page: it is another at each call.
impl Page<'_> {
    // The tree at `at`, with `depth` lists and bindings still to be opened. Its place and its layout stay apart as in `print_wrapped`.
    #[cycle(measure_list_measure_tree)]
    fn measure_tree(
        &self,
        at: usize,
        depth: usize,
        indent: usize,
        column: usize,
    ) -> Result<Size, Refusal>
        requires { (at ≤ length self.now.table.now) × (indent + depth ≤ depth_limit) × (column ≤ at + 4 * depth_limit) }
        ensures { Sized self.now.table.now at (tree_at self.now.table.now depth at) self.now.width indent column result }
    {
        let table = self.table;
        // By the cost that it stores it is on a single line: the walk over it judges it, and if that cost is wrong there is no text to measure.
        if records::kind_at(table, at) == Kind::List as usize
            && cost::fits_in(self.width as usize, column, table::stored_cost(table, at))
        {
            return self.measure_line(at, depth);
        }
        match table::step_at(table, at, 0 < depth) {
            Err(fault) => Err(fault.at(at)),
            Ok(Record::Symbol(len)) => Ok(atom(at + len, len - HEAD)),
            Ok(Record::Integer) => Ok(atom(
                at + table::INTEGER_LEN,
                wide::text_len(wide::wide_at(table, at + HEAD)),
            )),
            Ok(Record::Binding(len)) => {
                let n = len - HEAD + 3;
                let m = self.measure_tree(at + len, depth - 1, indent, column + n)?;
                Ok(Size {
                    cost: n + m.cost,
                    len: n + m.len,
                    ..m
                })
            }
            Ok(Record::List(n)) => {
                if n == 0 {
                    return self.measure_line(at, depth);
                }
                self.measure_list(at, n, depth - 1, indent, column)
            }
        }
    }

    // The tree at `at` on a single line.
    fn measure_line(&self, at: usize, depth: usize) -> Result<Size, Refusal>
        requires { at ≤ length self.now.table.now }
        ensures { Straight self.now.table.now at (tree_at self.now.table.now depth at) result }
    {
        let x = walk::walk_tree(self.table, at, depth)?;
        Ok(Size {
            place: x.place,
            cost: x.cost,
            wrong: x.wrong,
            len: x.cost + x.empty,
        })
    }

    // The list of n items at `at`, which does not fit and is wrapped. A symbol takes no call of its own.
    #[cycle(measure_list_measure_tree)]
    fn measure_list(
        &self,
        at: usize,
        n: usize,
        depth: usize,
        indent: usize,
        column: usize,
    ) -> Result<Size, Refusal>
        requires { (at + list_len ≤ length self.now.table.now) × (indent + 1 + depth ≤ depth_limit) × (column ≤ at + 4 * depth_limit) × (0 < n) × (n < 4294967296)
            × (fits_in self.now.width column (stored_cost self.now.table.now at) ≡ false) }
        ensures { Sized self.now.table.now at (and_then (items_at (tree_at self.now.table.now depth) n (at + list_len)) (λ xs q. ok (found (list xs) q))) self.now.width indent column result }
    {
        let table = self.table;
        let mut p = at + table::LIST_LEN;
        let mut cost = n + 1;
        let mut wrong = None;
        let mut len = room::nl_len(indent) + 2;
        for i in 0..n {
            let q = table::past_symbol(table, p);
            if p < q {
                let k = q - p - HEAD;
                cost += k;
                len += k;
                p = q;
            } else {
                let m = self.measure_tree(
                    p,
                    depth,
                    gaps::item_indent(i == 0, indent),
                    gaps::item_column(i == 0, indent, column + 1),
                )?;
                cost += m.cost;
                wrong = walk::earlier(wrong, m.wrong);
                len += m.len;
                p = m.place;
            }
        }
        let breaks = (n - 1) * room::nl_len(indent + 1);
        let own = walk::own_wrong(table, at, cost);
        Ok(Size {
            place: p,
            cost,
            wrong: walk::earlier(own, wrong),
            len: len + breaks,
        })
    }

    // The bytes of the text of the table, or its refusal: the first in the order of its records, then the first wrong cost.
    pub fn measure(&self) -> Result<usize, Refusal>
        ensures { Summed (table_of self.now.table.now) self.now.width result }
    {
        let table = self.table;
        let mut p = 0;
        let mut wrong = None;
        let mut w = 0;
        // No `for`: the next place is where a tree ends.
        while p < table.len() {
            let m = self.measure_tree(p, refusals::DEPTH_LIMIT, 0, 0)?;
            wrong = walk::earlier(wrong, m.wrong);
            if 0 < p {
                w += 1;
            }
            w += m.len + 1;
            p = m.place;
        }
        match wrong {
            Some(place) => Err(Fault::WrongCost.at(place)),
            None => Ok(w),
        }
    }
}
