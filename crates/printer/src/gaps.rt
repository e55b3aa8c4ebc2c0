// What stands before an item of a list that is wrapped, and before its closing parenthesis; and where the item then is. `first` and `indent` stay two: the one
// changes with each item, the other with none, and a bound on a number is no plainer as a struct that each takes apart.
ghost use Rattle.std.specs.Prelude.{◌≡◌, ◌+◌, ◌≤◌};
ghost use Rattle.refusals.specs.Numbers.{depth_limit};
ghost use Rattle.printer.specs.Layout.{Wrap, bytes, column as column_of, gap, inner};
ghost use Rattle.lists.specs.Rooms.{Puts};
ghost use Rattle.printer.specs.PrivateWriting.{closing};

use crate::{cost, room};

// The indent of an item: only the first stays on its line.
pub fn item_indent(first: bool, indent: usize) -> usize
    requires { indent ≤ depth_limit }
    ensures { result ≡ inner first Wrap indent }
{
    if first {
        return indent;
    }
    indent + 1
}

// The column of an item; the parenthesis before the first leaves `column`.
pub fn item_column(first: bool, indent: usize, column: usize) -> usize
    requires { indent ≤ depth_limit }
    ensures { result ≡ column_of (gap first Wrap indent column) }
{
    if first {
        return column;
    }
    cost::break_column(indent + 1)
}

// What stands before an item: each but the first is on a line of its own.
pub fn put_gap(first: bool, indent: usize, out: &mut [u8]) -> usize
    requires { indent + 1 ≤ depth_limit }
    ensures { Puts (bytes (gap first Wrap indent 0)) result out.old out.new }
{
    if first {
        return 0;
    }
    room::nl(indent + 1, out)
}

// A closing parenthesis, and the line break before it.
pub fn put_close(empty: bool, indent: usize, out: &mut [u8]) -> usize
    requires { indent ≤ depth_limit }
    ensures { Puts (closing empty indent) result out.old out.new }
{
    if empty {
        return room::put_byte(b')', out);
    }
    let n = room::nl(indent, out);
    let rest = n.min(out.len());
    let k = room::put_byte(b')', &mut out[rest..]);
    n + k
}
