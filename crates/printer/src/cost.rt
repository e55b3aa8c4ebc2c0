// Columns: the one that a line break sets, and the fits test, which looks at the cost that a list stores. All of it is for any bytes, since a window's table may change.
ghost use Rattle.std.specs.Prelude.{◌≡◌};
ghost use Rattle.printer.specs.Layout.{break_column, fits_in};
ghost use Rattle.printer.specs.Looking.{looks};
ghost use Rattle.printer.specs.Fitting.{fits_at};

// Whether a list fits, and the records that were looked at for it.
#[derive(Clone, Copy, Debug, PartialEq, Eq)]
pub struct Tested {
    pub fits: bool,
    pub looked: usize,
}

// The column that a line break sets.
#[tactic(auto, unfolding(crate::specs::Layout::break_column))]
pub fn break_column(indent: usize) -> usize
    ensures { result ≡ break_column indent }
{
    0
}

// At most width minus column, and never if the column is past the width.
#[tactic(auto, unfolding(crate::specs::Layout::fits_in), using(std::proofs::lemmas::Bool::Decides::nat_tests))]
pub fn fits_in(width: usize, column: usize, cost: usize) -> bool
    ensures { result ≡ fits_in width column cost }
{
    column <= width && cost <= width - column
}

// The list's record, unless the column is past the width.
#[tactic(auto, unfolding(crate::specs::Looking::looks), using(std::proofs::lemmas::Bool::Decides::nat_tests))]
fn looks_at(line: usize, column: usize) -> usize
    ensures { result ≡ looks line column }
{
    usize::from(column <= line)
}

// Whether the list at `at` fits, by the cost that it stores.
#[tactic(auto, unfolding(crate::specs::Fitting::fits_at))]
pub fn fits(t: &[u8], at: usize, width: u32, column: usize) -> Tested
    ensures { result ≡ fits_at t.now at width column }
{
    let line = width as usize;
    Tested {
        fits: fits_in(line, column, table::stored_cost(t, at)),
        looked: looks_at(line, column),
    }
}
