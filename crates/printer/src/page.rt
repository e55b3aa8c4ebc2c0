// A table within the limit, and the width that it is laid at: what a print shares from its first tree to its last. A file of its own: a ghost field imports what
// its file's ghost uses name.
ghost use Rattle.std.specs.Prelude.{◌≤◌, length};
ghost use Rattle.refusals.specs.Numbers.{table_limit};
ghost use Rattle.wide.specs.Bytes.{Bytes};

#[derive(Clone, Copy, Debug, PartialEq, Eq)]
pub struct Page<'t> {
    pub table: &'t [u8],
    pub width: u32,
    ghost limited: { length table.now ≤ table_limit },
    ghost bytes: { Bytes table.now },
}
