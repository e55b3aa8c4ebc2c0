// What is left of a piece during a call: where each run of bytes begins.
ghost use Rattle.std.specs.Prelude.{◌+◌, ◌<◌, ◌≤◌, length};
ghost use Rattle.refusals.specs.Numbers.{source_limit};

// The bytes from `at` on of a piece that begins at `place` in the source and ends below the source's limit.
#[derive(Clone, Copy, Debug, PartialEq, Eq)]
pub struct Rest<'a> {
    pub piece: &'a [u8],
    pub place: usize,
    pub at: usize,
    ghost some: { at < length piece.now },
    ghost below: { place + length piece.now ≤ source_limit },
}
