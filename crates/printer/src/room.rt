// A room that may be too short: what is put there is there only if it fits, and its length is known all the same. No writer holds a room and what is written of
// it: each put gets the rest of the room lent, as document 01 wants each tree written.
ghost use Rattle.std.specs.Prelude.{◌≡◌, ◌∷◌, [], ◌≤◌, length};
ghost use Rattle.std.specs.Option.{option_to_list};
ghost use Rattle.refusals.specs.Numbers.{depth_limit};
ghost use Rattle.printer.specs.Layout.{bytes, nl as nl_of};
ghost use Rattle.lists.specs.Rooms.{Puts};

pub fn put_byte(b: u8, out: &mut [u8]) -> usize
    ensures { Puts (b ∷ []) result out.old out.new }
{
    if out.len() < 1 {
        return 1;
    }
    out[0] = b;
    1
}

pub fn put_optional(b: Option<u8>, out: &mut [u8]) -> usize
    ensures { Puts (option_to_list b) result out.old out.new }
{
    match b {
        Some(b) => put_byte(b, out),
        None => 0,
    }
}

// The bytes of a line break: LF, and 4 spaces for each indent.
pub fn nl_len(indent: usize) -> usize
    requires { indent ≤ depth_limit }
    ensures { result ≡ length (bytes (nl_of indent)) }
{
    4 * indent + 1
}

pub fn nl(indent: usize, out: &mut [u8]) -> usize
    requires { indent ≤ depth_limit }
    ensures { Puts (bytes (nl_of indent)) result out.old out.new }
{
    let n = nl_len(indent);
    if out.len() < n {
        return n;
    }
    out[..n].fill(b' ');
    out[0] = b'\n';
    n
}
