// The second entrance: the state is lent and changed in place, for a host's editor loop; thin, over the by-value forms. Document 01 asks for one thin feed and one
// thin close, so `feed_in` and `close_in` stay two.
#![tactic(auto)]

ghost use Rattle.std.specs.Prelude.{◌≡◌};
ghost use Rattle.std.specs.Fn.{FnOnceReturnsAtMut};
ghost use Rattle.feeder.specs.Feeding.{feed_of, close_of, fed_of};

use feeder::{Fed, Out, State};

pub fn feed_in(s: &mut State, piece: &[u8]) -> Out
    ensures { fed_of (record { out = result; state = s.new }) ≡ feed_of s.old piece.now }
{
    let f = feeder::feed(*s, piece);
    *s = f.state;
    f.out
}

pub fn close_in(s: &mut State) -> Out
    ensures { fed_of (record { out = result; state = s.new }) ≡ close_of s.old }
{
    let f = feeder::close(*s);
    *s = f.state;
    f.out
}

// A call in a lent state, for a caller that passes the state by value and gets it back.
fn through<F: FnOnce(&mut State) -> Out>(s: State, call: F) -> Fed
    requires { F.IsAlwaysCallable call }
    ensures { FnOnceReturnsAtMut F.FnOnce call s result.out result.state }
{
    let mut state = s;
    let out = call(&mut state);
    Fed { out, state }
}

pub fn feed_through(s: State, piece: &[u8]) -> Fed
    ensures { fed_of result ≡ feed_of s piece.now }
{
    through(s, |state| feed_in(state, piece))
}

pub fn close_through(s: State) -> Fed
    ensures { fed_of result ≡ close_of s }
{
    through(s, close_in)
}
