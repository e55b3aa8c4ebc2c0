// The door for C to feeding: the proved functions over a state and an answer of eight words each (host/include/tulbazhik.h). tulbazhik_feed_c exports them under their C names.
#![tactic(auto)]

pub mod states;

ghost use Rattle.std.specs.Prelude.{◌≡◌};
ghost use Rattle.feeder.specs.Feeding.{feed_of, close_of, fresh_state};
ghost use Rattle.words.specs.Words.{fed_words};
ghost use Rattle.tulbazhik_feed.specs.States.{pack_of, unpack_of, state_words};

// The state before the first byte.
pub fn tulbazhik_fresh(state: &mut [u64; 8])
    ensures { state.new ≡ pack_of fresh_state }
{
    *state = states::pack(feeder::fresh());
}

// A piece of the source, in the state lent.
pub fn tulbazhik_feed(state: &mut [u64; 8], piece: &[u8], answer: &mut [u64; 8])
    ensures { (state.new ≡ state_words (feed_of (unpack_of state.old) piece.now)) × (answer.new ≡ fed_words (feed_of (unpack_of state.old) piece.now)) }
{
    let f = feeder::feed(states::unpack(*state), piece);
    states::put(f.state, state);
    words::put_out(f.out, answer);
}

// The source's end, in the state lent.
pub fn tulbazhik_close(state: &mut [u64; 8], answer: &mut [u64; 8])
    ensures { (state.new ≡ state_words (close_of (unpack_of state.old))) × (answer.new ≡ fed_words (close_of (unpack_of state.old))) }
{
    let f = feeder::close(states::unpack(*state));
    states::put(f.state, state);
    words::put_out(f.out, answer);
}
