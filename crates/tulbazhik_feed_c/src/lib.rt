// The archive for C callers of feeding: the library's functions under their C names, with their clauses again (host/include/tulbazhik.h).
#![tactic(auto)]

ghost use Rattle.std.specs.Prelude.{◌≡◌};
ghost use Rattle.feeder.specs.Feeding.{feed_of, close_of, fresh_state};
ghost use Rattle.words.specs.Words.{fed_words};
ghost use Rattle.tulbazhik_feed.specs.States.{pack_of, unpack_of, state_words};

#[unsafe(no_mangle)]
pub extern "C" fn tulbazhik_fresh(state: &mut [u64; 8])
    ensures { state.new ≡ pack_of fresh_state }
{
    tulbazhik_feed::tulbazhik_fresh(state);
}

#[unsafe(no_mangle)]
pub extern "C" fn tulbazhik_feed(state: &mut [u64; 8], piece: &[u8], answer: &mut [u64; 8])
    ensures { (state.new ≡ state_words (feed_of (unpack_of state.old) piece.now)) × (answer.new ≡ fed_words (feed_of (unpack_of state.old) piece.now)) }
{
    tulbazhik_feed::tulbazhik_feed(state, piece, answer);
}

#[unsafe(no_mangle)]
pub extern "C" fn tulbazhik_close(state: &mut [u64; 8], answer: &mut [u64; 8])
    ensures { (state.new ≡ state_words (close_of (unpack_of state.old))) × (answer.new ≡ fed_words (close_of (unpack_of state.old))) }
{
    tulbazhik_feed::tulbazhik_close(state, answer);
}
