// The door for C to printing through windows: the proved function over slices, a state of 72 words and an answer of eight (host/include/tulbazhik.h). tulbazhik_windows_c exports it under its C name.
#![tactic(auto)]

mod states;

ghost use Rattle.std.specs.Prelude.{◌≡◌, []};
ghost use Rattle.windows.specs.Filling.{fill_of, call_at};
ghost use Rattle.tulbazhik_windows.specs.States.{unpack_of, call_words, state_words};

use windows::{Answer, Moved};

#[tactic(auto, unfolding(crate::specs::States::part_words))]
fn put_filled(m: Moved, state: &mut [u64; 72], answer: &mut [u64; 8])
    ensures { (state.new ≡ state_words (call_at m state.old [])) × (answer.new ≡ call_words (call_at m state.old [])) }
{
    match m.answer {
        Ok(Answer::Bytes(n)) => {
            states::store(m.cursor, state);
            words::put_length(n, answer);
        }
        Ok(Answer::End(looked)) => {
            states::store(m.cursor, state);
            *answer = [words::END, 0, 0, 0, 0, 0, looked as u64, 0];
        }
        Err(r) => words::put_refusal(r, 0, answer),
    }
}

// The next bytes of a table laid out at a width, as many as the window holds or as are left, in the state lent: all of it is lent as the stack.
pub fn tulbazhik_fill(
    table: &[u8],
    width: u32,
    state: &mut [u64; 72],
    window: &mut [u8],
    answer: &mut [u64; 8],
)
    ensures { (answer.new ≡ call_words (fill_of table.now width (unpack_of state.old) window.old)) × (state.new ≡ state_words (fill_of table.now width (unpack_of state.old) window.old)) × (window.new ≡ (fill_of table.now width (unpack_of state.old) window.old).window) }
{
    let c = states::cursor_in(state);
    let m = windows::fill_in(table, width, c, state, window);
    put_filled(m, state, answer);
}
