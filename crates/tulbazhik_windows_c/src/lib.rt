// The archive for C callers of printing through windows: the library's function under its C name, with its clause again (host/include/tulbazhik.h).
#![tactic(auto)]

ghost use Rattle.std.specs.Prelude.{◌≡◌};
ghost use Rattle.windows.specs.Filling.{fill_of};
ghost use Rattle.tulbazhik_windows.specs.States.{unpack_of, call_words, state_words};

#[unsafe(no_mangle)]
pub extern "C" fn tulbazhik_fill(
    table: &[u8],
    width: u32,
    state: &mut [u64; 72],
    window: &mut [u8],
    answer: &mut [u64; 8],
)
    ensures { (answer.new ≡ call_words (fill_of table.now width (unpack_of state.old) window.old)) × (state.new ≡ state_words (fill_of table.now width (unpack_of state.old) window.old)) × (window.new ≡ (fill_of table.now width (unpack_of state.old) window.old).window) }
{
    tulbazhik_windows::tulbazhik_fill(table, width, state, window, answer);
}
