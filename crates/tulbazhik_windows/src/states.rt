// The state of a windowed print as 72 words and back: 64 for the stack, then the cursor. Functions and no From: the cursor is of windows.
ghost use Rattle.std.specs.Prelude.{◌≡◌};
ghost use Rattle.tulbazhik_windows.specs.States.{cursor_in, stored};

use windows::{Cursor, Phase};

// The words of a cursor, behind the stack.
pub fn store(c: Cursor, state: &mut [u64; 72])
    ensures { state.new ≡ stored c state.old }
{
    state[64..].copy_from_slice(&[
        u64::from(c.phase),
        c.at as u64,
        c.depth as u64,
        c.due as u64 + 4294967296 * (c.looked as u64),
        c.margin as u64,
        c.left as u64,
        c.indent as u64,
        c.given as u64,
    ]);
}

// The cursor of any 72 words.
#[tactic(auto, unfolding(crate::specs::States::cursor_in))]
pub fn cursor_in(w: &[u64; 72]) -> Cursor
    ensures { result ≡ cursor_in w.now }
{
    let [.., phase, at, depth, counts, margin, left, indent, given] = *w;
    Cursor {
        phase: Phase::from(phase),
        at: at as usize,
        depth: depth as usize,
        due: (counts % 4294967296) as u32,
        looked: (counts / 4294967296 % 4294967296) as u32,
        margin: (margin % 256) as u8,
        left: left as usize,
        indent: (indent % 256) as u8,
        given: given as usize,
    }
}
