// The kinds that were seen in a file, a bit each: a file may have 10,922 records, so each is looked up in one step, and not among those before it. No set of the library, since those are on the heap, and there is none.
ghost use Rattle.std.specs.Prelude.{◌≡◌, ℕ, List, [], ◌∷◌};
ghost use Rattle.settings.specs.Files.{among};
ghost use Rattle.settings.specs.PrivateFinding.{slot, Marked, Tells};

use super::kinds::FIRST_SKIPPED;

// The known kinds have the first bits, and behind them stand those that are skipped.
const KNOWN: usize = 64;

// 64 bits for the kinds that are known, and one for each kind that is skipped.
const WORDS: usize = 513;

#[derive(Clone, Copy, Debug, PartialEq, Eq)]
pub struct Seen {
    pub words: [u64; WORDS],
}

// The bit of a kind.
fn slot_of(kind: usize) -> usize
    ensures { result ≡ slot kind }
{
    if kind < FIRST_SKIPPED {
        return kind;
    }
    kind - (FIRST_SKIPPED - KNOWN)
}

impl Seen {
    // No kind was seen.
    #[tactic(auto, using(crate::proofs::Bits::none_seen))]
    pub fn none() -> Seen
        ensures { Tells result.words [] }
    {
        Seen { words: [0; WORDS] }
    }

    // Marks a kind as seen, and answers whether it was seen before.
    pub fn mark(&mut self, kind: usize) -> bool
        requires { Marked kind }
        ensures { (before : List ℕ) → Tells self.old.words before → (result ≡ among kind before) × Tells self.new.words (kind ∷ before) }
    {
        let slot = slot_of(kind);
        let (i, bit) = (slot / 64, slot % 64);
        let word = self.words[i];
        self.words[i] = word | (1u64 << bit);
        (word >> bit) % 2 == 1
    }
}
