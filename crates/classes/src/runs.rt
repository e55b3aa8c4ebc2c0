// Where runs of bytes end, eight bytes a step.
ghost use Rattle.std.specs.Prelude.{◌≡◌, ℕ, ◌+◌, ◌%◌, ◌^◌, ◌<◌, ◌≤◌, Bool, not, length};
ghost use Rattle.classes.specs.Classes.{class_of, line_end, symbol_other};
ghost use Rattle.classes.specs.Runs.{run_end, symbol_run, line_run};
ghost use Rattle.classes.specs.PrivateWords.{Marks, number};

// Bytes that run on. Each kind has marks of its own: with one formula for both, as a line has it, a symbol's end took 1.7 % more instructions.
trait Run {
    ghost goes_on: { ℕ → Bool };

    fn goes_on(b: u8) -> bool
        ensures { result ≡ goes_on b };

    // Whether b is marked in any word and such bytes stand together, so that it is faster to ask the next byte alone. Any answer is right.
    fn is_marked(b: u8) -> bool;

    // Marks by their highest bits the bytes of a word that may end the run. The first mark is right; those behind it may not be.
    fn marks(w: u64) -> u64
        ensures { Marks (run_end goes_on) w result };
}

// The bytes that a symbol runs on over.
struct Symbol;

impl Run for Symbol {
    ghost goes_on = { λ b. symbol_other (class_of b) };

    fn goes_on(b: u8) -> bool {
        crate::is_sym_other_char(b)
    }

    // Digits, dashes, dots, and letters beyond ASCII.
    fn is_marked(b: u8) -> bool {
        b < 65 || 127 < b
    }

    // Those below 65 or above 127.
    fn marks(w: u64) -> u64 {
        (w.wrapping_sub(0x4141_4141_4141_4141) | w) & 0x8080_8080_8080_8080
    }
}

// The bytes that a line runs on over.
struct Line;

impl Run for Line {
    ghost goes_on = { λ b. not (line_end (class_of b)) };

    fn goes_on(b: u8) -> bool {
        !crate::is_line_end(b)
    }

    // Those that are marked and end no line are rare.
    fn is_marked(_b: u8) -> bool {
        false
    }

    // Those below 14.
    fn marks(w: u64) -> u64 {
        w.wrapping_sub(0x0e0e_0e0e_0e0e_0e0e) & !w & 0x8080_8080_8080_8080
    }
}

// Eight bytes as one number, the first one lowest.
fn word(s: &[u8], at: usize) -> u64
    requires { at + 8 ≤ length s.now }
    ensures { result ≡ number 8 s.now at }
{
    u64::from_le_bytes(*s[at..at + 8].first_chunk().unwrap())
}

// How many bytes stand before the first mark.
fn before_mark(m: u64) -> usize
    requires { 0 < m }
    ensures { (result < 8) × (m % 256 ^ result ≡ 0) }
{
    (m.trailing_zeros() / 8) as usize
}

// The place past the bytes that go on.
fn end<R: Run>(s: &[u8], at: usize) -> usize
    ensures { result ≡ run_end R.goes_on s.now at }
{
    if s.len() < at {
        return at;
    }
    let mut i = at;
    // No chunks: behind a marked byte that goes on the next eight begin at any place.
    while i + 8 <= s.len() {
        let m = R::marks(word(s, i));
        if m == 0 {
            i += 8;
        } else {
            i += before_mark(m);
            if !R::goes_on(s[i]) {
                return i;
            }
            i += 1;
            // With a word begun anew behind each marked byte, feeding a symbol of such bytes took two to six times as long.
            while i < s.len() && R::is_marked(s[i]) {
                if !R::goes_on(s[i]) {
                    return i;
                }
                i += 1;
            }
        }
    }
    for j in i..s.len() {
        if !R::goes_on(s[j]) {
            return j;
        }
    }
    s.len()
}

// The place past the bytes that a symbol runs on over.
pub fn symbol_end(s: &[u8], at: usize) -> usize
    ensures { result ≡ symbol_run s.now at }
{
    end::<Symbol>(s, at)
}

// The place of the byte that ends a line, or the end.
pub fn line_end(s: &[u8], at: usize) -> usize
    ensures { result ≡ line_run s.now at }
{
    end::<Line>(s, at)
}
