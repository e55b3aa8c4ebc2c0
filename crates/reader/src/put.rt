// Records put into a room that may be too short: what is put there is there only if it fits. The cost is only wanted where the record is put: it goes into
// the record of a list around it, and what is put of a list is only wanted where all its items fit. So the first walk, over no room, is spared the work;
// and where nothing is put 0 is told and no None, which adds nothing to a cost that nobody reads.
// The place goes beside the room: with the rest of the room lent in their stead (tried), reading real.isle took 14 % more instructions. A struct of
// the two would be made anew for each record.
ghost use Rattle.std.specs.Prelude.{◌≡◌, ◌++◌, ◌+◌, ◌-◌, ◌≤◌, length, take, drop, nat_le};
ghost use Rattle.refusals.specs.Numbers.{source_limit, table_limit};
ghost use Rattle.lists.specs.Over.{fitted};
ghost use Rattle.wide.specs.Value.{value};
ghost use Rattle.wide.specs.Bytes.{le, wide_bytes};
ghost use Rattle.wide.specs.Text.{integer_text};
ghost use Rattle.records.specs.Records.{head_len, record_of};
ghost use Rattle.table.specs.Kinds.{integer_kind, integer_len, list_kind};
ghost use Rattle.reader.specs.PrivateWalk.{kind_number, CostTold};

use records::HEAD;
use table::Kind;
use wide::Wide;

// Puts a record from `at` on if the room holds it, and says so. The room is looked at first, for most are read twice and put once.
#[tactic(auto, using(crate::proofs::Behind::kept_behind, std::proofs::lemmas::Bool::Decides::nat_tests))]
fn placed(kind: Kind, payload: &[u8], at: usize, room: &mut [u8]) -> bool
    requires { (length payload.now ≤ source_limit) × (at ≤ table_limit) }
    ensures { (result ≡ nat_le (length payload.now + head_len) (length room.old - at))
        × (room.new ≡ take at room.old ++ fitted (record_of (kind_number kind) payload.now) (drop at room.old)) }
{
    let fits = at + payload.len() + HEAD <= room.len();
    if fits {
        records::put(kind as usize, payload, &mut room[at..]);
    }
    fits
}

// The record of a symbol, or of a binding's name, from `at` on, and the name's length if it is put, else 0.
pub fn name(kind: Kind, bytes: &[u8], at: usize, room: &mut [u8]) -> usize
    requires { (length bytes.now ≤ source_limit) × (at ≤ table_limit) }
    ensures { CostTold result (length bytes.now) (length bytes.now + head_len) (length room.old - at)
        × (room.new ≡ take at room.old ++ fitted (record_of (kind_number kind) bytes.now) (drop at room.old)) }
{
    if placed(kind, bytes, at, room) {
        bytes.len()
    } else {
        0
    }
}

// The record of an integer from `at` on, and its cost if it is put, else 0.
#[tactic(auto, using(crate::proofs::Behind::just_wide, std::proofs::lemmas::Bool::Decides::nat_tests))]
pub fn integer(w: Wide, at: usize, room: &mut [u8]) -> usize
    requires { at ≤ table_limit }
    ensures { CostTold result (length (integer_text (value w))) integer_len (length room.old - at)
        × (room.new ≡ take at room.old ++ fitted (record_of integer_kind (wide_bytes (value w))) (drop at room.old)) }
{
    let mut bytes = [0u8; 16];
    wide::put_wide(w, &mut bytes);
    if placed(Kind::Integer, &bytes, at, room) {
        wide::text_len(w)
    } else {
        0
    }
}

// The record of a list of n items and its cost, without the items, at the front.
pub fn list(n: usize, cost: usize, room: &mut [u8])
    ensures { room.new ≡ fitted (record_of list_kind (le 4 n ++ le 4 cost)) room.old }
{
    let mut payload = [0u8; 8];
    wide::put_u32(n, &mut payload[..4]);
    wide::put_u32(cost, &mut payload[4..]);
    placed(Kind::List, &payload, 0, room);
}
