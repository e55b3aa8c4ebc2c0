// One walk over a tree, whatever its bytes: where it ends, what it costs, and whether the costs that its lists store are right.
ghost use Rattle.std.specs.Prelude.{◌≡◌, ◌+◌, ◌≤◌, ◌<◌, length, None};
ghost use Rattle.refusals.specs.Result.{ok};
ghost use Rattle.records.specs.Records.{head_len, payload};
ghost use Rattle.table.specs.Kinds.{list_len};
ghost use Rattle.table.specs.Trees.{binding, list};
ghost use Rattle.table.specs.Decoding.{tree_at, items_at, and_then, found};
ghost use Rattle.table.specs.Walking.{first_of, own_wrong, Walks};

use crate::Record;
use records::HEAD;
use refusals::{Fault, Refusal};

#[derive(Clone, Copy, Debug, PartialEq, Eq)]
pub struct Walked {
    // The place past the tree.
    pub place: usize,
    pub cost: usize,
    // The empty lists in it: each takes a byte more on a single line than it costs.
    pub empty: usize,
    // The place of the first list that stores a wrong cost.
    pub wrong: Option<usize>,
}

// A symbol or an integer of n bytes.
fn atom(place: usize, n: usize) -> Walked
    ensures { result ≡ record { place = place; cost = n; empty = 0; wrong = None } }
{
    Walked {
        place,
        cost: n,
        empty: 0,
        wrong: None,
    }
}

// The place of the first wrong cost, where one was found before or is found next: `or` by the name of a public promise.
pub fn earlier(wrong: Option<usize>, next: Option<usize>) -> Option<usize>
    ensures { result ≡ first_of wrong next }
{
    wrong.or(next)
}

// The place of the list at `at` if it stores another cost than `cost`.
pub fn own_wrong(t: &[u8], at: usize, cost: usize) -> Option<usize>
    ensures { result ≡ own_wrong t.now at cost }
{
    (crate::stored_cost(t, at) != cost).then_some(at)
}

// The tree at `at`, with `depth` lists and bindings still to be opened. In line, for what an atom comes to would go through memory otherwise.
#[cycle(walk_list_walk_tree)]
#[inline(always)]
#[tactic(auto, using(crate::proofs::Walks::at_record))]
pub fn walk_tree(t: &[u8], at: usize, depth: usize) -> Result<Walked, Refusal>
    ensures { Walks t.now at (tree_at t.now depth at) result }
{
    match crate::step_at(t, at, 0 < depth) {
        Err(fault) => Err(fault.at(at)),
        Ok(Record::Symbol(len)) => Ok(atom(at + len, len - HEAD)),
        Ok(Record::Integer) => Ok(atom(
            at + crate::INTEGER_LEN,
            wide::text_len(wide::wide_at(t, at + HEAD)),
        )),
        Ok(Record::Binding(len)) => walk_binding(t, at, len, depth - 1),
        Ok(Record::List(n)) => walk_list(t, at, n, depth - 1),
    }
}

// The binding whose record of `len` bytes is at `at`.
#[cycle(walk_list_walk_tree)]
fn walk_binding(t: &[u8], at: usize, len: usize, depth: usize) -> Result<Walked, Refusal>
    requires { (head_len ≤ len) × (at + len ≤ length t.now) }
    ensures { Walks t.now at (and_then (tree_at t.now depth (at + len)) (λ x q. ok (found (binding (payload t.now at len) x) q))) result }
{
    let x = walk_tree(t, at + len, depth)?;
    let cost = len - HEAD + 3 + x.cost;
    Ok(Walked { cost, ..x })
}

// The list of n items at `at`. A symbol or an empty list in it takes no call of its own, and a list is not judged twice.
#[cycle(walk_list_walk_tree)]
#[tactic(auto, using(crate::proofs::Reading::symbol_fits, crate::proofs::Walks::counted_begin))]
fn walk_list(t: &[u8], at: usize, n: usize, depth: usize) -> Result<Walked, Refusal>
    requires { (at + list_len ≤ length t.now) × (n < 4294967296) }
    ensures { Walks t.now at (and_then (items_at (tree_at t.now depth) n (at + list_len)) (λ xs q. ok (found (list xs) q))) result }
{
    let mut p = at + crate::LIST_LEN;
    let mut cost = n + 1;
    let mut empty = usize::from(n == 0);
    let mut wrong = None;
    for _ in 0..n {
        let x = match crate::record_at(t, p) {
            Ok(Record::Symbol(len)) if crate::is_name(t, p, len) => {
                cost += len - HEAD;
                p += len;
                continue;
            }
            // Told here, for `walk_tree` would look at its bytes once more.
            Ok(Record::Symbol(_)) => return Err(Fault::BadSymbol.at(p)),
            Ok(Record::List(m)) if 0 < depth => {
                if m == 0 {
                    cost += 1;
                    empty += 1;
                    wrong = earlier(wrong, own_wrong(t, p, 1));
                    p += crate::LIST_LEN;
                    continue;
                }
                walk_list(t, p, m, depth - 1)?
            }
            _ => walk_tree(t, p, depth)?,
        };
        cost += x.cost;
        empty += x.empty;
        wrong = earlier(wrong, x.wrong);
        p = x.place;
    }
    // A list's own wrong cost comes before those inside it.
    let own = own_wrong(t, at, cost);
    Ok(Walked {
        place: p,
        cost,
        empty,
        wrong: earlier(own, wrong),
    })
}
