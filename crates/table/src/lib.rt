// The node table: its records, and the check of a whole table.
#![tactic(auto)]

pub mod walk;

ghost use Rattle.std.specs.Prelude.{◌≡◌, ◌+◌, ◌≤◌, length};
ghost use Rattle.refusals.specs.Numbers.{depth_limit};
ghost use Rattle.classes.specs.Classes.{class_of, symbol_other};
ghost use Rattle.records.specs.Records.{head_len, payload};
ghost use Rattle.table.specs.Trees.{is_symbol};
ghost use Rattle.table.specs.Kinds.{kind_named};
ghost use Rattle.table.specs.Records.{record_at};
ghost use Rattle.table.specs.Costs.{stored_cost};
ghost use Rattle.table.specs.Decoding.{step_at, tree_at, table_of, judged, verdict_of};
ghost use Rattle.table.specs.Past.{past_symbol, past_of};

use records::HEAD;
use refusals::{Fault, Refusal};

// The kinds of records. 4 is retired: lists of that kind stored no cost.
#[derive(Clone, Copy, Debug, PartialEq, Eq)]
pub enum Kind {
    Symbol = 1,
    Integer = 2,
    Binding = 3,
    List = 5,
}

impl TryFrom<usize> for Kind {
    type Error = Fault;

    ghost try_from_gives = { λ n r. r ≡ kind_named n };

    fn try_from(n: usize) -> Result<Kind, Fault> {
        match n {
            1 => Ok(Kind::Symbol),
            2 => Ok(Kind::Integer),
            3 => Ok(Kind::Binding),
            5 => Ok(Kind::List),
            _ => Err(Fault::UnknownKind),
        }
    }
}

// The lengths of the records that have a fixed one: an integer's 16 bytes, and a list's item count and its cost.
pub const INTEGER_LEN: usize = HEAD + 16;

pub const LIST_LEN: usize = HEAD + 8;

#[derive(Clone, Copy, Debug, PartialEq, Eq)]
pub enum Record {
    // A symbol, or a binding's name: the length of its record.
    Symbol(usize),
    Integer,
    Binding(usize),
    // A list: the number of its items.
    List(usize),
}

// The record that is due at `at`: 22 where no byte is left, or 15, 20, 21.
#[tactic(auto, using(crate::proofs::Reading::head_room, records::proofs::Heads::within_is), unfolding(crate::specs::Records::record_at))]
pub fn record_at(t: &[u8], at: usize) -> Result<Record, Fault>
    ensures { result ≡ record_at t.now at }
{
    let Some(head) = records::head_at(t, at) else {
        if at < t.len() {
            return Err(Fault::BadRecord);
        }
        return Err(Fault::MissingTrees);
    };
    match Kind::try_from(head.kind)? {
        Kind::Symbol => Ok(Record::Symbol(head.len)),
        Kind::Binding => Ok(Record::Binding(head.len)),
        Kind::Integer if head.len == INTEGER_LEN => Ok(Record::Integer),
        Kind::List if head.len == LIST_LEN => Ok(Record::List(wide::u32_at(t, at + HEAD))),
        Kind::Integer | Kind::List => Err(Fault::WrongLength),
    }
}

// A symbol runs on over b. Most bytes are high, and the rest need not be asked then.
#[tactic(auto, using(classes::proofs::Firsts::high_other))]
fn runs_on_over(b: u8) -> bool
    ensures { result ≡ symbol_other (class_of b) }
{
    classes::is_high(b) || classes::is_sym_other_char(b)
}

// The bytes are what the lexer reads as one symbol. Byte by byte and not by `symbol_end`: names are short, and with it a check took 6 % more instructions.
#[tactic(auto, using(crate::proofs::Names::empty, crate::proofs::Names::not_first))]
pub fn is_symbol(s: &[u8]) -> bool
    ensures { result ≡ is_symbol s.now }
{
    match s {
        [] => false,
        [first, rest @ ..] => {
            classes::is_sym_first_char(*first) && rest.iter().all(|b| runs_on_over(*b))
        }
    }
}

// The payload of the record of `len` bytes at `at` is a symbol. Table, place and length stay three: who has a record has these.
#[tactic(auto, using(crate::proofs::Names::part))]
fn is_name(t: &[u8], at: usize, len: usize) -> bool
    requires { (head_len ≤ len) × (at + len ≤ length t.now) }
    ensures { result ≡ is_symbol (payload t.now at len) }
{
    let start = at + HEAD;
    let end = at + len;
    is_symbol(&t[start..end])
}

// The record that is due at `at`, judged: 22, or 15, 20, 21, 13, 16. What it names or holds is good. `deeper` says if one more list or binding may be open. In line, for two
// walks call it (tried: a print takes 3 % more instructions otherwise).
#[inline(always)]
#[tactic(auto, using(crate::proofs::Reading::symbol_fits, crate::proofs::Reading::binding_fits), unfolding(crate::specs::Decoding::step_at))]
pub fn step_at(t: &[u8], at: usize, deeper: bool) -> Result<Record, Fault>
    ensures { result ≡ step_at t.now at deeper }
{
    let record = record_at(t, at)?;
    match record {
        Record::Binding(_) | Record::List(_) if !deeper => Err(Fault::TooDeep),
        Record::Symbol(len) | Record::Binding(len) if !is_name(t, at, len) => Err(Fault::BadSymbol),
        _ => Ok(record),
    }
}

// The place past the good symbol at `at`, or `at`: no Option, for `past_symbol` of specs/Past is the public promise.
#[tactic(auto, using(crate::proofs::Reading::symbol_fits), unfolding(crate::specs::Past::past_symbol))]
pub fn past_symbol(t: &[u8], at: usize) -> usize
    ensures { result ≡ past_symbol t.now at }
{
    match record_at(t, at) {
        Ok(Record::Symbol(len)) if is_name(t, at, len) => at + len,
        _ => at,
    }
}

// The cost that the list at `at` stores, right or not; 0 where the table ends before it, as the public promise has it (`stored_cost` of specs/Costs).
#[tactic(auto, unfolding(crate::specs::Costs::stored_cost))]
pub fn stored_cost(t: &[u8], at: usize) -> usize
    ensures { result ≡ stored_cost t.now at }
{
    // A sum that saturates would do without the test, but takes 2 % more of a check.
    if at < t.len() {
        return wide::u32_at(t, at + HEAD + 4);
    }
    0
}

// The place past the tree at `at`, or `at` where there is none, as the public promise has it (`past_of` of specs/Past).
pub fn past(t: &[u8], at: usize) -> usize
    ensures { result ≡ past_of at (tree_at t.now depth_limit at) }
{
    walk::walk_tree(t, at, refusals::DEPTH_LIMIT).map_or(at, |tree| tree.place)
}

// The whole table: 1; then the first refusal in the order of its records, where a tree that is missing is told where its record was due; then the first wrong cost.
#[tactic(auto, using(crate::proofs::Walks::at_table))]
pub fn check(t: &[u8]) -> Result<(), Refusal>
    ensures { verdict_of result ≡ judged (table_of t.now) }
{
    if refusals::TABLE_LIMIT < t.len() {
        return Err(Fault::TooLong.at(refusals::TABLE_LIMIT));
    }
    let mut p = 0;
    let mut wrong = None;
    // No `for`: the next place is where a tree ends.
    while p < t.len() {
        let tree = walk::walk_tree(t, p, refusals::DEPTH_LIMIT)?;
        wrong = walk::earlier(wrong, tree.wrong);
        p = tree.place;
    }
    match wrong {
        Some(place) => Err(Fault::WrongCost.at(place)),
        None => Ok(()),
    }
}
