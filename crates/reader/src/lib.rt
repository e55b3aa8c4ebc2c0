// The reader: the trees of a source, as a node table, or the first refusal. One walk over a room that may be too short: first over none, to measure and refuse, then over the room lent.
#![tactic(auto)]

mod put;

ghost use Rattle.std.specs.Prelude.{◌≡◌, suc, length};
ghost use Rattle.lexer.specs.Lexing.{next_token};
ghost use Rattle.reader.specs.Grammar.{read_tree, read_items};
ghost use Rattle.reader.specs.Reading.{reading, read_into, read_of};
ghost use Rattle.reader.specs.PrivateWalk.{Lexes, opens, TreeRead, ItemsRead};

use lexer::{Lexed, Token};
use records::HEAD;
use refusals::{Fault, Refusal};
use table::Kind;

// A tree, or the name of a binding.
#[derive(Clone, Copy, Debug, PartialEq, Eq)]
struct One {
    // The place past it; behind a name, past the `@`.
    place: usize,
    // The bytes of its records, and its cost if the room holds them.
    size: usize,
    cost: usize,
}

// What stopped trees in a row. No Option: that the source ends is what the other case says.
#[derive(Clone, Copy, Debug, PartialEq, Eq)]
enum Stop {
    // The start of a `)`.
    Close(usize),
    End,
}

// Trees in a row.
#[derive(Clone, Copy, Debug, PartialEq, Eq)]
struct Many {
    stop: Stop,
    // How many, the bytes of their records, and their costs together if the room holds them.
    n: usize,
    size: usize,
    cost: usize,
}

// Reads the tree that the `(` at `start` begins, a list, with `depth` lists and bindings still to be opened. No struct holds source, depth and room: two of them are others at each call.
#[cycle(read_items_read_tree)]
fn read_tree(src: &[u8], start: usize, depth: usize, room: &mut [u8]) -> Result<One, Refusal>
    requires { Lexes src.now (opens start) }
    ensures { TreeRead src.now (read_tree src.now depth (opens start)) result room.old room.new }
{
    if depth == 0 {
        return Err(Fault::TooDeep.at(start));
    }
    let rest = room.len().min(table::LIST_LEN);
    let items = read_items(src, start + 1, depth - 1, &mut room[rest..])?;
    match items.stop {
        Stop::End => Err(Fault::ListOpen.at(start)),
        Stop::Close(place) => {
            // The cost is known once the items are, so that the list's own record is put after them.
            let cost = items.n + 1 + items.cost;
            put::list(items.n, cost, room);
            Ok(One {
                place: place + 1,
                size: items.size + table::LIST_LEN,
                cost,
            })
        }
    }
}

// Reads the trees in a row from `at` on. The lexer is called at one place, so that the compiler merges it into the loop: behind a symbol the next byte alone tells if an `@` follows.
#[cycle(read_items_read_tree)]
fn read_items(src: &[u8], mut at: usize, depth: usize, room: &mut [u8]) -> Result<Many, Refusal>
    ensures { ItemsRead (read_items (read_tree src.now depth) (suc (length src.now)) (next_token src.now at)) result room.old room.new }
{
    // The bindings whose tree is due: each opens one level more.
    let mut due = 0;
    let mut n = 0;
    let mut size = 0;
    // As far as the records are put, for it is only wanted where they all are.
    let mut cost = 0;
    // No `for`: the next token begins where a tree ends.
    let stop = loop {
        let one = match lexer::next_token(src, at)? {
            Lexed::End if 0 < due => return Err(Fault::NoTree.at(src.len())),
            Lexed::End => break Stop::End,
            Lexed::Token(token, start) => match token {
                Token::RParen if 0 < due => return Err(Fault::NoTree.at(start)),
                Token::RParen => break Stop::Close(start),
                Token::At => return Err(Fault::NoSymbol.at(start)),
                Token::Symbol(len) => {
                    let end = start + len;
                    let next = lexer::gap_end(src, end);
                    if classes::is_at_sign(lists::byte_at(src, next)) {
                        if due == depth {
                            return Err(Fault::TooDeep.at(start));
                        }
                        due += 1;
                        One {
                            place: next + 1,
                            size: len + HEAD,
                            cost: put::name(Kind::Binding, &src[start..end], size, room) + 3,
                        }
                    } else {
                        due = 0;
                        n += 1;
                        One {
                            place: next,
                            size: len + HEAD,
                            cost: put::name(Kind::Symbol, &src[start..end], size, room),
                        }
                    }
                }
                Token::Int(w, len) => {
                    due = 0;
                    n += 1;
                    One {
                        place: start + len,
                        size: table::INTEGER_LEN,
                        cost: put::integer(w, size, room),
                    }
                }
                Token::LParen => {
                    let rest = room.len().min(size);
                    let list = read_tree(src, start, depth - due, &mut room[rest..])?;
                    due = 0;
                    n += 1;
                    list
                }
            },
        };
        at = one.place;
        size += one.size;
        cost += one.cost;
    };
    Ok(Many {
        stop,
        n,
        size,
        cost,
    })
}

// Reads a source into the front of `table`: 1; then the first token that raises 3 to 13; 14 last. No refusal changes a byte of it.
pub fn read(src: &[u8], table: &mut [u8]) -> Result<usize, Refusal>
    ensures { (read_of result ≡ reading src.now (length table.old))
        × (table.new ≡ read_into src.now table.old) }
{
    let measured = read_items(src, 0, refusals::DEPTH_LIMIT, &mut [])?;
    match measured.stop {
        Stop::Close(place) => Err(Fault::NoListOpen.at(place)),
        Stop::End => {
            if table.len() < measured.size {
                return Err(Fault::TableRoom.at(measured.size));
            }
            // What was not refused over no room is not refused here.
            read_items(src, 0, refusals::DEPTH_LIMIT, table)?;
            Ok(measured.size)
        }
    }
}
