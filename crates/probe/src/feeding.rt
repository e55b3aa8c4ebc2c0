// The ops F, f, C and c: a source is cut into pieces, fed and closed, as a host would.
use crate::lines::Reply;
use crate::{Case, rooms};
use feeder::{Answer, Fed, Out, State};
use refusals::Refusal;
use std::io;
use std::io::Write;

// More calls than a source can take: each hands out a token, consumes a byte or ends a piece.
const TURNS: usize = 4000000;

// The feeder's two entrances: by value, and through a state that is lent.
#[derive(Clone, Copy, Debug, PartialEq, Eq)]
pub enum Entrance {
    ByValue,
    Lent,
}

// What is shown: every call, with extra ones, or the tokens alone.
#[derive(Clone, Copy, Debug, PartialEq, Eq)]
pub enum Shown {
    Calls,
    Tokens,
}

// A host: what an op asks of it, and the state that it keeps.
#[derive(Clone, Copy, Debug, PartialEq, Eq)]
pub struct Host {
    entrance: Entrance,
    shown: Shown,
    state: State,
}

impl Host {
    pub fn new(entrance: Entrance, shown: Shown) -> Host {
        Host {
            entrance,
            shown,
            state: feeder::fresh(),
        }
    }

    fn feed(&mut self, piece: &[u8]) -> Out {
        let Fed { out, state } = match self.entrance {
            Entrance::ByValue => feeder::feed(self.state, piece),
            Entrance::Lent => feeder_lent::feed_through(self.state, piece),
        };
        self.state = state;
        out
    }

    // The lent state is fed a byte where the one by value is fed nothing, so that both are tried.
    fn feed_extra(&mut self) -> Out {
        match self.entrance {
            Entrance::ByValue => self.feed(b""),
            Entrance::Lent => self.feed(b"x"),
        }
    }

    fn close(&mut self) -> Result<Answer, Refusal> {
        let Fed { out, state } = match self.entrance {
            Entrance::ByValue => feeder::close(self.state),
            Entrance::Lent => feeder_lent::close_through(self.state),
        };
        self.state = state;
        out.answer
    }
}

fn show_fed(to: &mut impl Write, out: Out) -> io::Result<()> {
    writeln!(to, "feed {} {}", out.used, Reply(out.answer))
}

// Feeds a piece until nothing is left of it, and says whether the feeder goes on.
fn feed(to: &mut impl Write, host: &mut Host, piece: &[u8]) -> io::Result<bool> {
    let mut rest = piece;
    for _ in 0..TURNS {
        let out = host.feed(rest);
        if host.shown == Shown::Calls {
            show_fed(to, out)?;
        } else if out.answer != Ok(Answer::More) {
            writeln!(to, "{}", Reply(out.answer))?;
        }
        rest = rooms::parted(rest, out.used).1;
        match out.answer {
            Ok(Answer::Token(..)) if !rest.is_empty() => {}
            Ok(_) => return Ok(true),
            Err(_) => return Ok(false),
        }
    }
    Ok(true)
}

// The first piece has a bytes, each later one b.
fn feed_all(to: &mut impl Write, host: &mut Host, case: Case<'_>) -> io::Result<bool> {
    let (head, tail) = rooms::parted(case.src, case.a);
    if !feed(to, host, head)? {
        return Ok(false);
    }
    for piece in tail.chunks(case.b.max(1)) {
        if !feed(to, host, piece)? {
            return Ok(false);
        }
    }
    Ok(true)
}

// Closes, and says whether that gave a token, so that there is more to close.
fn close(to: &mut impl Write, host: &mut Host) -> io::Result<bool> {
    let answer = host.close();
    if host.shown == Shown::Calls {
        write!(to, "close ")?;
    }
    writeln!(to, "{}", Reply(answer))?;
    Ok(matches!(answer, Ok(Answer::Token(..))))
}

fn close_all(to: &mut impl Write, host: &mut Host) -> io::Result<()> {
    let mut more = close(to, host)?;
    if more && host.entrance == Entrance::Lent && host.shown == Shown::Calls {
        show_fed(to, host.feed_extra())?;
    }
    for _ in 0..TURNS {
        if !more {
            break;
        }
        more = close(to, host)?;
    }
    Ok(())
}

// All pieces, then the close.
pub fn pieces(to: &mut impl Write, case: Case<'_>, mut host: Host) -> io::Result<()> {
    if feed_all(to, &mut host, case)? {
        close_all(to, &mut host)?;
    }
    if host.shown == Shown::Calls {
        show_fed(to, host.feed_extra())?;
        close(to, &mut host)?;
    }
    Ok(())
}
