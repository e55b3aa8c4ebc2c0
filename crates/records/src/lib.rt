// The format of records: the length of the whole record in 4 bytes, its kind in 2, its payload, all little-endian. Tables and whatever else is kept in records go through here.
#![tactic(auto)]

ghost use Rattle.std.specs.Prelude.{◌≡◌, ◌++◌, ◌+◌};
ghost use Rattle.lists.specs.Over.{fitted};
ghost use Rattle.wide.specs.Bytes.{le, number_in};
ghost use Rattle.records.specs.Records.{head_at, head_of, record_of};

// The bytes of a head: those of the length and of the kind.
pub const HEAD: usize = 6;

// A record's kind, and its length. A kind is a number here: tables and settings have kinds of their own.
#[derive(Clone, Copy, Debug, PartialEq, Eq)]
pub struct Head {
    pub kind: usize,
    pub len: usize,
}

// The length that stands at `at`, or 0 where its bytes are missing: `number_in` is the public promise, here and of the kind.
pub fn len_at(t: &[u8], at: usize) -> usize
    ensures { result ≡ number_in 4 t.now at }
{
    wide::u32_at(t, at)
}

// The kind of the record at `at`, or 0 where its bytes are missing.
pub fn kind_at(t: &[u8], at: usize) -> usize
    ensures { result ≡ number_in 2 t.now (at + 4) }
{
    if t.len() <= at {
        return 0;
    }
    wide::u16_at(t, at + 4)
}

// The head of the record at `at`; none where fewer bytes are left than a head has, or than the length says, and where the length is below a head's.
pub fn head_at(t: &[u8], at: usize) -> Option<Head>
    ensures { result ≡ head_at t.now at }
{
    if t.len() < at {
        return None;
    }
    // `checked_sub` and `?` for these four lines took 50 % more instructions a head.
    let left = t.len() - at;
    if left < HEAD {
        return None;
    }
    let len = wide::u32_at(t, at);
    if left < len {
        return None;
    }
    if len < HEAD {
        return None;
    }
    Some(Head {
        kind: wide::u16_at(t, at + 4),
        len,
    })
}

// Puts the head of a record of `len` bytes at the front of out; a room that is too short stays as it was.
pub fn put_head(kind: usize, len: usize, out: &mut [u8])
    ensures { out.new ≡ fitted (head_of kind len) out.old }
{
    if out.len() < HEAD {
        return;
    }
    wide::put_u32(len, out);
    wide::put_u16(kind, &mut out[4..]);
}

// Puts a record at the front of out; a room that is too short stays as it was.
pub fn put(kind: usize, payload: &[u8], out: &mut [u8])
    ensures { out.new ≡ fitted (record_of kind payload.now) out.old }
{
    if out.len() < HEAD {
        return;
    }
    if out.len() - HEAD < payload.len() {
        return;
    }
    put_head(kind, payload.len() + HEAD, out);
    lists::put(payload, &mut out[HEAD..]);
}
