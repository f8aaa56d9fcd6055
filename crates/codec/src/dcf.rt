// The concise DCF: its count, and a step by value over its entries (document 01, "Bytes"). The data of an entry stay where they are.
ghost use Rattle.std.specs.Prelude.{◌≡◌};
ghost use Rattle.codec.specs.Dcf.{dcf_count, dcf_step};

use crate::octets::{le16_at, le32_at};
use crate::refusal::Refusal;

// Where the next entry begins, and how many are still counted. The first entry's cursor is at 4, with the count left.
#[derive(Clone, Copy, PartialEq, Eq)]
pub struct DcfCursor {
    pub at: usize,
    pub left: u32,
}

// A transfer is a place: an entry or a write, which is sent as index, sub-index, 0 and its data, the len bytes from start on. The long
// fields stand first: fields lie as they are written, and a connection holds one and is copied often.
#[derive(Clone, Copy, PartialEq, Eq)]
pub struct Transfer {
    pub start: usize,
    pub len: u32,
    pub index: u16,
    pub sub_index: u8,
}

// What stands at a cursor: an entry, and the cursor behind it; none counted any more; or one that is not readable.
#[derive(Clone, Copy, PartialEq, Eq)]
pub enum DcfStep {
    Entry { entry: Transfer, next: DcfCursor },
    End,
    Unreadable,
}

// How many entries the DCF counts; 5 where it has under four bytes.
#[tactic(auto, using(laws::proofs::Picks::below, laws::proofs::Picks::not_below), unfolding(crate::specs::Dcf::dcf_count))]
pub fn dcf_count(b: &[u8]) -> Result<u32, Refusal>
    ensures { result ≡ dcf_count b.now }
{
    if b.len() < 4 {
        return Err(Refusal::DcfTooShort);
    }
    Ok(le32_at(b, 0))
}

// The entry at a cursor, if one is still counted and its 7 bytes and its data lie within the bytes.
pub fn dcf_step(b: &[u8], c: DcfCursor) -> DcfStep
    ensures { result ≡ dcf_step b.now c }
{
    let at = c.at;
    let left = c.left;
    if left == 0 {
        return DcfStep::End;
    }
    if b.len() < at || b.len() - at < 7 {
        return DcfStep::Unreadable;
    }
    let start = at + 7;
    let len = le32_at(b, at + 3);
    let size = len as usize;
    if b.len() - start < size {
        return DcfStep::Unreadable;
    }
    let entry = Transfer {
        start,
        len,
        index: le16_at(b, at),
        sub_index: b[at + 2],
    };
    DcfStep::Entry {
        entry,
        next: DcfCursor {
            at: start + size,
            left: left - 1,
        },
    }
}
