// The request readers: what the payload of a ReadByIndex, WriteByIndex, WriteAllByIndex or ReadMultipleParam command asks for, and the
// code in an abort's. The names are those of the repository's command/base.rs. A request's data stay where they are, a part of the payload.
ghost use Rattle.std.specs.Prelude.{◌≡◌};
ghost use Rattle.codec.specs.Request.{
  read_by_index,
  write_by_index,
  write_all_by_index,
  read_multiple_param,
  multiple_param_entry,
  abort_code,
};

use crate::octets::{le16_at, le32_at};
use crate::refusal::Refusal;

#[derive(Clone, Copy, PartialEq, Eq)]
pub struct ReadByIndexRequest {
    pub index: u16,
    pub sub_index: u8,
}

// The data are the len bytes of the payload from start on.
#[derive(Clone, Copy, PartialEq, Eq)]
pub struct WriteByIndexRequest {
    pub index: u16,
    pub sub_index: u8,
    pub start: usize,
    pub len: usize,
}

// The data are the len bytes of the payload from start on.
#[derive(Clone, Copy, PartialEq, Eq)]
pub struct WriteAllByIndexRequest {
    pub index: u16,
    pub start: usize,
    pub len: usize,
}

#[derive(Clone, Copy, PartialEq, Eq)]
pub struct MultipleParamEntry {
    pub index: u16,
    pub sub_index: u8,
}

#[tactic(auto, using(laws::proofs::Picks::below, laws::proofs::Picks::not_below))]
impl ReadByIndexRequest {
    // The index and sub-index that a ReadByIndex asks for; 3 where the payload has under four bytes.
    pub fn from_payload(payload: &[u8]) -> Result<ReadByIndexRequest, Refusal>
        ensures { result ≡ read_by_index payload.now }
    {
        if payload.len() < 4 {
            return Err(Refusal::SdoInvalidCommandPayload);
        }
        Ok(ReadByIndexRequest {
            index: le16_at(payload, 0),
            sub_index: payload[2],
        })
    }
}

#[tactic(auto, using(laws::proofs::Picks::below, laws::proofs::Picks::not_below))]
impl WriteByIndexRequest {
    // The index and sub-index that a WriteByIndex is for, and where its data lie; 3 where the payload has under four bytes.
    pub fn from_payload(payload: &[u8]) -> Result<WriteByIndexRequest, Refusal>
        ensures { result ≡ write_by_index payload.now }
    {
        let ReadByIndexRequest { index, sub_index } = ReadByIndexRequest::from_payload(payload)?;
        Ok(WriteByIndexRequest {
            index,
            sub_index,
            start: 4,
            len: payload.len() - 4,
        })
    }
}

#[tactic(auto, using(laws::proofs::Picks::below, laws::proofs::Picks::not_below))]
impl WriteAllByIndexRequest {
    // The index that a WriteAllByIndex is for, and where its data lie; 3 where the payload has under four bytes.
    pub fn from_payload(payload: &[u8]) -> Result<WriteAllByIndexRequest, Refusal>
        ensures { result ≡ write_all_by_index payload.now }
    {
        let ReadByIndexRequest { index, .. } = ReadByIndexRequest::from_payload(payload)?;
        Ok(WriteAllByIndexRequest {
            index,
            start: 4,
            len: payload.len() - 4,
        })
    }
}

// How many entries a ReadMultipleParam asks for; 3 where the payload's length is no multiple of four.
#[tactic(auto, using(laws::proofs::Picks::is, laws::proofs::Picks::is_not))]
pub fn read_multiple_param(payload: &[u8]) -> Result<usize, Refusal>
    ensures { result ≡ read_multiple_param payload.now }
{
    if payload.len() % 4 != 0 {
        return Err(Refusal::SdoInvalidCommandPayload);
    }
    Ok(payload.len() / 4)
}

// The entry at a place, counted from 0, or none: past the last one, or where the payload is refused.
#[tactic(auto, using(laws::proofs::Picks::is, laws::proofs::Picks::is_not, laws::proofs::Picks::below, laws::proofs::Picks::not_below))]
pub fn multiple_param_entry(payload: &[u8], place: usize) -> Option<MultipleParamEntry>
    ensures { result ≡ multiple_param_entry payload.now place }
{
    if payload.len() % 4 != 0 {
        return None;
    }
    if payload.len() / 4 <= place {
        return None;
    }
    let at = place * 4;
    Some(MultipleParamEntry {
        index: le16_at(payload, at),
        sub_index: payload[at + 2],
    })
}

// The code that the payload of an abort has.
#[tactic(auto, using(laws::proofs::Picks::below, laws::proofs::Picks::not_below))]
pub fn abort_code(payload: &[u8]) -> Option<u32>
    ensures { result ≡ abort_code payload.now }
{
    if payload.len() < 4 {
        return None;
    }
    Some(le32_at(payload, 0))
}
