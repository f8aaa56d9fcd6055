// What the payload of a request asks for, by numbers.
ghost use Rattle.std.specs.Prelude.{◌≡◌};
ghost use Rattle.codec.specs.Request.{
  read_by_index,
  write_by_index,
  write_all_by_index,
  read_multiple_param,
  multiple_param_entry,
};
ghost use Rattle.ostelumiv.specs.Request.{
  index_refused,
  read_fields,
  write_fields,
  write_all_fields,
  entries_fields,
  entry_fields,
};

use crate::answers::{CountFields, count_refused};
use codec::refusal::Refusal;
use codec::request::{
    ReadByIndexRequest, WriteAllByIndexRequest, WriteByIndexRequest, multiple_param_entry,
    read_multiple_param,
};

#[repr(C)]
#[derive(Clone, Copy, Default)]
pub struct IndexFields {
    pub refusal: u8,
    pub sub_index: u8,
    pub index: u16,
    pub data_start: usize,
    pub data_len: usize,
}

#[repr(C)]
#[derive(Clone, Copy, Default)]
pub struct EntryFields {
    pub found: u8,
    pub sub_index: u8,
    pub index: u16,
}

fn index_refused(r: Refusal) -> IndexFields
    ensures { result ≡ index_refused r }
{
    IndexFields {
        refusal: u8::from(r),
        ..IndexFields::default()
    }
}

// The index and sub-index that a ReadByIndex asks for.
#[unsafe(no_mangle)]
pub extern "C" fn ostelumiv_read_by_index(payload: &[u8]) -> IndexFields
    ensures { result ≡ read_fields (read_by_index payload.now) }
{
    match ReadByIndexRequest::from_payload(payload) {
        Ok(q) => IndexFields {
            sub_index: q.sub_index,
            index: q.index,
            ..IndexFields::default()
        },
        Err(r) => index_refused(r),
    }
}

// The index and sub-index that a WriteByIndex is for, and where its data lie.
#[unsafe(no_mangle)]
pub extern "C" fn ostelumiv_write_by_index(payload: &[u8]) -> IndexFields
    ensures { result ≡ write_fields (write_by_index payload.now) }
{
    match WriteByIndexRequest::from_payload(payload) {
        Ok(q) => IndexFields {
            refusal: 0,
            sub_index: q.sub_index,
            index: q.index,
            data_start: q.start,
            data_len: q.len,
        },
        Err(r) => index_refused(r),
    }
}

// The index that a WriteAllByIndex is for, and where its data lie.
#[unsafe(no_mangle)]
pub extern "C" fn ostelumiv_write_all_by_index(payload: &[u8]) -> IndexFields
    ensures { result ≡ write_all_fields (write_all_by_index payload.now) }
{
    match WriteAllByIndexRequest::from_payload(payload) {
        Ok(q) => IndexFields {
            refusal: 0,
            sub_index: 0,
            index: q.index,
            data_start: q.start,
            data_len: q.len,
        },
        Err(r) => index_refused(r),
    }
}

// How many entries a ReadMultipleParam asks for.
#[unsafe(no_mangle)]
pub extern "C" fn ostelumiv_read_multiple_param(payload: &[u8]) -> CountFields
    ensures { result ≡ entries_fields (read_multiple_param payload.now) }
{
    match read_multiple_param(payload) {
        Ok(count) => CountFields { refusal: 0, count },
        Err(r) => count_refused(r),
    }
}

// Its entry at a place.
#[unsafe(no_mangle)]
pub extern "C" fn ostelumiv_multiple_param_entry(payload: &[u8], place: usize) -> EntryFields
    ensures { result ≡ entry_fields (multiple_param_entry payload.now place) }
{
    match multiple_param_entry(payload, place) {
        Some(e) => EntryFields {
            found: 1,
            sub_index: e.sub_index,
            index: e.index,
        },
        None => EntryFields::default(),
    }
}
