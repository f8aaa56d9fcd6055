// Starts: a write, a read or a concise DCF job, over a room that the caller lends. Every refusal is decided first; then the job's bytes
// are put at the start of the room.
ghost use Rattle.std.specs.Prelude.{◌≡◌, min};
ghost use Rattle.connection.specs.Start.{
  is_idle,
  dcf_job,
  dcf_transaction,
  started as started_of,
  start_read,
  start_write,
  start_dcf,
  room_with,
};

use codec::dcf::{DcfCursor, DcfStep, Transfer, dcf_count, dcf_step};
use codec::octets::put;
use codec::refusal::Refusal;
use codec::request::ReadByIndexRequest;
use con_rec::numbers::next_transaction;
use con_rec::{Mode, Now, SdoClientConnection, SdoClientConnectionState, SdoJob, Waiting};

fn is_idle(s: SdoClientConnectionState) -> bool
    ensures { result ≡ is_idle s }
{
    matches!(
        s,
        SdoClientConnectionState::Idle | SdoClientConnectionState::Closed
    )
}

// How many bytes a job may have in a room of n bytes.
fn capacity_of(n: usize) -> usize
    ensures { result ≡ min n 4294967295 }
{
    n.min(u32::MAX as usize)
}

// Opening, with a job and its deadline; 8 where the deadline does not fit.
#[tactic(auto, unfolding(laws::specs::Pick::pick, crate::specs::Start::started))]
fn started(
    c: SdoClientConnection,
    tid: u8,
    n: Now,
    job: SdoJob,
) -> Result<SdoClientConnection, Refusal>
    ensures { result ≡ started_of c tid n job }
{
    let deadline = n.deadline().ok_or(Refusal::DeadlineRange)?;
    Ok(SdoClientConnection {
        state: SdoClientConnectionState::Opening,
        transaction_id: tid,
        job,
        waiting: Waiting {
            last_sent_command: None,
            deadline: Some(deadline),
            retries_left: n.retries_left(),
        },
        ..SdoClientConnection::new(c.target_node_id, c.room)
    })
}

// A DCF's job: the first entry loaded, if it is readable.
fn dcf_job(mode: Mode, d: DcfStep, size: usize, first: DcfCursor) -> SdoJob
    ensures { result ≡ dcf_job mode d size first }
{
    let (cursor, loaded) = match d {
        DcfStep::Entry { entry, next } => (next, Some(entry)),
        DcfStep::End | DcfStep::Unreadable => (first, None),
    };
    SdoJob {
        size,
        cursor,
        loaded,
        mode,
        ..SdoJob::NONE
    }
}

// The load of the first entry steps the transaction.
fn dcf_transaction(d: DcfStep, tid: u8) -> u8
    ensures { result ≡ dcf_transaction d tid }
{
    match d {
        DcfStep::Entry { .. } => next_transaction(tid),
        DcfStep::End | DcfStep::Unreadable => tid,
    }
}

// Starts a job that reads an object. 4 where a job is running, 8 where the deadline does not fit.
#[tactic(auto, unfolding(laws::specs::Pick::pick, crate::specs::Start::start_read))]
pub fn start_read_job(
    c: SdoClientConnection,
    mode: Mode,
    index: u16,
    sub_index: u8,
    tid: u8,
    when: Now,
) -> Result<SdoClientConnection, Refusal>
    ensures { result ≡ start_read c tid «when» mode index sub_index }
{
    if !is_idle(c.state) {
        return Err(Refusal::Busy);
    }
    let job = SdoJob {
        pending_read: Some(ReadByIndexRequest { index, sub_index }),
        mode,
        ..SdoJob::NONE
    };
    started(c, tid, when, job)
}

// Starts a job that writes an object. 4 where a job is running, 7 where its bytes and the 4 ahead of them go past the room, 8 where
// the deadline does not fit; then the room is as it was.
#[tactic(auto, unfolding(laws::specs::Pick::pick, crate::specs::Start::start_write, codec::specs::Writing::put_buffer))]
pub fn start_write_job(
    c: SdoClientConnection,
    mode: Mode,
    index: u16,
    sub_index: u8,
    bytes: &[u8],
    tid: u8,
    when: Now,
    room: &mut [u8],
) -> Result<SdoClientConnection, Refusal>
    ensures value { result ≡ start_write c tid «when» mode index sub_index bytes.now room.old }
    ensures room_after { room.new ≡ room_with (start_write c tid «when» mode index sub_index bytes.now room.old) bytes.now room.old }
{
    if !is_idle(c.state) {
        return Err(Refusal::Busy);
    }
    let size = bytes.len();
    if capacity_of(room.len()) < 4 + size {
        return Err(Refusal::NoRoom);
    }
    let loaded = Transfer {
        index,
        sub_index,
        start: 0,
        len: size as u32,
    };
    let job = SdoJob {
        size,
        loaded: Some(loaded),
        mode,
        ..SdoJob::NONE
    };
    let next = started(c, tid, when, job)?;
    // they fit
    let _ = put(room, 0, bytes);
    Ok(next)
}

// Starts a concise DCF job. 4 where a job is running, 5 for a DCF under four bytes, 7 where it goes past the room, 8 where the
// deadline does not fit; then the room is as it was.
#[tactic(auto, unfolding(laws::specs::Pick::pick, crate::specs::Start::start_dcf, codec::specs::Dcf::dcf_count, codec::specs::Writing::put_buffer))]
pub fn start_concise_dcf_job(
    c: SdoClientConnection,
    mode: Mode,
    dcf: &[u8],
    tid: u8,
    when: Now,
    room: &mut [u8],
) -> Result<SdoClientConnection, Refusal>
    ensures value { result ≡ start_dcf c tid «when» mode dcf.now room.old }
    ensures room_after { room.new ≡ room_with (start_dcf c tid «when» mode dcf.now room.old) dcf.now room.old }
{
    if !is_idle(c.state) {
        return Err(Refusal::Busy);
    }
    let count = dcf_count(dcf)?;
    if capacity_of(room.len()) < dcf.len() {
        return Err(Refusal::NoRoom);
    }
    let first = DcfCursor { at: 4, left: count };
    let step = dcf_step(dcf, first);
    let job = dcf_job(mode, step, dcf.len(), first);
    let next = started(c, dcf_transaction(step, tid), when, job)?;
    // it fits
    let _ = put(room, 0, dcf);
    Ok(next)
}
