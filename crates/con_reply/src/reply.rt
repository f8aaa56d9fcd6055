// Reply: what a command from the server brings about. Decided on the record and the job's bytes; the only thing done to the room is to
// put an upload's bytes in it.
ghost use Rattle.std.specs.Prelude.{◌≡◌};
ghost use Rattle.con_reply.specs.Reply.{
  cleared as cleared_of,
  delivered_one,
  replied,
  reply_first,
  reply_in,
  reply_more,
  reply_next,
  reply_of,
  reply_opening,
  reply_sent,
  room_after,
  room_for,
  stored_last,
  stored_more,
  with_bytes,
};

use codec::command::{SdoCommand, Segmentation};
use codec::dcf::{DcfStep, dcf_step};
use codec::octets::put;
use codec::refusal::Refusal;
use codec::request::abort_code;
use codec::sequence::{ReceiveConnState, SendConnState, SequenceLayerHeader};
use con_rec::numbers::{next_number, next_transaction};
use con_rec::parts::total;
use con_rec::payload::clip;
use con_rec::{Reason, SdoClientConnection, SdoClientConnectionState, SdoJob, Waiting};

// What a reply comes to: the connection after it, the room as it is; the same, with the payload put into the room from a place on; or no
// room for it.
#[derive(Clone, Copy)]
pub enum Decision {
    Keeps(SdoClientConnection),
    Stores(SdoClientConnection, usize),
    NoRoom,
}

// The command, deadline and retries are cleared, and a number is the last received.
fn cleared(c: SdoClientConnection, last: u8) -> SdoClientConnection
    ensures { result ≡ cleared_of c last }
{
    SdoClientConnection {
        last_received_sequence_number: last,
        waiting: Waiting::NOTHING,
        ..c
    }
}

fn delivered_one(j: SdoJob) -> SdoJob
    ensures { result ≡ delivered_one j }
{
    SdoJob {
        delivered: j.delivered.saturating_add(1),
        ..j
    }
}

// All of a transfer was sent and answered: the next entry is loaded, or the job is ended.
fn reply_next(d: DcfStep, c: SdoClientConnection) -> SdoClientConnection
    ensures { result ≡ reply_next d c }
{
    let done = SdoClientConnection {
        job: delivered_one(c.job),
        ..c
    };
    match d {
        DcfStep::Entry { entry, next } => {
            let job = SdoJob {
                cursor: next,
                loaded: Some(entry),
                offset: 0,
                ..done.job
            };
            SdoClientConnection {
                state: SdoClientConnectionState::Established,
                transaction_id: next_transaction(c.transaction_id),
                job,
                ..done
            }
        }
        DcfStep::End => done.ended(Reason::Complete),
        DcfStep::Unreadable => done.ended(Reason::Cut),
    }
}

fn reply_sent(room: &[u8], c: SdoClientConnection) -> SdoClientConnection
    ensures { result ≡ reply_sent c.job.loaded room.now c }
{
    match c.job.loaded {
        Some(t) if total(t) <= c.job.offset => {
            let own = clip(room, 0, c.job.size);
            reply_next(dcf_step(own, c.job.cursor), c)
        }
        _ => c,
    }
}

fn with_bytes(c: SdoClientConnection, n: usize) -> SdoClientConnection
    ensures { result ≡ with_bytes c n }
{
    SdoClientConnection {
        job: SdoJob {
            uploaded: n,
            ..c.job
        },
        ..c
    }
}

#[tactic(auto, unfolding(laws::specs::Pick::pick, crate::specs::Reply::room_for))]
fn room_for(from: usize, n: usize, room: &[u8]) -> Option<usize>
    ensures { result ≡ room_for from n room.now }
{
    let end = from.checked_add(n)?;
    if end <= room.len() { Some(end) } else { None }
}

fn stored_last(f: Option<usize>, c: SdoClientConnection, from: usize) -> Decision
    ensures { result ≡ stored_last f c from }
{
    match f {
        Some(end) => Decision::Stores(with_bytes(c, end).ended(Reason::Complete), from),
        None => Decision::NoRoom,
    }
}

fn stored_more(f: Option<usize>, c: SdoClientConnection, from: usize) -> Decision
    ensures { result ≡ stored_more f c from }
{
    match f {
        Some(end) => Decision::Stores(with_bytes(c, end), from),
        None => Decision::NoRoom,
    }
}

fn reply_first(kind: Segmentation, c: SdoClientConnection, n: usize, room: &[u8]) -> Decision
    ensures { result ≡ reply_first kind c n room.now }
{
    match kind {
        Segmentation::Expedited => stored_last(room_for(0, n, room), c, 0),
        Segmentation::Initiate => {
            let next = SdoClientConnection {
                state: SdoClientConnectionState::UploadInProgress,
                ..with_bytes(c, 0)
            };
            Decision::Keeps(next)
        }
        Segmentation::Segment | Segmentation::Complete => {
            Decision::Keeps(c.ended(Reason::BadSegment))
        }
    }
}

fn reply_more(kind: Segmentation, c: SdoClientConnection, n: usize, room: &[u8]) -> Decision
    ensures { result ≡ reply_more kind c n room.now }
{
    let from = c.job.uploaded;
    match kind {
        Segmentation::Segment => stored_more(room_for(from, n, room), c, from),
        Segmentation::Complete => stored_last(room_for(from, n, room), c, from),
        Segmentation::Expedited | Segmentation::Initiate => {
            Decision::Keeps(c.ended(Reason::BadSegment))
        }
    }
}

fn reply_opening(seq: SequenceLayerHeader, c: SdoClientConnection) -> SdoClientConnection
    ensures { result ≡ reply_opening seq c }
{
    let receives = matches!(seq.receive_con, ReceiveConnState::Initialization);
    let sends = matches!(seq.send_con, SendConnState::Initialization);
    if receives && sends {
        SdoClientConnection {
            state: SdoClientConnectionState::Established,
            ..c
        }
    } else {
        c.ended(Reason::OpenRefused)
    }
}

// By the state that the command outstanding waits in.
fn reply_in(
    seq: SequenceLayerHeader,
    kind: Segmentation,
    c: SdoClientConnection,
    n: usize,
    room: &[u8],
) -> Decision
    ensures { result ≡ reply_in c.state seq kind c n room.now }
{
    match c.state {
        SdoClientConnectionState::Opening => Decision::Keeps(reply_opening(seq, c)),
        SdoClientConnectionState::UploadInit => reply_first(kind, c, n, room),
        SdoClientConnectionState::UploadInProgress => reply_more(kind, c, n, room),
        SdoClientConnectionState::DownloadInProgress => Decision::Keeps(reply_sent(room, c)),
        SdoClientConnectionState::Idle
        | SdoClientConnectionState::Established
        | SdoClientConnectionState::Closed => Decision::Keeps(c.ended(Reason::Sequence)),
    }
}

// What a reply comes to, decided before a byte is put: one for the command outstanding clears it; a duplicate stops there, a number that is
// not the next one ends the job, and then the abort mark decides, or the state.
#[tactic(auto, unfolding(laws::specs::Pick::pick, crate::specs::Reply::reply_of))]
fn reply_of(
    seq: SequenceLayerHeader,
    cmd: SdoCommand,
    payload: &[u8],
    c: SdoClientConnection,
    room: &[u8],
) -> Decision
    ensures { result ≡ reply_of seq cmd payload.now c room.now }
{
    let Some(outstanding) = c.waiting.last_sent_command else {
        return Decision::Keeps(c);
    };
    if seq.receive_sequence_number != outstanding.send {
        return Decision::Keeps(c);
    }
    let last = c.last_received_sequence_number;
    let number = seq.send_sequence_number;
    if number == last {
        return Decision::Keeps(cleared(c, last));
    }
    if number != next_number(last) {
        return Decision::Keeps(c.ended(Reason::Sequence));
    }
    let next = cleared(c, number);
    if cmd.header.is_aborted {
        let code = abort_code(payload);
        return Decision::Keeps(next.ended(Reason::PeerAborted(code)));
    }
    reply_in(seq, cmd.header.segmentation, next, payload.len(), room)
}

// Takes a command from the server: its sequence header, the command and its payload. A reply that answers nothing outstanding
// changes nothing. 7 where an upload goes past the room; then nothing has happened.
pub fn handle_response(
    c: SdoClientConnection,
    seq: SequenceLayerHeader,
    cmd: SdoCommand,
    payload: &[u8],
    room: &mut [u8],
) -> Result<SdoClientConnection, Refusal>
    ensures value { result ≡ replied (reply_of seq cmd payload.now c room.old) }
    ensures room_after { room.new ≡ room_after (reply_of seq cmd payload.now c room.old) payload.now room.old }
{
    match reply_of(seq, cmd, payload, c, room) {
        Decision::Keeps(d) => Ok(d),
        Decision::Stores(d, from) => {
            let _ = put(room, from, payload);
            Ok(d)
        }
        Decision::NoRoom => Err(Refusal::NoRoom),
    }
}
