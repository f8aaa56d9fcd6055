// One node's connection as a record, and the commands that it sends (document 01, "The connection" and "Bytes"): the parts that a transfer
// is sent in, deadlines, headers and payloads. What the calls make of a record is in the crates connection and con_reply. The names are those of the
// repository's client_connection.rs where it has them. The types stand here, at the root, since every check writes their names out.
#![tactic(auto, unfolding(laws::specs::Pick::pick))]

ghost use Rattle.std.specs.Prelude.{◌≡◌};
ghost use Rattle.con_rec.specs.Record.{new_connection, ended, end_of};

use codec::dcf::{DcfCursor, Transfer};
use codec::request::ReadByIndexRequest;

pub mod commands;
pub mod deadlines;
pub mod numbers;
pub mod parts;
pub mod payload;

// The numbers are those by which replay_states tells a state.
#[derive(Clone, Copy)]
pub enum SdoClientConnectionState {
    Idle = 0,
    Opening = 1,
    Established = 2,
    UploadInit = 3,
    UploadInProgress = 4,
    DownloadInProgress = 5,
    Closed = 6,
}

// What a call is told: the time in microseconds, and the two parameters, each there or not.
#[derive(Clone, Copy)]
pub struct Now {
    pub time: u64,
    pub timeout: Option<u32>,
    pub retries: Option<u32>,
}

// Which rules a job follows where document 02 changes those of document 01: the repository's, or the published ones (CR 2). A start chooses it, and
// the rules ask a function of it, such as `limit`.
#[derive(Clone, Copy)]
pub enum Mode {
    Repository,
    Published,
}

// Which command goes out, with its place: a read's object, a part's transfer and the bytes of it that went before, an abort's code.
#[derive(Clone, Copy)]
pub enum Message {
    Opening,
    Read(ReadByIndexRequest),
    Next,
    First(Transfer),
    Later { transfer: Transfer, from: u64 },
    Abort(u32),
}

// A command that goes out: the numbers of its headers, the mode of its job, and which command it is.
#[derive(Clone, Copy)]
pub struct Outgoing {
    pub receive: u8,
    pub send: u8,
    pub transaction: u8,
    pub mode: Mode,
    pub message: Message,
}

// Why a job ended.
#[derive(Clone, Copy)]
pub enum Reason {
    Complete,
    Cut,
    OpenRefused,
    Sequence,
    PeerAborted(Option<u32>),
    Timeout,
    BadSegment,
}

// The job: how many bytes of the room are its own, where its next entry begins and how many are still counted, the transfer that is
// loaded and how many bytes of it were sent, the read command, how many bytes an upload has brought, the transfers delivered, and the
// mode that its start chose.
#[derive(Clone, Copy)]
pub struct SdoJob {
    pub size: usize,
    pub cursor: DcfCursor,
    pub loaded: Option<Transfer>,
    pub offset: u64,
    pub pending_read: Option<ReadByIndexRequest>,
    pub uploaded: usize,
    pub delivered: u32,
    pub mode: Mode,
}

// What is waited for: a reply to the command outstanding, which is kept for repeats, until the deadline, and so many repeats.
#[derive(Clone, Copy)]
pub struct Waiting {
    pub last_sent_command: Option<Outgoing>,
    pub deadline: Option<u64>,
    pub retries_left: u32,
}

// One node's connection. `room` is where its room starts in the store; only the manager looks at it. `outcome` is why its job ended, once it has.
#[derive(Clone, Copy)]
pub struct SdoClientConnection {
    pub room: usize,
    pub target_node_id: u8,
    pub state: SdoClientConnectionState,
    pub transaction_id: u8,
    pub send_sequence_number: u8,
    pub last_received_sequence_number: u8,
    pub job: SdoJob,
    pub waiting: Waiting,
    pub outcome: Option<Reason>,
}

// The connection after an ask or a tick, and the command that goes out, if one does.
#[derive(Clone, Copy)]
pub struct Step {
    pub connection: SdoClientConnection,
    pub sends: Option<Outgoing>,
}

// An end, as it is reported.
#[derive(Clone, Copy)]
pub struct End {
    pub node: u8,
    pub reason: Reason,
    pub delivered: u32,
}

impl SdoJob {
    // No job; nothing asks its mode.
    pub const NONE: SdoJob = SdoJob {
        size: 0,
        cursor: DcfCursor { at: 0, left: 0 },
        loaded: None,
        offset: 0,
        pending_read: None,
        uploaded: 0,
        delivered: 0,
        mode: Mode::Repository,
    };
}

impl Waiting {
    // No command outstanding, no deadline, no retries.
    pub const NOTHING: Waiting = Waiting {
        last_sent_command: None,
        deadline: None,
        retries_left: 0,
    };
}

impl SdoClientConnection {
    // A new connection: Idle, transaction 0, send 0, last received 63, no job.
    pub fn new(target_node_id: u8, room: usize) -> SdoClientConnection
        ensures { result ≡ new_connection target_node_id room }
    {
        SdoClientConnection {
            target_node_id,
            room,
            state: SdoClientConnectionState::Idle,
            transaction_id: 0,
            send_sequence_number: 0,
            last_received_sequence_number: 63,
            job: SdoJob::NONE,
            waiting: Waiting::NOTHING,
            outcome: None,
        }
    }

    // Closed, nothing waited for, for a reason.
    pub fn ended(self, why: Reason) -> SdoClientConnection
        ensures { result ≡ ended self why }
    {
        SdoClientConnection {
            state: SdoClientConnectionState::Closed,
            waiting: Waiting::NOTHING,
            outcome: Some(why),
            ..self
        }
    }

    // The end to report, where the job ended.
    pub fn end(self) -> Option<End>
        ensures { result ≡ end_of self }
    {
        let reason = self.outcome?;
        Some(End {
            node: self.target_node_id,
            reason,
            delivered: self.job.delivered,
        })
    }
}
