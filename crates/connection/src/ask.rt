// Ask: what a connection has to send. It looks at the record alone, and answers the new record and the command with its place.
ghost use Rattle.std.specs.Prelude.{◌≡◌};
ghost use Rattle.connection.specs.Ask.{quiet as quiet_step, given as given_step, finish as finish_of, ask_first, ask_later, ask_of};
ghost use Rattle.con_rec.specs.Commands.{outgoing};

use codec::refusal::Refusal;
use con_rec::numbers::next_number;
use con_rec::parts::{part_length, rest_of, total};
use con_rec::{
    Message, Now, Reason, SdoClientConnection, SdoClientConnectionState, SdoJob, Step, Waiting,
};

// Nothing is given.
pub(crate) fn quiet(c: SdoClientConnection) -> Result<Step, Refusal>
    ensures { result ≡ quiet_step c }
{
    Ok(Step {
        connection: c,
        sends: None,
    })
}

// A command is given: deadline and retries are set, and the send number steps. 8 where the deadline does not fit.
#[tactic(auto, unfolding(laws::specs::Pick::pick, crate::specs::Ask::given))]
fn given(
    c: SdoClientConnection,
    n: Now,
    s: SdoClientConnectionState,
    sent: u64,
    message: Message,
) -> Result<Step, Refusal>
    ensures { result ≡ given_step c n s sent (outgoing c message) }
{
    let deadline = n.deadline().ok_or(Refusal::DeadlineRange)?;
    let o = c.numbered(message);
    Ok(Step {
        connection: SdoClientConnection {
            state: s,
            send_sequence_number: next_number(c.send_sequence_number),
            job: SdoJob {
                offset: sent,
                ..c.job
            },
            waiting: Waiting {
                last_sent_command: Some(o),
                deadline: Some(deadline),
                retries_left: n.retries_left(),
            },
            ..c
        },
        sends: Some(o),
    })
}

// Complete where none is counted any more, else Cut.
fn finish(left: u32) -> Reason
    ensures { result ≡ finish_of left }
{
    if left == 0 {
        Reason::Complete
    } else {
        Reason::Cut
    }
}

// Established: the first part of a loaded transfer, else the read command, else the job is done.
fn ask_first(c: SdoClientConnection, n: Now) -> Result<Step, Refusal>
    ensures { result ≡ ask_first c.job.loaded c n }
{
    if let Some(t) = c.job.loaded {
        let sent = part_length(total(t)) as u64;
        let state = SdoClientConnectionState::DownloadInProgress;
        return given(c, n, state, sent, Message::First(t));
    }
    if let Some(q) = c.job.pending_read {
        let state = SdoClientConnectionState::UploadInit;
        return given(c, n, state, c.job.offset, Message::Read(q));
    }
    quiet(c.ended(finish(c.job.cursor.left)))
}

// DownloadInProgress: the next part.
fn ask_later(c: SdoClientConnection, n: Now) -> Result<Step, Refusal>
    ensures { result ≡ ask_later c.job.loaded c n }
{
    let Some(transfer) = c.job.loaded else {
        return quiet(c);
    };
    let from = c.job.offset;
    let sent = from + part_length(rest_of(total(transfer), from)) as u64;
    let state = SdoClientConnectionState::DownloadInProgress;
    given(c, n, state, sent, Message::Later { transfer, from })
}

// What the connection has to send next, and the connection after it. Call it when a frame can go out; a call that finds nothing to
// send changes nothing, but for a job that is done: it is ended then. 8 where the deadline to be set does not fit.
#[tactic(auto, unfolding(laws::specs::Pick::pick, crate::specs::Ask::ask_of))]
pub fn get_pending_request(c: SdoClientConnection, when: Now) -> Result<Step, Refusal>
    ensures { result ≡ ask_of c «when» }
{
    if c.waiting.last_sent_command.is_some() {
        return quiet(c);
    }
    match c.state {
        SdoClientConnectionState::Opening => {
            given(c, when, c.state, c.job.offset, Message::Opening)
        }
        SdoClientConnectionState::Established => ask_first(c, when),
        SdoClientConnectionState::UploadInProgress => {
            given(c, when, c.state, c.job.offset, Message::Next)
        }
        SdoClientConnectionState::DownloadInProgress => ask_later(c, when),
        SdoClientConnectionState::Idle
        | SdoClientConnectionState::UploadInit
        | SdoClientConnectionState::Closed => quiet(c),
    }
}
