// Tick: what a deadline that has passed brings about. It looks at the record alone.
ghost use Rattle.std.specs.Prelude.{◌≡◌};
ghost use Rattle.connection.specs.Tick.{timed_out, tick_of};

use crate::ask::quiet;
use codec::refusal::Refusal;
use con_rec::{Message, Now, Reason, SdoClientConnection, Step, Waiting};

const TIMED_OUT: u32 = 0x05040000;

fn timed_out(c: SdoClientConnection) -> Result<Step, Refusal>
    ensures { result ≡ timed_out c }
{
    Ok(Step {
        connection: c.ended(Reason::Timeout),
        sends: Some(c.numbered(Message::Abort(TIMED_OUT))),
    })
}

// What a deadline that has passed brings about: a repeat of the command outstanding, if one was sent yet, with one retry fewer and a new
// deadline; or the abort of the connection. Call it when next_action_time has come; a call before that changes nothing. 8 where a new
// deadline does not fit.
#[tactic(auto, unfolding(laws::specs::Pick::pick, crate::specs::Tick::tick_of))]
pub fn tick(c: SdoClientConnection, when: Now) -> Result<Step, Refusal>
    ensures { result ≡ tick_of c «when» }
{
    let Some(due) = c.waiting.deadline else {
        return quiet(c);
    };
    if when.time < due {
        return quiet(c);
    }
    if c.waiting.retries_left == 0 {
        return timed_out(c);
    }
    let deadline = when.deadline().ok_or(Refusal::DeadlineRange)?;
    Ok(Step {
        connection: SdoClientConnection {
            waiting: Waiting {
                deadline: Some(deadline),
                retries_left: c.waiting.retries_left - 1,
                ..c.waiting
            },
            ..c
        },
        sends: c.waiting.last_sent_command,
    })
}
