// The walk of tick and ask: each connection in turn, in ascending order, up to the first that gives a command.
ghost use Rattle.std.specs.Prelude.{◌≡◌};
ghost use Rattle.man_table.specs.Resting.{nothing_to_ask, nothing_due, rests_of, due_in};
ghost use Rattle.man_table.specs.Table.{live};
ghost use Rattle.man_table.specs.Walk.{at_turn, walk_of};

use crate::held::lived;
use crate::types::{SdoClientManager, Turn, Walk, Walked};
use codec::refusal::Refusal;
use con_rec::{Now, SdoClientConnection, SdoClientConnectionState, Step};
use connection::ask::get_pending_request;
use connection::tick::tick;

// What a connection does at its turn.
pub fn at_turn(t: Turn, c: SdoClientConnection, n: Now) -> Result<Step, Refusal>
    ensures { result ≡ at_turn t c n }
{
    match t {
        Turn::Asking => get_pending_request(c, n),
        Turn::Ticking => tick(c, n),
    }
}

// Whether an ask leaves a connection as it is and gives nothing, as its record shows at a glance: it waits for a reply, or is in a state that
// asks nothing. State by state, since a wrong client changes one.
#[tactic(auto, using(crate::proofs::RestingTurns::asks_never, crate::proofs::RestingTurns::asks_by))]
fn nothing_to_ask(c: SdoClientConnection) -> bool
    ensures { result ≡ nothing_to_ask c }
{
    if c.waiting.last_sent_command.is_some() {
        return true;
    }
    match c.state {
        SdoClientConnectionState::Idle => true,
        SdoClientConnectionState::Opening => false,
        SdoClientConnectionState::Established => false,
        SdoClientConnectionState::UploadInit => true,
        SdoClientConnectionState::UploadInProgress => false,
        SdoClientConnectionState::DownloadInProgress => false,
        SdoClientConnectionState::Closed => true,
    }
}

// The same of a tick: there is no deadline, or it has not come.
#[tactic(auto, unfolding(crate::specs::Resting::nothing_due))]
fn nothing_due(c: SdoClientConnection, n: Now) -> bool
    ensures { result ≡ nothing_due c n }
{
    match c.waiting.deadline {
        None => true,
        Some(d) => n.time < d,
    }
}

// Whether a connection rests at a turn: most do at most turns.
fn rests(t: Turn, c: SdoClientConnection, n: Now) -> bool
    ensures { result ≡ rests_of t c n }
{
    match t {
        Turn::Asking => nothing_to_ask(c),
        Turn::Ticking => nothing_due(c, n),
    }
}

// The place of the first that does not rest.
pub fn due(m: SdoClientManager, t: Turn, when: Now) -> Option<usize>
    ensures { result ≡ due_in t «when» (live m) }
{
    m.held().iter().position(|c| !rests(t, *c, when))
}

// The manager after the walk, and where it was left. A refusal on the way leaves the manager as it was.
pub fn walk(m: SdoClientManager, t: Turn, n: Now) -> Walk
    ensures { result ≡ walk_of m t n }
{
    let mut after = m;
    let held = lived(m);
    for i in 0..held {
        if rests(t, after.connections[i], n) {
            continue;
        }
        match at_turn(t, after.connections[i], n) {
            Ok(s) => {
                after.connections[i] = s.connection;
                if let Some(o) = s.sends {
                    return Walk {
                        manager: after,
                        walked: Walked::Stopped(i, o),
                    };
                }
            }
            Err(r) => {
                return Walk {
                    manager: m,
                    walked: Walked::Refused(r),
                };
            }
        }
    }
    Walk {
        manager: after,
        walked: Walked::Through,
    }
}
