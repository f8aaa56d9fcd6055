// Tick and ask: the walk, the payload at the start of the output, and the ended connections removed.
ghost use Rattle.std.specs.Prelude.{◌≡◌};
ghost use Rattle.manager.specs.Calls.{sent_to, called, turns};
ghost use Rattle.manager.specs.Change.{refusing as refusing_of};

use crate::change::leaving;
use crate::room::room_in;
use crate::types::{Answer, Done, OUTPUT_SIZE, SentTo};
use codec::refusal::Refusal;
use con_rec::payload::write_payload;
use con_rec::{Now, Outgoing, SdoClientConnection};
use man_table::held::held_at;
use man_table::types::{STORE_SIZE, SdoClientManager, Turn, Walked, no_ends};
use man_table::walk::walk;

// A call that refuses.
fn refusing(m: SdoClientManager, r: Refusal) -> Done
    ensures { result ≡ refusing_of m r }
{
    Done {
        manager: m,
        answer: Answer::Refused(r),
        ends: no_ends(),
    }
}

pub(crate) fn sent_to(c: SdoClientConnection, o: Outgoing) -> Answer
    ensures { result ≡ sent_to c o }
{
    Answer::Sent(SentTo {
        node: c.target_node_id,
        sequence: o.sequence(),
        command: o.command(),
    })
}

// Ask or tick, by which turn it is.
pub(crate) fn take_turn(
    t: Turn,
    m: SdoClientManager,
    n: Now,
    store: &[u8],
    output: &mut [u8],
) -> Done
    ensures value { result ≡ (called m store.now output.old (turns t n)).done }
    ensures output_after { output.new ≡ (called m store.now output.old (turns t n)).output }
{
    let Some(store) = store.as_array() else {
        return refusing(m, Refusal::WrongStore);
    };
    if output.len() < OUTPUT_SIZE {
        return refusing(m, Refusal::BufferTooShort);
    }
    let w = walk(m, t, n);
    let after = w.manager;
    match w.walked {
        Walked::Refused(r) => refusing(m, r),
        Walked::Through => leaving(after, Answer::Nothing),
        Walked::Stopped(k, o) => {
            let c = held_at(after, k);
            let _ = write_payload(o, room_in(store, c), output);
            leaving(after, sent_to(c, o))
        }
    }
}

// What is to be sent next, to whom, its payload at the start of the output; and the jobs that are done. Call it when a frame can go
// out. 9 for a store that isn't 32,768 bytes, 1 for an output under 1,452, 8 where a deadline on the walk does not fit; then nothing
// has happened.
pub fn get_pending_request(m: SdoClientManager, when: Now, store: &[u8], output: &mut [u8]) -> Done
    ensures value { result ≡ (called m store.now output.old (turns Turn.Asking «when»)).done }
    ensures output_after { output.new ≡ (called m store.now output.old (turns Turn.Asking «when»)).output }
{
    take_turn(Turn::Asking, m, when, store, output)
}

// What the deadlines that have passed bring about: a repeat or an abort to send, and ends. Call it when next_action_time has come.
// Refusals as of get_pending_request.
pub fn tick(m: SdoClientManager, when: Now, store: &[u8], output: &mut [u8]) -> Done
    ensures value { result ≡ (called m store.now output.old (turns Turn.Ticking «when»)).done }
    ensures output_after { output.new ≡ (called m store.now output.old (turns Turn.Ticking «when»)).output }
{
    take_turn(Turn::Ticking, m, when, store, output)
}
