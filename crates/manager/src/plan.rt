// For the replay's loop, which keeps the manager where it is; a panel uses turn. The plan of a tick or an ask: mostly one connection changes, the first
// that does not rest, and the manager need not be copied. And any plan, carried out.
ghost use Rattle.std.specs.Prelude.{◌≡◌};
ghost use Rattle.manager.specs.Plan.{plan_step, turn_plan, plan_done};
ghost use Rattle.man_table.specs.Walk.{at_turn};

use crate::change::{apply_change, putting, same};
use crate::room::room_in;
use crate::turn::{sent_to, take_turn};
use crate::types::{Answer, Done, OUTPUT_SIZE, Plan};
use codec::refusal::Refusal;
use con_rec::payload::write_payload;
use con_rec::{Now, SdoClientConnection};
use man_table::held::connection_at;
use man_table::types::{Entry, STORE_SIZE, SdoClientManager, Turn};
use man_table::walk::{at_turn, due};

// What the first connection that does not rest changes, at its place.
fn plan_step(
    t: Turn,
    k: usize,
    c: SdoClientConnection,
    n: Now,
    store: &[u8; STORE_SIZE],
    output: &mut [u8],
) -> Plan
    ensures value { result ≡ (plan_step (at_turn t c n) t k n store.now output.old).plan }
    ensures output_after { output.new ≡ (plan_step (at_turn t c n) t k n store.now output.old).output }
{
    match at_turn(t, c, n) {
        Err(r) => Plan::Change(same(Answer::Refused(r))),
        Ok(s) => {
            let d = s.connection;
            let Some(o) = s.sends else {
                return Plan::Walk(t, n);
            };
            let _ = write_payload(o, room_in(store, d), output);
            Plan::Change(putting(Entry::At(k, d), sent_to(d, o)))
        }
    }
}

// What ask or tick changes, by which turn it is: the first connection that does not rest gives a command, or all rest; else the walk has to be made.
pub fn plan_turn(t: Turn, m: SdoClientManager, n: Now, store: &[u8], output: &mut [u8]) -> Plan
    ensures value { result ≡ (turn_plan t m n store.now output.old).plan }
    ensures output_after { output.new ≡ (turn_plan t m n store.now output.old).output }
{
    let Some(store) = store.as_array() else {
        return Plan::Change(same(Answer::Refused(Refusal::WrongStore)));
    };
    if output.len() < OUTPUT_SIZE {
        return Plan::Change(same(Answer::Refused(Refusal::BufferTooShort)));
    }
    match due(m, t, n) {
        None => Plan::Change(putting(Entry::Nowhere, Answer::Nothing)),
        Some(k) => plan_step(t, k, connection_at(m, k), n, store, output),
    }
}

// A plan, carried out: its change, or the walk.
pub fn carry_out(m: SdoClientManager, plan: Plan, store: &[u8], output: &mut [u8]) -> Done
    ensures value { result ≡ (plan_done plan m store.now output.old).done }
    ensures output_after { output.new ≡ (plan_done plan m store.now output.old).output }
{
    match plan {
        Plan::Change(c) => apply_change(m, c),
        Plan::Walk(t, n) => take_turn(t, m, n, store, output),
    }
}
