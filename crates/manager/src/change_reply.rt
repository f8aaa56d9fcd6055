// For the replay's loop, which keeps the manager where it is; a panel uses reply. What a reply changes of the manager: its data are in the store when it
// is told.
ghost use Rattle.std.specs.Prelude.{◌≡◌};
ghost use Rattle.manager.specs.Calls.{replied_as, reply_from};

use crate::change::{putting, same};
use crate::room::reply_in;
use crate::types::{Answer, Change};
use crate::value::value_of;
use codec::command::SdoCommand;
use codec::refusal::Refusal;
use codec::sequence::SequenceLayerHeader;
use con_rec::SdoClientConnection;
use man_table::held::{connection_at, find};
use man_table::types::{Entry, SdoClientManager};

fn replied_as(a: Result<SdoClientConnection, Refusal>, place: usize) -> Change
    ensures { result ≡ replied_as a place }
{
    match a {
        Ok(c) => putting(Entry::At(place, c), value_of(c)),
        Err(r) => same(Answer::Refused(r)),
    }
}

// What a command from a node changes.
pub fn reply_change(
    m: SdoClientManager,
    source: u8,
    seq: SequenceLayerHeader,
    cmd: SdoCommand,
    payload: &[u8],
    store: &mut [u8],
) -> Change
    ensures value { result ≡ (reply_from m source seq cmd payload.now store.old).change }
    ensures store_after { store.new ≡ (reply_from m source seq cmd payload.now store.old).store }
{
    let Some(store) = store.as_mut_array() else {
        return same(Answer::Refused(Refusal::WrongStore));
    };
    let Some(k) = find(m, source) else {
        return same(Answer::Nothing);
    };
    replied_as(reply_in(connection_at(m, k), seq, cmd, payload, store), k)
}
