// Reply: a command from a node's server, handed to that node's connection alone.
ghost use Rattle.std.specs.Prelude.{◌≡◌, []};
ghost use Rattle.manager.specs.Calls.{called, replies};

use crate::change::apply_change;
use crate::change_reply::reply_change;
use crate::types::Done;
use codec::command::SdoCommand;
use codec::sequence::SequenceLayerHeader;
use man_table::types::SdoClientManager;

// Takes a command from a node: its sequence header, the command and its payload. A node that is not held is ignored. Where it ends a read Complete the
// answer is the part of the store that holds the data; value_in hands it out, and it is that part until the next start, reply, tick or ask. 9 for a
// store that isn't 32,768 bytes, 7 where an upload goes past its room; then nothing has happened.
pub fn handle_response(
    m: SdoClientManager,
    source: u8,
    seq: SequenceLayerHeader,
    cmd: SdoCommand,
    payload: &[u8],
    store: &mut [u8],
) -> Done
    ensures value { result ≡ (called m store.old [] (replies source seq cmd payload.now)).done }
    ensures store_after { store.new ≡ (called m store.old [] (replies source seq cmd payload.now)).store }
{
    apply_change(m, reply_change(m, source, seq, cmd, payload, store))
}
