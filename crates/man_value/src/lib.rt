// Values (document 02, CR 1): the part of the store with what a read brought, that part handed out, and the object that a node's job reads. What a reply
// answers is in the crate manager. Every function is total on any manager, any connection and any store.
#![tactic(auto)]

ghost use Rattle.std.specs.Prelude.{◌≡◌, ◌≤◌};
ghost use Rattle.man_table.specs.Table.{room_start};
ghost use Rattle.man_value.specs.Value.{uploaded_part, is_complete, object_of, value_in};

use codec::octets::part;
use codec::request::ReadByIndexRequest;
use con_rec::{Reason, SdoClientConnection};
use man_table::held::{connection_at, find};
use man_table::types::{LAST_ROOM, SdoClientManager};

// A part of the store: where it starts and how many bytes it has.
#[derive(Clone, Copy)]
pub struct StorePart {
    pub start: usize,
    pub length: usize,
}

// Where a connection's room starts, within the store whatever the record says.
pub fn room_start(c: SdoClientConnection) -> usize
    ensures value { result ≡ room_start c }
    ensures within { result ≤ 28672 }
{
    c.room.min(LAST_ROOM)
}

// What an upload has brought lies at the start of its room.
pub fn uploaded_part(c: SdoClientConnection) -> StorePart
    ensures { result ≡ uploaded_part c }
{
    StorePart {
        start: room_start(c),
        length: c.job.uploaded,
    }
}

// Whether a job ended Complete.
pub fn is_complete(why: Reason) -> bool
    ensures { result ≡ is_complete why }
{
    matches!(why, Reason::Complete)
}

// The object that a node's job reads, for whoever has not kept it. Call it before the reply that ends the job, since that reply removes the connection.
// None for a node that is not held, and for one whose job reads nothing.
pub fn object_of(m: SdoClientManager, node: u8) -> Option<ReadByIndexRequest>
    ensures { result ≡ object_of m node }
{
    let k = find(m, node)?;
    connection_at(m, k).job.pending_read
}

// Hands out the part of the store that a reply answered. Call it before the next start, reply, tick or ask: they may use its bytes again. It refuses
// nothing; a part that does not lie within the store comes back empty.
pub fn value_in(store: &[u8], at: StorePart) -> &[u8]
    ensures { result.now ≡ value_in store.now at }
{
    part(store, at.start, at.length)
}
