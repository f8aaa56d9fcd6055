// The table: how many connections are held, where a node's is, which room is free, and whose job a start for a node
// is.
ghost use Rattle.std.specs.Prelude.{◌≡◌};
ghost use Rattle.man_table.specs.Table.{live, Lived, find_in, place_in, uses_room, free_room, connection_at, held_at, target_of};

use crate::types::{Entry, LAST_ROOM, ROOM_SIZE, SdoClientManager, blank};
use con_rec::SdoClientConnection;

impl SdoClientManager {
    // The connections held: the first `count`, of eight.
    pub fn held(&self) -> &[SdoClientConnection]
        ensures { result.now ≡ live self.now }
    {
        &self.connections[..self.count.min(8)]
    }
}

// How many connections are held: the count, and never more than eight.
pub fn lived(m: SdoClientManager) -> usize
    ensures { Lived m result }
{
    m.count.min(8)
}

// The place of a node's connection.
pub fn find(m: SdoClientManager, node: u8) -> Option<usize>
    ensures { result ≡ find_in node (live m) }
{
    m.held().iter().position(|c| c.target_node_id == node)
}

// Where a connection to a node goes: before the first whose node is larger.
pub fn place_of(m: SdoClientManager, node: u8) -> usize
    ensures { result ≡ place_in node (live m) }
{
    let held = m.held();
    held.iter()
        .position(|c| node < c.target_node_id)
        .unwrap_or(held.len())
}

// Whether a connection has the room that starts at a place of the store.
fn uses_room(held: &[SdoClientConnection], room: usize) -> bool
    ensures { result ≡ uses_room room held.now }
{
    held.iter().any(|c| c.room == room)
}

// The first of the eight rooms that no connection has.
fn free_room(held: &[SdoClientConnection]) -> usize
    ensures { result ≡ free_room held.now }
{
    for k in 0..8 {
        let room = k * ROOM_SIZE;
        if !uses_room(held, room) {
            return room;
        }
    }
    LAST_ROOM
}

// The connection at a place of the array.
pub fn connection_at(m: SdoClientManager, place: usize) -> SdoClientConnection
    ensures { result ≡ connection_at m place }
{
    m.connections.get(place).copied().unwrap_or(blank())
}

// The connection at a place of the table.
pub fn held_at(m: SdoClientManager, place: usize) -> SdoClientConnection
    ensures { result ≡ held_at m place }
{
    if place < lived(m) {
        return connection_at(m, place);
    }
    blank()
}

// Whose job a start for a node is.
pub fn target_of(m: SdoClientManager, node: u8) -> Entry
    ensures { result ≡ target_of m node }
{
    match find(m, node) {
        Some(k) => Entry::At(k, connection_at(m, k)),
        None => {
            if lived(m) == 8 {
                return Entry::Nowhere;
            }
            Entry::New(SdoClientConnection::new(node, free_room(m.held())))
        }
    }
}
