// Entering a connection into the table: in its place by node, or over the one that stands there.
ghost use Rattle.std.specs.Prelude.{◌≡◌, ◌<◌, ◌≤◌, length, take, set};
ghost use Rattle.man_table.specs.Table.{live, padded, table_of, insert_in};

use con_rec::SdoClientConnection;
use man_table::held::{lived, place_of};
use man_table::types::{SdoClientManager, blank};

// The first n connections held, in a table that is blank after them.
pub(crate) fn first_of(m: SdoClientManager, n: usize) -> [SdoClientConnection; 8]
    requires { n ≤ length (live m) }
    ensures { result ≡ padded (take n (live m)) }
{
    // copying those held over eight blanks was slower
    let mut out = m.connections;
    for i in n..8 {
        out[i] = blank();
    }
    out
}

// The manager with a connection more, in its place by node, and a transaction number.
pub(crate) fn insert(m: SdoClientManager, c: SdoClientConnection, number: u8) -> SdoClientManager
    requires { length (live m) < 8 }
    ensures { result ≡ table_of (insert_in c (live m)) number }
{
    let held = m.held();
    let n = held.len();
    let place = place_of(m, c.target_node_id);
    let mut out = first_of(m, place);
    out[place] = c;
    for i in place..n {
        out[i + 1] = held[i];
    }
    SdoClientManager {
        connections: out,
        count: n + 1,
        next_transaction_id: number,
    }
}

// The manager with another connection at a place of those held, blank past them, and a transaction number.
pub(crate) fn replace(
    m: SdoClientManager,
    place: usize,
    c: SdoClientConnection,
    number: u8,
) -> SdoClientManager
    ensures { result ≡ table_of (set (live m) place c) number }
{
    let n = lived(m);
    let mut out = first_of(m, n);
    if place < n {
        out[place] = c;
    }
    SdoClientManager {
        connections: out,
        count: n,
        next_transaction_id: number,
    }
}
