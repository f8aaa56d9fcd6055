// The sweep after a call: ended connections are removed, and their ends reported.
ghost use Rattle.std.specs.Prelude.{◌≡◌};
ghost use Rattle.man_table.specs.Sweep.{any_end, running, ends_in, ends_of};
ghost use Rattle.man_table.specs.Table.{live, table_of};

use crate::types::{Ends, SdoClientManager, blank, no_ends};

// Whether a connection held has ended.
pub fn any_end(m: SdoClientManager) -> bool
    ensures { result ≡ any_end (live m) }
{
    m.held().iter().any(|c| c.end().is_some())
}

// The manager without the connections that ended.
pub fn swept(m: SdoClientManager) -> SdoClientManager
    ensures { result ≡ table_of (running (live m)) m.next_transaction_id }
{
    let mut out = [blank(); 8];
    let mut k = 0;
    for c in m.held() {
        if c.end().is_some() {
            continue;
        }
        out[k] = *c;
        k += 1;
    }
    SdoClientManager {
        connections: out,
        count: k,
        next_transaction_id: m.next_transaction_id,
    }
}

// The ends of the connections that ended.
pub fn ends_of(m: SdoClientManager) -> Ends
    ensures { result ≡ ends_of (ends_in (live m)) }
{
    let mut ends = no_ends();
    for c in m.held() {
        let Some(e) = c.end() else {
            continue;
        };
        ends.list[ends.count] = e;
        ends.count += 1;
    }
    ends
}
