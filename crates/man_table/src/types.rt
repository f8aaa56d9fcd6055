// The manager's value, and what its table answers.
ghost use Rattle.std.specs.Prelude.{◌≡◌};
ghost use Rattle.man_table.specs.Table.{blank as blank_of, new_manager};
ghost use Rattle.man_table.specs.Sweep.{no_ends as no_ends_of};

use codec::refusal::Refusal;
use con_rec::{End, Outgoing, Reason, SdoClientConnection};

// The bytes that a manager's host lends for its jobs, a room for each of eight connections; and where the last room starts.
pub const STORE_SIZE: usize = 32768;

pub const ROOM_SIZE: usize = 4096;

pub const LAST_ROOM: usize = 28672;

// The first `count` connections are held, ascending by node; the rest are blank. An array and a count, as document 01 has it: the calls answer for any
// count (`live`).
#[derive(Clone, Copy)]
pub struct SdoClientManager {
    pub connections: [SdoClientConnection; 8],
    pub count: usize,
    pub next_transaction_id: u8,
}

// The ends that a call reports: the first `count`, ascending by node; any count is one, as in the manager.
#[derive(Clone, Copy)]
pub struct Ends {
    pub list: [End; 8],
    pub count: usize,
}

// A connection and where it stands in the table: at a place of those held, or in a new place by its node; or none.
#[derive(Clone, Copy)]
pub enum Entry {
    Nowhere,
    At(usize, SdoClientConnection),
    New(SdoClientConnection),
}

// Which call walks the table. A value and no closure: an event of a history holds it.
#[derive(Clone, Copy)]
pub enum Turn {
    Asking,
    Ticking,
}

// How a walk was left: at the first connection that gives a command, with the command; at the end; or refused. Three outcomes, and the manager beside
// them, so no `Result`.
#[derive(Clone, Copy)]
pub enum Walked {
    Stopped(usize, Outgoing),
    Through,
    Refused(Refusal),
}

#[derive(Clone, Copy)]
pub struct Walk {
    pub manager: SdoClientManager,
    pub walked: Walked,
}

// The connection that stands in every place past the held ones.
pub fn blank() -> SdoClientConnection
    ensures { result ≡ blank_of }
{
    SdoClientConnection::new(0, 0)
}

// No end to report.
pub fn no_ends() -> Ends
    ensures { result ≡ no_ends_of }
{
    let none = End {
        node: 0,
        reason: Reason::Complete,
        delivered: 0,
    };
    let list = [none; 8];
    Ends { list, count: 0 }
}

impl SdoClientManager {
    // A manager that holds no connection; its first transaction number will be 1.
    pub fn new() -> SdoClientManager
        ensures { result ≡ new_manager }
    {
        let b = blank();
        let connections = [b; 8];
        SdoClientManager {
            connections,
            count: 0,
            next_transaction_id: 0,
        }
    }
}
