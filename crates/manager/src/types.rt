// The answers of the manager's calls, and what a call changes.
use codec::command::SdoCommand;
use codec::refusal::Refusal;
use codec::sequence::SequenceLayerHeader;
use con_rec::Now;
use man_table::types::{Ends, Entry, SdoClientManager, Turn};
use man_value::StorePart;

// The least output that a tick or an ask is lent: the longest payload.
pub const OUTPUT_SIZE: usize = 1452;

// A command that goes out: its payload is at the start of the output, as long as the segment size says.
#[derive(Clone, Copy)]
pub struct SentTo {
    pub node: u8,
    pub sequence: SequenceLayerHeader,
    pub command: SdoCommand,
}

// What a call answers: nothing; a command that goes out; the part of the store with what a read brought, where a reply ended it Complete; or a refusal.
#[derive(Clone, Copy)]
pub enum Answer {
    Nothing,
    Sent(SentTo),
    Value(StorePart),
    Refused(Refusal),
}

// What a call comes to: the manager after it, its answer, and the ends.
#[derive(Clone, Copy)]
pub struct Done {
    pub manager: SdoClientManager,
    pub answer: Answer,
    pub ends: Ends,
}

// What a call changes, where it changes one connection at most: so the manager need not be copied. A start takes the next transaction number;
// a tick, an ask and a reply remove the connections that have ended.
#[derive(Clone, Copy)]
pub struct Change {
    pub entry: Entry,
    pub numbers: bool,
    pub sweeps: bool,
    pub answer: Answer,
}

// How a call is carried out: by a change; or by the walk of a tick or an ask, where several connections may change.
#[derive(Clone, Copy)]
pub enum Plan {
    Change(Change),
    Walk(Turn, Now),
}
