// The manager of eight (document 01, "The manager"): the interface that the panel calls, start, turn, reply and next. A manager is plain data by value;
// the bytes of its jobs lie in a store of 32,768 bytes that the caller lends, a room of 4,096 for each connection held. Every function is total on
// any manager and any slices.
#![tactic(auto)]

pub mod change;
pub mod change_reply;
pub mod change_start;
pub(crate) mod enter;
pub mod next;
pub mod plan;
pub mod reply;
pub(crate) mod room;
pub mod start;
pub mod turn;
pub mod types;
pub(crate) mod value;
