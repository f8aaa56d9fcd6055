// One node's connection (document 01, "The connection"): the state machine that decides what is sent and when a job is done. A
// connection is plain data by value. Asking and ticking decide on the record alone, and answer which command goes out, with its
// place; the bytes of a job lie in a room that the caller lends, and are touched by start, by reply (in con_reply) and by write_payload
// (in con_rec) only.
#![tactic(auto, unfolding(laws::specs::Pick::pick))]

pub mod ask;
pub mod start;
pub mod tick;
