// The replay's records (document 01, "Replay"), on slices and values: a record is read and gathered, and planned, so that a loop can carry it out where
// the manager is. Every function is total: a bad record gets its number, and nothing else happens. The crate replay_piece carries records out one after
// another; the lines are in the crate replay_line.
#![tactic(auto)]

pub mod gather;
pub mod plan;
pub mod record;
