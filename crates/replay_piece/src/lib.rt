// A piece of a trace, replayed (document 01, "Replay"): its records applied one after another to a manager and its store, and their lines or values, on slices
// and values. Reading the pieces and writing the text are the caller's.
#![tactic(auto)]

pub mod replay;
pub mod types;
