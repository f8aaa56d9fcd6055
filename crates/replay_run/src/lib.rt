// The replay's runs from standard input to standard output, for the programs over them. No contract can say what is read or written, so this crate is
// trusted for one thing, to be a host as replay_piece's specs/Pieces has it: it begins with a new manager and zeros, reads the input in order, passes whole
// records on from where the last call stopped until all is read, and writes each text once, in order. That this prints all lines, or all values, is the law there.
#![tactic(auto)]

pub(crate) mod parameters;
pub mod replay;
pub(crate) mod state;
