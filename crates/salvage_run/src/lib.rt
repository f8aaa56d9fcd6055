// Salvage from standard input to standard output (document 02, CR 3), for the programs over it. No contract can say what is read or written, so this crate
// is trusted for one thing: what it reads is passed to codec_salvage as it is, and what that answers is written, once, as it is.
#![tactic(auto)]

pub mod many;
pub mod one;
pub(crate) mod tell;
