// The replay's lines (document 01, "Replay"): what a record came to, written as text; and those of values (document 02, CR 1). A line is refused
// where 8,211 bytes are not free for it, and then not one byte is written.
#![tactic(auto)]

pub mod line;
pub(crate) mod text;
pub mod value;
