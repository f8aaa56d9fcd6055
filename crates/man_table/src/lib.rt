// The manager's table (document 01, "Which shape goes where"): eight connections in a value, which of them are held and where, the walk of
// tick and ask over them, and the sweep that removes those that ended. The calls are in the crate manager.
#![tactic(auto)]

pub mod held;
pub mod sweep;
pub mod types;
pub mod walk;
