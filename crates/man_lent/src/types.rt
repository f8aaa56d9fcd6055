// What a call tells its host, who keeps the manager.
use man_table::types::Ends;
use manager::types::Answer;

// The answer of a call, and the ends that it reports.
#[derive(Clone, Copy)]
pub struct Told {
    pub answer: Answer,
    pub ends: Ends,
}
