// What a replay goes by, and how far it is.
use man_table::types::SdoClientManager;
use man_value::StorePart;
use replay_record::plan::Choices;

// What is written of a record: the replay's line; or the line of its value, where it ended a read Complete.
#[derive(Clone, Copy)]
pub enum Shows {
    Lines,
    Values,
}

#[derive(Clone, Copy)]
pub struct Settings {
    pub shows: Shows,
    pub choices: Choices,
}

// A value that a record was answered: the record's number, and the part of the store.
#[derive(Clone, Copy)]
pub struct LastValue {
    pub record: u16,
    pub at: StorePart,
}

// The bytes gathered; the number of the last record, the bytes read of the piece, the text so far; and the last value, if there was one.
#[derive(Clone, Copy)]
pub struct Progress {
    pub gathered: usize,
    pub number: u16,
    pub read: usize,
    pub text: usize,
    pub value: Option<LastValue>,
}

#[derive(Clone, Copy)]
pub struct Run {
    pub manager: SdoClientManager,
    pub progress: Progress,
}
