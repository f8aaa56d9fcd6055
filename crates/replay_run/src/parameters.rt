// What a run goes by: what it writes of each record, the mode of its starts, timeout and retries, and whether the manager's state follows each line.
use con_rec::Mode;
use console::read_full;
use replay_piece::types::{Settings, Shows};
use replay_record::plan::Choices;
use std::io::Read;

#[derive(Clone, Copy)]
pub struct Parameters {
    pub settings: Settings,
    pub states: bool,
}

// Those of the replay and of values: repository mode, timeout and retries absent, no states.
pub(crate) fn plain(shows: Shows) -> Parameters {
    Parameters {
        settings: Settings {
            shows,
            choices: Choices {
                mode: Mode::Repository,
                timeout: None,
                retries: None,
            },
        },
        states: false,
    }
}

// A parameter with its number of four bytes, low byte first; none where the byte ahead of these is 0.
fn parameter(present: u8, number: [u8; 4]) -> Option<u32> {
    (present != 0).then_some(u32::from_le_bytes(number))
}

// What the byte of modes says: 0 repository mode, 1 published mode. Its other bits have no meaning yet.
fn modes_of(modes: u8) -> Option<Mode> {
    match modes {
        0 => Some(Mode::Repository),
        1 => Some(Mode::Published),
        _ => None,
    }
}

// Those at the head of a comparison's input, in eleven bytes: timeout present, timeout, retries present, retries, numbers of four bytes, low first;
// and the modes. A byte that is not there counts as 0.
pub(crate) fn read_parameters(from: &mut impl Read) -> Option<Parameters> {
    let mut head = [0u8; 11];
    read_full(from, &mut head);
    let timeout = parameter(head[0], [head[1], head[2], head[3], head[4]]);
    let retries = parameter(head[5], [head[6], head[7], head[8], head[9]]);
    let mode = modes_of(head[10])?;
    Some(Parameters {
        settings: Settings {
            shows: Shows::Lines,
            choices: Choices {
                mode,
                timeout,
                retries,
            },
        },
        states: true,
    })
}
