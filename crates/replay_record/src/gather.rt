// Gather: bytes are collected for the record that uses them, at the start of a lent buffer of 4,112 bytes: 4,096 for gather, and 16 for the
// data of that record.
ghost use Rattle.std.specs.Prelude.{◌≡◌, ◌≤◌, length};
ghost use Rattle.replay_record.specs.Gather.{gathered_with, more_gathered};

use codec::octets::put;
use codec::refusal::Refusal;
use manager::types::Answer;

// The most bytes that gather collects, and the buffer for these and a record's own 16.
pub const MOST_GATHERED: usize = 4096;

pub const GATHER_SIZE: usize = 4112;

// What a gather came to: its answer, and how many bytes are gathered after it.
#[derive(Clone, Copy)]
pub struct Gathered {
    pub answer: Answer,
    pub gathered: usize,
}

// Gathers, where it does not go past 4,096 bytes.
pub(crate) fn gather_more(already: usize, own: &[u8], gather: &mut [u8]) -> Gathered
    requires { (already ≤ 4096) × (length own.now ≤ 16) × (4112 ≤ length gather.old) }
    ensures value { result ≡ gathered_with already (length own.now) }
    ensures gather_after { gather.new ≡ more_gathered gather.old already own.now }
{
    if MOST_GATHERED < already + own.len() {
        return Gathered {
            answer: Answer::Refused(Refusal::NoRoom),
            gathered: already,
        };
    }
    let _ = put(gather, already, own);
    Gathered {
        answer: Answer::Nothing,
        gathered: already + own.len(),
    }
}
