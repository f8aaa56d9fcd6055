// The parts that a transfer is sent in: the one place that cuts it, at 1452 bytes and by the limit of its mode.
ghost use Rattle.std.specs.Prelude.{◌≡◌, ◌-◌, ◌<◌, ◌≤◌};
ghost use Rattle.con_rec.specs.Parts.{limit, goes_expedited, total, part_length, first_kind, first_size, later_kind};

use crate::Mode;
use codec::command::Segmentation;
use codec::dcf::Transfer;

const MAX_CLIENT_PAYLOAD: u64 = 1452;

const MAX_EXPEDITED_TOTAL: u64 = 1456;

impl Mode {
    // The largest total that goes Expedited.
    fn limit(self) -> u64
        ensures { result ≡ limit self }
    {
        match self {
            Mode::Repository => MAX_EXPEDITED_TOTAL,
            Mode::Published => MAX_CLIENT_PAYLOAD,
        }
    }
}

// The bytes of a transfer as it is sent.
pub fn total(t: Transfer) -> u64
    ensures { (result ≡ total t) × (4 ≤ result) × (result < 4294967300) }
{
    4 + t.len as u64
}

// What remains of a total after so many bytes were sent.
pub fn rest_of(all: u64, sent: u64) -> u64
    ensures { result ≡ all - sent }
{
    all.saturating_sub(sent)
}

// The length of the next part.
pub fn part_length(rest: u64) -> u16
    ensures { (result ≡ part_length rest) × (result ≤ 1452) × (result ≤ rest) }
{
    rest.min(MAX_CLIENT_PAYLOAD) as u16
}

// Whether a total goes out by an Expedited and not by an Initiate.
fn goes_expedited(mode: Mode, n: u64) -> bool
    ensures { result ≡ goes_expedited mode n }
{
    n <= mode.limit()
}

// The kind of the first part of a total.
pub(crate) fn first_kind(mode: Mode, n: u64) -> Segmentation
    ensures { result ≡ first_kind mode n }
{
    if goes_expedited(mode, n) {
        Segmentation::Expedited
    } else {
        Segmentation::Initiate
    }
}

// The data size that goes with the first part of a transfer.
pub(crate) fn first_size(mode: Mode, t: Transfer) -> Option<u32>
    ensures { result ≡ first_size mode (total t) }
{
    if goes_expedited(mode, total(t)) {
        None
    } else {
        Some(t.len)
    }
}

// The kind of a later part, by what remains.
pub(crate) fn later_kind(rest: u64) -> Segmentation
    ensures { result ≡ later_kind rest }
{
    if rest <= MAX_CLIENT_PAYLOAD {
        Segmentation::Complete
    } else {
        Segmentation::Segment
    }
}
