// A record of 32 bytes: operation, node, index, sub-index, length, time, flags of a reply, one unused, data; numbers low byte first.
ghost use Rattle.std.specs.Prelude.{◌≡◌, ◌≤◌, length};
ghost use Rattle.replay_record.specs.Record.{le64_at, numbered, operation_of, record_at, record_read};

use codec::refusal::Refusal;
use man_table::types::Turn;

// The bytes of a record, and the most of its own data.
pub const RECORD_SIZE: usize = 32;

pub const MOST_DATA: u8 = 16;

// Operations 1, 3 and 4: they use what was gathered plus their own data.
#[derive(Clone, Copy)]
pub enum Use {
    Write,
    Dcf,
    Reply,
}

#[derive(Clone, Copy)]
pub enum Operation {
    Uses(Use),
    Read,
    Turns(Turn),
    Gather,
}

// In a reply, index is the sequence octets 0 and 1. The data are the length bytes from the 16th on.
#[derive(Clone, Copy)]
pub struct Record {
    pub operation: Operation,
    pub node: u8,
    pub index: u16,
    pub sub_index: u8,
    pub length: u8,
    pub time: u64,
    pub flags: u8,
}

// The operation of a number, 1 to 7.
impl TryFrom<u8> for Operation {
    type Error = Refusal;

    ghost try_from_gives = { λ n r. r ≡ numbered (operation_of n) };

    #[tactic(auto, unfolding(crate::specs::Record::operation_of, laws::specs::Pick::pick))]
    fn try_from(n: u8) -> Result<Operation, Refusal> {
        match n {
            1 => Ok(Operation::Uses(Use::Write)),
            2 => Ok(Operation::Read),
            3 => Ok(Operation::Uses(Use::Dcf)),
            4 => Ok(Operation::Uses(Use::Reply)),
            5 => Ok(Operation::Turns(Turn::Ticking)),
            6 => Ok(Operation::Turns(Turn::Asking)),
            7 => Ok(Operation::Gather),
            _ => Err(Refusal::BadRecord),
        }
    }
}

// The eight bytes of the time.
fn time_at(b: &[u8]) -> u64
    requires { 32 ≤ length b.now }
    ensures { result ≡ le64_at b.now 6 }
{
    u64::from_le_bytes([b[6], b[7], b[8], b[9], b[10], b[11], b[12], b[13]])
}

fn record_at(b: &[u8], operation: Operation) -> Record
    requires { 32 ≤ length b.now }
    ensures { result ≡ record_at b.now operation }
{
    Record {
        operation,
        node: b[1],
        index: u16::from_le_bytes([b[2], b[3]]),
        sub_index: b[4],
        length: b[5],
        time: time_at(b),
        flags: b[14],
    }
}

// The record in the first 32 bytes: 11 where there are fewer, 10 where the operation is not 1 to 7 or the length over 16.
pub fn read_record(b: &[u8]) -> Result<Record, Refusal>
    ensures { result ≡ record_read b.now }
{
    if b.len() < RECORD_SIZE {
        return Err(Refusal::ShortRecord);
    }
    let operation = Operation::try_from(b[0])?;
    if MOST_DATA < b[5] {
        return Err(Refusal::BadRecord);
    }
    Ok(record_at(b, operation))
}
