// The command: its numbers, its header with named flags, and reading and writing it (document 01, "Bytes"). The names are those of the
// repository's command/base.rs. A command's payload stays where it is, a part of the caller's bytes.
ghost use Rattle.std.specs.Prelude.{◌≡◌, ◌<◌, ◌≤◌, length};
ghost use Rattle.std.specs.Option.{ok_or};
ghost use Rattle.codec.specs.Bytes.{placed};
ghost use Rattle.codec.specs.Command.{
  command_number,
  command_of,
  command_at,
  segmentation_of,
  segmentation_number,
  flag_bit,
  flags_of,
  header_at,
  head_length,
  data_size_at,
  command_read,
  fixed_head,
  size_octets,
  command_head,
  command_bytes,
};
ghost use Rattle.codec.specs.Writing.{written, buffer_after};

use crate::octets::{le16_at, le32_at, octets32, put_bytes};
use crate::refusal::Refusal;

// Each command has its number.
#[derive(Clone, Copy, PartialEq, Eq)]
pub enum CommandId {
    Nil = 0x00,
    WriteByIndex = 0x01,
    ReadByIndex = 0x02,
    WriteAllByIndex = 0x03,
    ReadAllByIndex = 0x04,
    WriteByName = 0x05,
    ReadByName = 0x06,
    FileWrite = 0x20,
    FileRead = 0x21,
    WriteMultipleParamByIndex = 0x31,
    ReadMultipleParamByIndex = 0x32,
    Abort = 0x40,
    MaxSegmentSize = 0x70,
}

#[derive(Clone, Copy, PartialEq, Eq)]
pub enum Segmentation {
    Expedited = 0,
    Initiate = 1,
    Segment = 2,
    Complete = 3,
}

#[derive(Clone, Copy, PartialEq, Eq)]
pub struct CommandLayerHeader {
    pub transaction_id: u8,
    pub is_response: bool,
    pub is_aborted: bool,
    pub segmentation: Segmentation,
    pub command_id: CommandId,
    pub segment_size: u16,
}

// A command but for its payload, which stands beside it.
#[derive(Clone, Copy, PartialEq, Eq)]
pub struct SdoCommand {
    pub header: CommandLayerHeader,
    pub data_size: Option<u32>,
}

// A command that was read: the command, and the place and length of its payload in the bytes it was read from.
#[derive(Clone, Copy, PartialEq, Eq)]
pub struct FoundCommand {
    pub command: SdoCommand,
    pub start: usize,
    pub len: usize,
}

// The table of command numbers, for the listing alone.
const COMMAND_NUMBERS: [u8; 13] = [
    0x00, 0x01, 0x02, 0x03, 0x04, 0x05, 0x06, 0x20, 0x21, 0x31, 0x32, 0x40, 0x70,
];

// The listing: places 0 to 12 give their number, others none.
#[tactic(auto, using(crate::proofs::Commands::listed))]
pub fn command_at(place: usize) -> Option<u8>
    ensures { result ≡ command_at place }
{
    COMMAND_NUMBERS.get(place).copied()
}

// Nil, and the commands by index and by name: the numbers 0x00 to 0x06.
fn by_index_or_name(number: u8) -> CommandId
    requires { number ≤ 0x06 }
    ensures { Some result ≡ command_of number }
{
    match number {
        0x00 => CommandId::Nil,
        0x01 => CommandId::WriteByIndex,
        0x02 => CommandId::ReadByIndex,
        0x03 => CommandId::WriteAllByIndex,
        0x04 => CommandId::ReadAllByIndex,
        0x05 => CommandId::WriteByName,
        _ => CommandId::ReadByName,
    }
}

// The decoder: the command that a number names, or 2. It compares ranges and reads no table, since a small panel is short of constant data; of an arm
// for each number the compiler would make a jump table.
impl TryFrom<u8> for CommandId {
    ghost use Rattle.codec.specs.declared.refusal.Refusal.{Refusal};

    type Error = Refusal;

    ghost try_from_gives = { λ number result. result ≡ ok_or (command_of number) Refusal.InvalidEnumValue };

    fn try_from(number: u8) -> Result<CommandId, Refusal> {
        match number {
            0x00..=0x06 => Ok(by_index_or_name(number)),
            0x20..=0x21 => {
                if number == 0x20 {
                    Ok(CommandId::FileWrite)
                } else {
                    Ok(CommandId::FileRead)
                }
            }
            0x31..=0x32 => {
                if number == 0x31 {
                    Ok(CommandId::WriteMultipleParamByIndex)
                } else {
                    Ok(CommandId::ReadMultipleParamByIndex)
                }
            }
            0x40 => Ok(CommandId::Abort),
            0x70 => Ok(CommandId::MaxSegmentSize),
            _ => Err(Refusal::InvalidEnumValue),
        }
    }
}

// The number of a command.
impl From<CommandId> for u8 {
    ghost from_gives = { λ id number. number ≡ command_number id };

    fn from(id: CommandId) -> u8 {
        id as u8
    }
}

// The segmentation of a number below 4; of any other, Complete.
#[tactic(auto, unfolding(laws::specs::Pick::among, laws::specs::Pick::pick))]
impl From<u8> for Segmentation {
    ghost from_gives = { λ n s. s ≡ segmentation_of n };

    fn from(n: u8) -> Segmentation {
        match n {
            0 => Segmentation::Expedited,
            1 => Segmentation::Initiate,
            2 => Segmentation::Segment,
            _ => Segmentation::Complete,
        }
    }
}

// The number of a segmentation.
impl From<Segmentation> for u8 {
    ghost from_gives = { λ s n. (n ≡ segmentation_number s) × (n < 4) };

    fn from(s: Segmentation) -> u8 {
        s as u8
    }
}

// The bytes before the payload: 12 with Initiate, else 8.
fn head_len(s: Segmentation) -> usize
    ensures { (result ≡ head_length s) × (8 ≤ result) × (result ≤ 12) }
{
    match s {
        Segmentation::Initiate => 12,
        _ => 8,
    }
}

// The header in the first eight bytes, whose command number was decoded.
fn header_at(buffer: &[u8], command_id: CommandId) -> CommandLayerHeader
    requires { 8 ≤ length buffer.now }
    ensures { result ≡ header_at buffer.now command_id }
{
    let flags = buffer[2];
    CommandLayerHeader {
        transaction_id: buffer[1],
        is_response: flags / 16 % 2 == 1,
        is_aborted: flags / 32 % 2 == 1,
        segmentation: Segmentation::from(flags / 64),
        command_id,
        segment_size: le16_at(buffer, 4),
    }
}

// The data size that follows an Initiate's header.
fn data_size_at(buffer: &[u8], s: Segmentation) -> Option<u32>
    requires { head_length s ≤ length buffer.now }
    ensures { result ≡ data_size_at buffer.now s }
{
    match s {
        Segmentation::Initiate => Some(le32_at(buffer, 8)),
        _ => None,
    }
}

// A named flag's bit, where the flag is set.
fn flag(on: bool, bit: u8) -> u8
    ensures { (result ≡ flag_bit on bit) × (result ≤ bit) }
{
    if on { bit } else { 0 }
}

// The flags' byte: the one place that says which bit is which when written.
fn flags_of(h: CommandLayerHeader) -> u8
    ensures { result ≡ flags_of h }
{
    let segmentation = h.segmentation;
    flag(h.is_response, 0x10) + flag(h.is_aborted, 0x20) + u8::from(segmentation) * 64
}

// The eight bytes that every command begins with.
fn fixed_octets(h: CommandLayerHeader) -> [u8; 8]
    ensures { result ≡ fixed_head h }
{
    let [low, high] = h.segment_size.to_le_bytes();
    [
        0,
        h.transaction_id,
        flags_of(h),
        u8::from(h.command_id),
        low,
        high,
        0,
        0,
    ]
}

// The four bytes of a data size; an absent one is written as 0.
fn size_octets(d: Option<u32>) -> [u8; 4]
    ensures { result ≡ size_octets d }
{
    octets32(d.unwrap_or(0))
}

// Writes all of a command but its payload to the start of the buffer.
fn put_head(c: SdoCommand, buffer: &mut [u8])
    requires { length (command_head c) ≤ length buffer.old }
    ensures { buffer.new ≡ placed buffer.old 0 (command_head c) }
{
    let header = c.header;
    let data_size = c.data_size;
    let segmentation = header.segmentation;
    let fixed = fixed_octets(header);
    put_bytes(buffer, 0, &fixed);
    if segmentation == Segmentation::Initiate {
        let size = size_octets(data_size);
        put_bytes(buffer, 8, &size);
    }
}

impl SdoCommand {
    // The command at the start of the buffer, with the place and length of its payload there. Checked in this order: 8 bytes (1), the
    // command number (2), 12 bytes if Initiate (1), the payload (1). Reserved bits and trailing bytes are not looked at.
    pub fn deserialize(buffer: &[u8]) -> Result<FoundCommand, Refusal>
        ensures { result ≡ command_read buffer.now }
    {
        if buffer.len() < 8 {
            return Err(Refusal::BufferTooShort);
        }
        let command_id = CommandId::try_from(buffer[3])?;
        let header = header_at(buffer, command_id);
        let segmentation = header.segmentation;
        let start = head_len(segmentation);
        // Two tests and not one with `||`, of which the compiler makes the decoder 200 bytes longer.
        if buffer.len() < start {
            return Err(Refusal::BufferTooShort);
        }
        let len = header.segment_size as usize;
        if buffer.len() - start < len {
            return Err(Refusal::BufferTooShort);
        }
        let data_size = data_size_at(buffer, segmentation);
        Ok(FoundCommand {
            command: SdoCommand { header, data_size },
            start,
            len,
        })
    }

    // Writes the command with its payload to the start of the buffer, the segment size as given and an absent data size as 0, and
    // leaves the rest of the buffer as it was; 1, and nothing is written, where it does not fit.
    pub fn serialize(self, payload: &[u8], buffer: &mut [u8]) -> Result<usize, Refusal>
        ensures value { result ≡ written (command_bytes self payload.now) buffer.old }
        ensures buffer_after { buffer.new ≡ buffer_after (command_bytes self payload.now) buffer.old }
    {
        let header = self.header;
        let segmentation = header.segmentation;
        let start = head_len(segmentation);
        if buffer.len() < start || buffer.len() - start < payload.len() {
            return Err(Refusal::BufferTooShort);
        }
        put_head(self, buffer);
        put_bytes(buffer, start, payload);
        Ok(start + payload.len())
    }
}
