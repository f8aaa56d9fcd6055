// The command, read and written by numbers.
ghost use Rattle.std.specs.Prelude.{◌≡◌};
ghost use Rattle.codec.specs.Command.{command_at, command_read};
ghost use Rattle.ostelumiv.specs.Command.{
  command_fields,
  listed_fields,
  number_of,
  flagged,
  size_present,
  size_number,
  size_named,
  command_named,
  command_write_fields,
  command_write_buffer,
};

use crate::answers::{WrittenFields, written_fields};
use codec::command::{CommandId, CommandLayerHeader, SdoCommand, Segmentation, command_at};
use codec::refusal::Refusal;

#[repr(C)]
#[derive(Clone, Copy, Default)]
pub struct CommandFields {
    pub refusal: u8,
    pub transaction_id: u8,
    pub is_response: u8,
    pub is_aborted: u8,
    pub segmentation: u8,
    pub command_id: u8,
    pub segment_size: u16,
    pub has_data_size: u8,
    pub data_size: u32,
    pub payload_start: usize,
    pub payload_len: usize,
}

// A place of the listing: 1 and its number, or 0 and 0.
#[repr(C)]
#[derive(Clone, Copy, Default)]
pub struct ListedFields {
    pub listed: u8,
    pub number: u8,
}

#[tactic(auto, using(laws::proofs::Picks::is, laws::proofs::Picks::is_not))]
fn size_named(has: u8, size: u32) -> Option<u32>
    ensures { result ≡ size_named has size }
{
    if has == 0 { None } else { Some(size) }
}

// The command that eight numbers name, or 2.
#[tactic(auto, using(laws::proofs::Picks::below, laws::proofs::Picks::not_below))]
fn command_named(
    transaction: u8,
    response: u8,
    aborted: u8,
    segmentation: u8,
    number: u8,
    segment: u16,
    has: u8,
    size: u32,
) -> Result<SdoCommand, Refusal>
    ensures { result ≡ command_named transaction response aborted segmentation number segment has size }
{
    if 3 < segmentation {
        return Err(Refusal::InvalidEnumValue);
    }
    let command_id = CommandId::try_from(number)?;
    Ok(SdoCommand {
        header: CommandLayerHeader {
            transaction_id: transaction,
            is_response: response != 0,
            is_aborted: aborted != 0,
            segmentation: Segmentation::from(segmentation),
            command_id,
            segment_size: segment,
        },
        data_size: size_named(has, size),
    })
}

// The command at the start of the buffer, and the place and length of its payload there.
#[tactic(auto, using(crate::proofs::Headers::has_header))]
#[unsafe(no_mangle)]
pub extern "C" fn ostelumiv_command_read(buffer: &[u8]) -> CommandFields
    ensures { result ≡ command_fields (command_read buffer.now) }
{
    match SdoCommand::deserialize(buffer) {
        Ok(found) => {
            let header = found.command.header;
            let data_size = found.command.data_size;
            CommandFields {
                refusal: 0,
                transaction_id: header.transaction_id,
                is_response: u8::from(header.is_response),
                is_aborted: u8::from(header.is_aborted),
                segmentation: u8::from(header.segmentation),
                // the number that was decoded: it need not be found again from its command
                command_id: buffer[3],
                segment_size: header.segment_size,
                has_data_size: u8::from(data_size.is_some()),
                data_size: data_size.unwrap_or(0),
                payload_start: found.start,
                payload_len: found.len,
            }
        }
        Err(r) => CommandFields {
            refusal: u8::from(r),
            ..CommandFields::default()
        },
    }
}

// Writes the command that the numbers name, and its payload, to the start of the buffer: 2 for a segmentation above 3 or an unknown
// command number, ahead of 1. Any number but 0 sets a flag; has_data_size 0 means that there is no data size.
#[unsafe(no_mangle)]
pub extern "C" fn ostelumiv_command_write(
    transaction_id: u8,
    is_response: u8,
    is_aborted: u8,
    segmentation: u8,
    command_id: u8,
    segment_size: u16,
    has_data_size: u8,
    data_size: u32,
    payload: &[u8],
    buffer: &mut [u8],
) -> WrittenFields
    ensures value { result ≡ command_write_fields (command_named transaction_id is_response is_aborted segmentation command_id segment_size has_data_size data_size) payload.now buffer.old }
    ensures buffer_after { buffer.new ≡ command_write_buffer (command_named transaction_id is_response is_aborted segmentation command_id segment_size has_data_size data_size) payload.now buffer.old }
{
    match command_named(
        transaction_id,
        is_response,
        is_aborted,
        segmentation,
        command_id,
        segment_size,
        has_data_size,
        data_size,
    ) {
        Ok(c) => written_fields(c.serialize(payload, buffer)),
        Err(r) => written_fields(Err(r)),
    }
}

// The listing of command numbers: what stands at a place.
#[unsafe(no_mangle)]
pub extern "C" fn ostelumiv_command_at(place: usize) -> ListedFields
    ensures { result ≡ listed_fields (command_at place) }
{
    match command_at(place) {
        Some(number) => ListedFields { listed: 1, number },
        None => ListedFields::default(),
    }
}
