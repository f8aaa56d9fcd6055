// The sequence header, read and written by numbers.
ghost use Rattle.std.specs.Prelude.{◌≡◌};
ghost use Rattle.codec.specs.Sequence.{sequence_read};
ghost use Rattle.ostelumiv.specs.Sequence.{sequence_fields, header_named, sequence_write_fields, sequence_write_buffer};

use crate::answers::{WrittenFields, written_fields};
use codec::refusal::Refusal;
use codec::sequence::{ReceiveConnState, SendConnState, SequenceLayerHeader};

#[repr(C)]
#[derive(Clone, Copy, Default)]
pub struct SequenceFields {
    pub refusal: u8,
    pub receive_sequence_number: u8,
    pub receive_con: u8,
    pub send_sequence_number: u8,
    pub send_con: u8,
}

// The header that four numbers name, or 2.
#[tactic(auto, using(laws::proofs::Picks::below, laws::proofs::Picks::not_below))]
fn header_named(
    receive: u8,
    receive_con: u8,
    send: u8,
    send_con: u8,
) -> Result<SequenceLayerHeader, Refusal>
    ensures { result ≡ header_named receive receive_con send send_con }
{
    if 3 < receive_con {
        return Err(Refusal::InvalidEnumValue);
    }
    if 3 < send_con {
        return Err(Refusal::InvalidEnumValue);
    }
    Ok(SequenceLayerHeader {
        receive_sequence_number: receive,
        receive_con: ReceiveConnState::from(receive_con),
        send_sequence_number: send,
        send_con: SendConnState::from(send_con),
    })
}

// The header at the start of the buffer.
#[unsafe(no_mangle)]
pub extern "C" fn ostelumiv_sequence_read(buffer: &[u8]) -> SequenceFields
    ensures { result ≡ sequence_fields (sequence_read buffer.now) }
{
    match SequenceLayerHeader::deserialize(buffer) {
        Ok(h) => {
            let receive_con = h.receive_con;
            let send_con = h.send_con;
            SequenceFields {
                refusal: 0,
                receive_sequence_number: h.receive_sequence_number,
                receive_con: u8::from(receive_con),
                send_sequence_number: h.send_sequence_number,
                send_con: u8::from(send_con),
            }
        }
        Err(r) => SequenceFields {
            refusal: u8::from(r),
            ..SequenceFields::default()
        },
    }
}

// Writes the header that the four numbers name to the start of the buffer: 2 for a state above 3, ahead of 1.
#[unsafe(no_mangle)]
pub extern "C" fn ostelumiv_sequence_write(
    receive_sequence_number: u8,
    receive_con: u8,
    send_sequence_number: u8,
    send_con: u8,
    buffer: &mut [u8],
) -> WrittenFields
    ensures value { result ≡ sequence_write_fields (header_named receive_sequence_number receive_con send_sequence_number send_con) buffer.old }
    ensures buffer_after { buffer.new ≡ sequence_write_buffer (header_named receive_sequence_number receive_con send_sequence_number send_con) buffer.old }
{
    match header_named(
        receive_sequence_number,
        receive_con,
        send_sequence_number,
        send_con,
    ) {
        Ok(h) => written_fields(h.serialize(buffer)),
        Err(r) => written_fields(Err(r)),
    }
}
