// A simulated cell: a pressure transmitter's SDO server, as much of it as a load and a read need. Its objects are a table in memory: a write to
// one of them is kept there, a read of one is answered with what it was given, four bytes at most, and a read of any other is aborted. Every other command is
// acknowledged.
use codec::command::{CommandId, CommandLayerHeader, SdoCommand, Segmentation};
use codec::octets::part;
use codec::request::{ReadByIndexRequest, WriteByIndexRequest};
use codec::sequence::{ReceiveConnState, SendConnState, SequenceLayerHeader};
use manager::types::SentTo;

// An object: how many bytes it was given, and the first four of them as a number, low byte first.
#[derive(Clone, Copy)]
pub(crate) struct Object {
    pub index: u16,
    pub sub_index: u8,
    pub bytes: usize,
    pub value: u32,
}

#[derive(Clone, Copy)]
pub(crate) struct Cell {
    pub objects: [Object; 2],
}

// What the cell answers: the headers of the reply, and its data, of which the reply carries as many bytes as its segment size says.
#[derive(Clone, Copy)]
pub(crate) struct Reply {
    pub sequence: SequenceLayerHeader,
    pub command: SdoCommand,
    pub data: [u8; 4],
}

// The data that a reply carries: how many of the four bytes, and whether they are the code of an abort.
#[derive(Clone, Copy)]
struct Carried {
    data: [u8; 4],
    bytes: u16,
    is_aborted: bool,
}

const NOTHING: Carried = Carried {
    data: [0; 4],
    bytes: 0,
    is_aborted: false,
};

// EPSG DS 301's code for an object that is not there.
const NO_SUCH_OBJECT: u32 = 0x06020000;

// The first four bytes as a number, those past the end being 0.
fn number(b: &[u8]) -> u32 {
    let mut four = [0; 4];
    let n = b.len().min(4);
    four[..n].copy_from_slice(&b[..n]);
    u32::from_le_bytes(four)
}

impl Object {
    // An object that was given nothing.
    fn new(index: u16, sub_index: u8) -> Object {
        Object {
            index,
            sub_index,
            bytes: 0,
            value: 0,
        }
    }

    fn is_at(&self, index: u16, sub_index: u8) -> bool {
        self.index == index && self.sub_index == sub_index
    }

    // What the object was given, its first four bytes at most.
    fn content(&self) -> Carried {
        Carried {
            data: self.value.to_le_bytes(),
            bytes: self.bytes.min(4) as u16,
            is_aborted: false,
        }
    }
}

impl Cell {
    // A cell that nothing was loaded into.
    pub(crate) fn new() -> Cell {
        Cell {
            objects: [Object::new(0x2100, 1), Object::new(0x2101, 0)],
        }
    }

    fn read(&self, r: ReadByIndexRequest) -> Carried {
        match self.objects.iter().find(|o| o.is_at(r.index, r.sub_index)) {
            Some(o) => o.content(),
            None => Carried {
                data: NO_SUCH_OBJECT.to_le_bytes(),
                bytes: 4,
                is_aborted: true,
            },
        }
    }

    fn write(&mut self, r: WriteByIndexRequest, payload: &[u8]) {
        for o in &mut self.objects {
            if o.is_at(r.index, r.sub_index) {
                o.bytes = r.len;
                o.value = number(part(payload, r.start, r.len));
            }
        }
    }

    // What a command does to the table, and what the reply carries: only a WriteByIndex changes it, and only a ReadByIndex is answered with data.
    fn take(&mut self, id: CommandId, payload: &[u8]) -> Carried {
        match id {
            CommandId::ReadByIndex => {
                if let Ok(r) = ReadByIndexRequest::from_payload(payload) {
                    return self.read(r);
                }
            }
            CommandId::WriteByIndex => {
                if let Ok(r) = WriteByIndexRequest::from_payload(payload) {
                    self.write(r, payload);
                }
            }
            _ => {}
        }
        NOTHING
    }

    // The cell's answer to a command and its payload.
    pub(crate) fn answer(&mut self, sent: SentTo, payload: &[u8]) -> Reply {
        let carried = self.take(sent.command.header.command_id, payload);
        let data = carried.data;
        Reply {
            sequence: sequence(sent.sequence),
            command: response(sent.command, carried),
            data,
        }
    }
}

// The reply's numbers: the number received is the command's own, and the number sent follows the last that the client received. The
// opening is answered by Initialization, all else by ConnectionValid.
fn sequence(asked: SequenceLayerHeader) -> SequenceLayerHeader {
    let (receive_con, send_con) = match asked.send_con {
        SendConnState::Initialization => {
            (
                ReceiveConnState::Initialization,
                SendConnState::Initialization,
            )
        }
        _ => (
            ReceiveConnState::ConnectionValid,
            SendConnState::ConnectionValid,
        ),
    };
    SequenceLayerHeader {
        receive_sequence_number: asked.send_sequence_number,
        receive_con,
        send_sequence_number: (asked.receive_sequence_number % 64 + 1) % 64,
        send_con,
    }
}

fn response(asked: SdoCommand, carried: Carried) -> SdoCommand {
    SdoCommand {
        header: CommandLayerHeader {
            transaction_id: asked.header.transaction_id,
            is_response: true,
            is_aborted: carried.is_aborted,
            segmentation: Segmentation::Expedited,
            command_id: asked.header.command_id,
            segment_size: carried.bytes,
        },
        data_size: None,
    }
}
