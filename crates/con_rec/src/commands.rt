// A command that goes out: its sequence header and its command, made of its numbers and of which command it is.
ghost use Rattle.std.specs.Prelude.{◌≡◌, false, None};
ghost use Rattle.con_rec.specs.Commands.{
  outgoing,
  receive_state,
  send_state,
  sequence_of,
  command_with,
  command_of,
};

use crate::parts::{first_kind, first_size, later_kind, part_length, rest_of, total};
use crate::{Message, Outgoing, SdoClientConnection};
use codec::command::{CommandId, CommandLayerHeader, SdoCommand, Segmentation};
use codec::sequence::{ReceiveConnState, SendConnState, SequenceLayerHeader};

impl SdoClientConnection {
    // A command with the connection's numbers and its job's mode.
    pub fn numbered(self, message: Message) -> Outgoing
        ensures { result ≡ outgoing self message }
    {
        Outgoing {
            receive: self.last_received_sequence_number,
            send: self.send_sequence_number,
            transaction: self.transaction_id,
            mode: self.job.mode,
            message,
        }
    }
}

impl Message {
    fn receive_state(self) -> ReceiveConnState
        ensures { result ≡ receive_state self }
    {
        match self {
            Message::Opening => ReceiveConnState::NoConnection,
            Message::Read(_)
            | Message::Next
            | Message::First(_)
            | Message::Later { .. }
            | Message::Abort(_) => ReceiveConnState::ConnectionValid,
        }
    }

    fn send_state(self) -> SendConnState
        ensures { result ≡ send_state self }
    {
        match self {
            Message::Opening => SendConnState::Initialization,
            Message::Read(_) | Message::Next | Message::First(_) | Message::Later { .. } => {
                SendConnState::ConnectionValidAckRequest
            }
            Message::Abort(_) => SendConnState::NoConnection,
        }
    }
}

// A command with no abort mark and no data size.
fn plain(transaction: u8, kind: Segmentation, id: CommandId, segment: u16) -> SdoCommand
    ensures { result ≡ command_with transaction false kind id segment None }
{
    SdoCommand {
        header: CommandLayerHeader {
            transaction_id: transaction,
            is_response: false,
            is_aborted: false,
            segmentation: kind,
            command_id: id,
            segment_size: segment,
        },
        data_size: None,
    }
}

impl Outgoing {
    // The sequence header that goes ahead of the command.
    pub fn sequence(self) -> SequenceLayerHeader
        ensures { result ≡ sequence_of self }
    {
        SequenceLayerHeader {
            receive_sequence_number: self.receive,
            receive_con: self.message.receive_state(),
            send_sequence_number: self.send,
            send_con: self.message.send_state(),
        }
    }

    // The command, whose payload write_payload writes.
    pub fn command(self) -> SdoCommand
        ensures { result ≡ command_of self }
    {
        let id = self.transaction;
        match self.message {
            Message::Opening => plain(id, Segmentation::Expedited, CommandId::Nil, 0),
            Message::Read(_) => plain(id, Segmentation::Expedited, CommandId::ReadByIndex, 4),
            Message::Next => plain(id, Segmentation::Segment, CommandId::ReadByIndex, 0),
            Message::First(t) => {
                let all = total(t);
                let kind = first_kind(self.mode, all);
                SdoCommand {
                    data_size: first_size(self.mode, t),
                    ..plain(id, kind, CommandId::WriteByIndex, part_length(all))
                }
            }
            // a later part is the same in either mode
            Message::Later { transfer, from } => {
                let rest = rest_of(total(transfer), from);
                plain(
                    id,
                    later_kind(rest),
                    CommandId::WriteByIndex,
                    part_length(rest),
                )
            }
            Message::Abort(_) => {
                let command = plain(id, Segmentation::Expedited, CommandId::Nil, 4);
                SdoCommand {
                    header: CommandLayerHeader {
                        is_aborted: true,
                        ..command.header
                    },
                    ..command
                }
            }
        }
    }
}
