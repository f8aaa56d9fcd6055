// The four-byte sequence header, read from the start of some bytes and written to the start of a buffer (document 01, "Bytes").
// The names are those of the repository's sequence.rs.
ghost use Rattle.std.specs.Prelude.{◌≡◌, ◌<◌};
ghost use Rattle.codec.specs.Sequence.{
  receive_conn_state,
  send_conn_state,
  receive_conn_number,
  send_conn_number,
  sequence_read,
  sequence_bytes,
};
ghost use Rattle.codec.specs.Writing.{written, buffer_after};

use crate::refusal::Refusal;

// Each state has its number.
#[derive(Clone, Copy, PartialEq, Eq)]
pub enum ReceiveConnState {
    NoConnection = 0,
    Initialization = 1,
    ConnectionValid = 2,
    ErrorResponse = 3,
}

#[derive(Clone, Copy, PartialEq, Eq)]
pub enum SendConnState {
    NoConnection = 0,
    Initialization = 1,
    ConnectionValid = 2,
    ConnectionValidAckRequest = 3,
}

#[derive(Clone, Copy, PartialEq, Eq)]
pub struct SequenceLayerHeader {
    pub receive_sequence_number: u8,
    pub receive_con: ReceiveConnState,
    pub send_sequence_number: u8,
    pub send_con: SendConnState,
}

// The receive state of a number below 4; of any other, the last one.
#[tactic(auto, unfolding(laws::specs::Pick::among, laws::specs::Pick::pick))]
impl From<u8> for ReceiveConnState {
    ghost from_gives = { λ n s. s ≡ receive_conn_state n };

    fn from(n: u8) -> ReceiveConnState {
        match n {
            0 => ReceiveConnState::NoConnection,
            1 => ReceiveConnState::Initialization,
            2 => ReceiveConnState::ConnectionValid,
            _ => ReceiveConnState::ErrorResponse,
        }
    }
}

// The number of a receive state.
impl From<ReceiveConnState> for u8 {
    ghost from_gives = { λ s n. (n ≡ receive_conn_number s) × (n < 4) };

    fn from(s: ReceiveConnState) -> u8 {
        s as u8
    }
}

// The send state of a number below 4; of any other, the last one.
#[tactic(auto, unfolding(laws::specs::Pick::among, laws::specs::Pick::pick))]
impl From<u8> for SendConnState {
    ghost from_gives = { λ n s. s ≡ send_conn_state n };

    fn from(n: u8) -> SendConnState {
        match n {
            0 => SendConnState::NoConnection,
            1 => SendConnState::Initialization,
            2 => SendConnState::ConnectionValid,
            _ => SendConnState::ConnectionValidAckRequest,
        }
    }
}

// The number of a send state.
impl From<SendConnState> for u8 {
    ghost from_gives = { λ s n. (n ≡ send_conn_number s) × (n < 4) };

    fn from(s: SendConnState) -> u8 {
        s as u8
    }
}

impl SequenceLayerHeader {
    // The header at the start of the buffer; 1 where it has under four bytes. Octets 2 and 3 are not looked at.
    pub fn deserialize(buffer: &[u8]) -> Result<SequenceLayerHeader, Refusal>
        ensures { result ≡ sequence_read buffer.now }
    {
        if buffer.len() < 4 {
            return Err(Refusal::BufferTooShort);
        }
        let octet0 = buffer[0];
        let octet1 = buffer[1];
        Ok(SequenceLayerHeader {
            receive_sequence_number: octet0 / 4,
            receive_con: ReceiveConnState::from(octet0 % 4),
            send_sequence_number: octet1 / 4,
            send_con: SendConnState::from(octet1 % 4),
        })
    }

    // Writes the header to the start of the buffer, its numbers modulo 64, and leaves the rest of the buffer as it was; 1, and nothing
    // is written, where it has under four bytes.
    pub fn serialize(self, buffer: &mut [u8]) -> Result<usize, Refusal>
        ensures value { result ≡ written (sequence_bytes self) buffer.old }
        ensures buffer_after { buffer.new ≡ buffer_after (sequence_bytes self) buffer.old }
    {
        if buffer.len() < 4 {
            return Err(Refusal::BufferTooShort);
        }
        let receive_con = self.receive_con;
        let send_con = self.send_con;
        buffer[0] = self.receive_sequence_number % 64 * 4 + u8::from(receive_con);
        buffer[1] = self.send_sequence_number % 64 * 4 + u8::from(send_con);
        buffer[2] = 0;
        buffer[3] = 0;
        Ok(4)
    }
}
