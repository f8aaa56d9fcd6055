// The payload of a command that goes out: written from the room to the start of the output, and nothing else. First sendings and repeats
// use it alike.
ghost use Rattle.std.specs.Prelude.{◌≡◌, [], take, drop};
ghost use Rattle.codec.specs.Dcf.{sent_as};
ghost use Rattle.codec.specs.Writing.{written, buffer_after};
ghost use Rattle.con_rec.specs.Payload.{bytes_from, payload_of};

use crate::parts::{part_length, rest_of, total};
use crate::{Message, Outgoing};
use codec::dcf::Transfer;
use codec::octets::{octets32, put};
use codec::refusal::Refusal;

// What there is of the n bytes from start on.
pub fn clip(b: &[u8], start: usize, n: usize) -> &[u8]
    ensures { result.now ≡ take n (drop start b.now) }
{
    let rest = &b[start.min(b.len())..];
    &rest[..n.min(rest.len())]
}

// The four bytes ahead of a transfer's data, and all of a read's.
fn head_octets(index: u16, sub_index: u8) -> [u8; 4]
    ensures { result ≡ sent_as index sub_index [] }
{
    let [low, high] = index.to_le_bytes();
    [low, high, sub_index, 0]
}

// The n bytes of a transfer from a place on, written to the start of the output.
#[tactic(auto, unfolding(laws::specs::Pick::pick, codec::specs::Writing::written, codec::specs::Writing::buffer_after))]
fn write_part(
    t: Transfer,
    from: usize,
    n: usize,
    room: &[u8],
    output: &mut [u8],
) -> Result<usize, Refusal>
    ensures value { result ≡ written (bytes_from room.now t from n) output.old }
    ensures output_after { output.new ≡ buffer_after (bytes_from room.now t from n) output.old }
{
    let octets = head_octets(t.index, t.sub_index);
    let head = clip(&octets, from, n);
    let own = clip(room, t.start, t.len as usize);
    let rest = clip(
        own,
        from.saturating_sub(4),
        n.saturating_sub(4usize.saturating_sub(from)),
    );
    let size = head.len() + rest.len();
    if output.len() < size {
        return Err(Refusal::BufferTooShort);
    }
    // they fit
    let _ = put(output, 0, head);
    let _ = put(output, head.len(), rest);
    Ok(size)
}

// Writes the payload of a command to the start of the output, from the bytes in the room, and leaves the rest of the output as it was;
// 1, and nothing is written, where it does not fit.
#[tactic(auto, unfolding(laws::specs::Pick::pick, codec::specs::Writing::written, codec::specs::Writing::buffer_after))]
pub fn write_payload(o: Outgoing, room: &[u8], output: &mut [u8]) -> Result<usize, Refusal>
    ensures value { result ≡ written (payload_of room.now o) output.old }
    ensures output_after { output.new ≡ buffer_after (payload_of room.now o) output.old }
{
    match o.message {
        Message::Opening | Message::Next => Ok(0),
        Message::Read(q) => {
            let octets = head_octets(q.index, q.sub_index);
            put(output, 0, &octets)
        }
        Message::First(t) => {
            let n = part_length(total(t));
            write_part(t, 0, n as usize, room, output)
        }
        Message::Later { transfer, from } => {
            let n = part_length(rest_of(total(transfer), from));
            write_part(transfer, from as usize, n as usize, room, output)
        }
        Message::Abort(code) => {
            let octets = octets32(code);
            put(output, 0, &octets)
        }
    }
}
