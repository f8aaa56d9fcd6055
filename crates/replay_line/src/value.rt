// A line of values: record number, node, object, data; one for a record that ends a read Complete.
ghost use Rattle.std.specs.Prelude.{◌≡◌, ◌+◌, ◌≤◌, length};
ghost use Rattle.replay_line.specs.Line.{Short, line_answer, line_buffer};
ghost use Rattle.replay_line.specs.Text.{Puts, Room};
ghost use Rattle.replay_line.specs.Value.{place_text, object_text, data_text, value_line, node_of, value_text};

use crate::line::room;
use crate::text::Text;
use codec::refusal::Refusal;
use codec::request::ReadByIndexRequest;
use con_rec::payload::clip;
use man_table::types::ROOM_SIZE;
use man_value::value_in;
use manager::types::Answer;

// The object, as INDEX:SUB.
fn put_object(text: &mut Text, index: u16, sub_index: u8)
    requires { Room text.old 7 }
    ensures { Puts text.old (object_text index sub_index) 7 text.new }
{
    // not `to_be_bytes`: of its first byte std says / 256 % 256, and the proof did not close
    text.hex(&[(index / 256) as u8, (index % 256) as u8]);
    text.byte(b':');
    text.hex(&[sub_index]);
}

// The data in hex, or `-` for none.
fn put_data(text: &mut Text, bytes: &[u8])
    requires room { Room text.old 8192 }
    requires bytes_len_bound { length bytes.now ≤ 4096 }
    ensures { Puts text.old (data_text bytes.now) 8192 text.new }
{
    if bytes.is_empty() {
        return text.byte(b'-');
    }
    text.hex(bytes)
}

// Record number and node, each with a space behind it.
fn put_place(text: &mut Text, number: u16, node: u8)
    requires { Room text.old 10 }
    ensures { Puts text.old (place_text number node) 10 text.new }
{
    text.decimal(number as u32, 4);
    text.byte(b' ');
    text.decimal(node as u32, 2);
    text.byte(b' ');
}

// A value's line.
fn put_line(text: &mut Text, number: u16, node: u8, q: ReadByIndexRequest, bytes: &[u8])
    requires room { Room text.old 8211 }
    requires bytes_len_bound { length bytes.now ≤ 4096 }
    ensures { Puts text.old (value_line number node q.index q.sub_index bytes.now) 8211 text.new }
{
    put_place(text, number, node);
    put_object(text, q.index, q.sub_index);
    text.byte(b' ');
    put_data(text, bytes);
    text.byte(b'\n');
}

// The node that a record is for; 0 for a record of under 2 bytes.
pub fn node_of(b: &[u8]) -> u8
    ensures { result ≡ node_of b.now }
{
    b.get(1).copied().unwrap_or(0)
}

// The value of an answer that has one, where the node's job read an object, of 4,096 bytes at most, which no value passes; no text for any other.
fn put_value(
    text: &mut Text,
    number: u16,
    b: &[u8],
    object: Option<ReadByIndexRequest>,
    answer: Answer,
    store: &[u8],
)
    requires { Room text.old 8211 }
    ensures { Puts text.old (value_text number b.now object answer store.now) 8211 text.new }
{
    let (Answer::Value(part), Some(q)) = (answer, object) else {
        return;
    };
    put_line(
        text,
        number,
        node_of(b),
        q,
        clip(value_in(store, part), 0, ROOM_SIZE),
    )
}

// Writes the line of the value that a record's reply answered at a place of the text, and leaves the rest as it was; for any other answer there is no
// text. `object` is what the node's job read ahead of the record. 1, and nothing is written, where fewer than 8,211 bytes are free there.
pub fn write_value(
    out: &mut [u8],
    at: usize,
    number: u16,
    b: &[u8],
    object: Option<ReadByIndexRequest>,
    answer: Answer,
    store: &[u8],
) -> Result<usize, Refusal>
    ensures value { result ≡ line_answer out.old at (value_text number b.now object answer store.now) }
    ensures out_after { out.new ≡ line_buffer out.old at (value_text number b.now object answer store.now) }
    ensures short { Short result }
{
    room(out, at)?;
    let mut text = Text { out, end: at };
    put_value(&mut text, number, b, object, answer, store);
    Ok(text.end - at)
}
