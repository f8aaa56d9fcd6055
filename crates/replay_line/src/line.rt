// A line of the replay: record number, operation, refusal or 0, node sent to, bytes sent in hex, ends; `-` for nothing.
ghost use Rattle.std.specs.Prelude.{◌≡◌, ◌+◌, ◌*◌, ◌≤◌, length, take, leb, Ok, Err};
ghost use Rattle.replay_line.specs.Line.{
  letter as letter_of,
  operation_text,
  refusal_text,
  node_text,
  sent_payload,
  sent_text,
  end_text,
  further_ends,
  ends_text,
  record_text,
  answer_text,
  line_with,
  line_of,
  most_line,
  Short,
  line_answer,
  line_buffer,
};
ghost use Rattle.codec.specs.Command.{command_bytes};
ghost use Rattle.codec.specs.Sequence.{sequence_bytes};
ghost use Rattle.replay_line.specs.Text.{Puts, Room, hex};
ghost use Rattle.man_table.specs.Sweep.{no_ends};
ghost use Rattle.laws.specs.Pick.{pick};

use crate::text::Text;
use codec::command::SdoCommand;
use codec::refusal::Refusal;
use codec::sequence::SequenceLayerHeader;
use con_rec::{End, Reason};
use man_table::types::Ends;
use manager::types::{Answer, OUTPUT_SIZE, SentTo};

// The room that a line is sure to fit in: the longest is that of a value of 4,096 bytes.
pub const MOST_LINE: usize = 8211;

// Document 01's letter of each reason.
fn letter(r: Reason) -> u8
    ensures { result ≡ letter_of r }
{
    match r {
        Reason::Complete => b'C',
        Reason::Cut => b'X',
        Reason::OpenRefused => b'O',
        Reason::Sequence => b'S',
        Reason::PeerAborted(_) => b'P',
        Reason::Timeout => b'T',
        Reason::BadSegment => b'U',
    }
}

// The operation, or `-` for a record of under 32 bytes.
fn put_operation(text: &mut Text, b: &[u8])
    requires { Room text.old 3 }
    ensures { Puts text.old (operation_text b.now) 3 text.new }
{
    if b.len() < 32 {
        return text.byte(b'-');
    }
    text.decimal(b[0] as u32, 2)
}

fn put_refusal(text: &mut Text, answer: Answer)
    requires { Room text.old 3 }
    ensures { Puts text.old (refusal_text answer) 3 text.new }
{
    match answer {
        Answer::Refused(r) => text.decimal(u8::from(r) as u32, 2),
        _ => text.decimal(0, 2),
    }
}

fn put_node(text: &mut Text, answer: Answer)
    requires { Room text.old 3 }
    ensures { Puts text.old (node_text answer) 3 text.new }
{
    match answer {
        Answer::Sent(s) => text.decimal(s.node as u32, 2),
        _ => text.byte(b'-'),
    }
}

fn put_sequence(text: &mut Text, h: SequenceLayerHeader)
    requires { Room text.old 8 }
    ensures { Puts text.old (hex (sequence_bytes h)) 8 text.new }
{
    let mut bytes = [0u8; 4];
    let _ = h.serialize(&mut bytes);
    text.hex(&bytes);
}

// At most 1,464 bytes: 12 before the payload, and 1,452 of it.
fn put_command(text: &mut Text, c: SdoCommand, payload: &[u8])
    requires room { Room text.old 2928 }
    requires payload_len_bound { length payload.now ≤ 1452 }
    ensures { Puts text.old (hex (command_bytes c payload.now)) 2928 text.new }
{
    let mut head = [0u8; 12];
    // 12 bytes fit
    let n = c.serialize(&[], &mut head).unwrap();
    text.hex(&head[..n]);
    text.hex(payload);
}

fn payload_of(s: SentTo, output: &[u8]) -> &[u8]
    ensures result_value { result.now ≡ sent_payload s output.now }
    ensures result_len_bound { length result.now ≤ 1452 }
{
    let command = s.command;
    let header = command.header;
    let most = (header.segment_size as usize).min(OUTPUT_SIZE);
    &output[..most.min(output.len())]
}

fn put_sent(text: &mut Text, answer: Answer, output: &[u8])
    requires { Room text.old 2936 }
    ensures { Puts text.old (sent_text answer output.now) 2936 text.new }
{
    match answer {
        Answer::Sent(s) => {
            let sequence = s.sequence;
            let command = s.command;
            put_sequence(text, sequence);
            put_command(text, command, payload_of(s, output))
        }
        _ => text.byte(b'-'),
    }
}

fn put_end(text: &mut Text, e: End)
    requires { Room text.old 16 }
    ensures { Puts text.old (end_text e) 16 text.new }
{
    let reason = e.reason;
    text.decimal(e.node as u32, 2);
    text.byte(b':');
    text.byte(letter(reason));
    text.byte(b':');
    text.decimal(e.delivered, 9);
}

fn put_further(text: &mut Text, ends: &[End])
    requires { Room text.old (17 * length ends.now) }
    ensures { Puts text.old (further_ends ends.now) (17 * length ends.now) text.new }
{
    for e in ends {
        text.byte(b',');
        put_end(text, *e);
    }
}

fn put_ends(text: &mut Text, ends: &[End])
    requires room { Room text.old 136 }
    requires ends_len_bound { length ends.now ≤ 8 }
    ensures { Puts text.old (ends_text ends.now) 136 text.new }
{
    if ends.is_empty() {
        return text.byte(b'-');
    }
    put_end(text, ends[0]);
    put_further(text, &ends[1..])
}

// Record number and operation, each with a space behind it.
fn put_record(text: &mut Text, number: u16, b: &[u8])
    requires { Room text.old 10 }
    ensures { Puts text.old (record_text number b.now) 10 text.new }
{
    text.decimal(number as u32, 4);
    text.byte(b' ');
    put_operation(text, b);
    text.byte(b' ');
}

// Refusal, node and bytes sent, each with a space behind it.
fn put_answer(text: &mut Text, answer: Answer, output: &[u8])
    requires { Room text.old 2945 }
    ensures { Puts text.old (answer_text answer output.now) 2945 text.new }
{
    put_refusal(text, answer);
    text.byte(b' ');
    put_node(text, answer);
    text.byte(b' ');
    put_sent(text, answer, output);
    text.byte(b' ');
}

// Refuses a place from which on fewer than 8,211 bytes are free. A line never has more.
pub(crate) fn room(out: &[u8], at: usize) -> Result<(), Refusal>
    ensures { result ≡ pick (leb (at + most_line) (length out.now)) (Ok tt) (Err Refusal.BufferTooShort) }
{
    if out.len().saturating_sub(at) < MOST_LINE {
        return Err(Refusal::BufferTooShort);
    }
    Ok(())
}

// The line of a record by which these ends came.
fn write_with(
    out: &mut [u8],
    at: usize,
    number: u16,
    b: &[u8],
    answer: Answer,
    ends: &[End],
    output: &[u8],
) -> Result<usize, Refusal>
    requires { length ends.now ≤ 8 }
    ensures value { result ≡ line_answer out.old at (line_with number b.now answer ends.now output.now) }
    ensures out_after { out.new ≡ line_buffer out.old at (line_with number b.now answer ends.now output.now) }
    ensures short { Short result }
{
    room(out, at)?;
    let mut text = Text { out, end: at };
    put_record(&mut text, number, b);
    put_answer(&mut text, answer, output);
    put_ends(&mut text, ends);
    text.byte(b'\n');
    Ok(text.end - at)
}

// Writes a record's line at a place of the text, and leaves the rest as it was; 1, and nothing is written, where fewer than 8,211 bytes
// are free there. A line never has more.
pub fn write_line(
    out: &mut [u8],
    at: usize,
    number: u16,
    b: &[u8],
    answer: Answer,
    ends: Ends,
    output: &[u8],
) -> Result<usize, Refusal>
    ensures value { result ≡ line_answer out.old at (line_of number b.now answer ends output.now) }
    ensures out_after { out.new ≡ line_buffer out.old at (line_of number b.now answer ends output.now) }
    ensures short { Short result }
{
    let n = ends.count.min(8);
    write_with(out, at, number, b, answer, &ends.list[..n], output)
}

// Writes the line of a record by which nothing ended, as write_line does.
pub fn write_quiet_line(
    out: &mut [u8],
    at: usize,
    number: u16,
    b: &[u8],
    answer: Answer,
    output: &[u8],
) -> Result<usize, Refusal>
    ensures value { result ≡ line_answer out.old at (line_of number b.now answer no_ends output.now) }
    ensures out_after { out.new ≡ line_buffer out.old at (line_of number b.now answer no_ends output.now) }
    ensures short { Short result }
{
    write_with(out, at, number, b, answer, &[], output)
}
