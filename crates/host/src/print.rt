// What happens, on standard output.
use crate::cell::Cell;
use codec::command::SdoCommand;
use codec::octets::part;
use codec::sequence::SequenceLayerHeader;
use con_rec::Reason;
use console::{OrDash, octets};
use man_lent::types::Told;
use man_table::types::Ends;
use manager::types::Answer;
use std::io;

// How much of a payload is shown.
const MOST_SHOWN: usize = 16;

// A frame on a line: where it goes, and its bytes, sequence header and command; of a long payload its first bytes, and how many it has.
pub(crate) fn frame(
    rt: &impl Print,
    way: &str,
    node: u8,
    sequence: SequenceLayerHeader,
    command: SdoCommand,
    payload: &[u8],
) -> io::Result<()> {
    print!(rt; "{way:<4} {node} ")?;
    let size = payload.len();
    let shown = size.min(MOST_SHOWN);
    console::frame(rt, sequence, command, &payload[..shown])?;
    if shown < size {
        print!(rt; " .. {size} bytes")?;
    }
    println!(rt)
}

// The payload of a command is at the start of the output, as long as its segment size says.
pub(crate) fn payload_of(command: SdoCommand, output: &[u8]) -> &[u8] {
    part(output, 0, command.header.segment_size as usize)
}

fn reason(r: Reason) -> &'static str {
    match r {
        Reason::Complete => "Complete",
        Reason::Cut => "Cut",
        Reason::OpenRefused => "OpenRefused",
        Reason::Sequence => "Sequence",
        Reason::PeerAborted(_) => "PeerAborted",
        Reason::Timeout => "Timeout",
        Reason::BadSegment => "BadSegment",
    }
}

fn ends(rt: &impl Print, e: Ends) -> io::Result<()> {
    for end in e.list.iter().take(e.count) {
        println!(rt;
            "end {} {}, delivered {}",
            end.node,
            reason(end.reason),
            end.delivered
        )?;
    }
    Ok(())
}

// What a call told: a refusal's number, a command that goes out, or nothing; and the ends. A part of the store is no value yet: its
// bytes are printed by `value`, once they are handed out.
pub(crate) fn told(rt: &impl Print, t: Told, output: &[u8]) -> io::Result<()> {
    match t.answer {
        Answer::Nothing | Answer::Value(_) => {}
        Answer::Sent(s) => {
            frame(
                rt,
                "to",
                s.node,
                s.sequence,
                s.command,
                payload_of(s.command, output),
            )?;
        }
        Answer::Refused(r) => println!(rt; "refused {}", u8::from(r))?,
    }
    ends(rt, t.ends)
}

pub(crate) fn next(rt: &impl Print, due: Option<u64>) -> io::Result<()> {
    println!(rt; "next {}", OrDash(due))
}

// What a read of an object brought.
pub(crate) fn value(rt: &impl Print, index: u16, sub_index: u8, bytes: &[u8]) -> io::Result<()> {
    print!(rt; "value {index:04x}:{sub_index:02x} ")?;
    if bytes.is_empty() {
        print!(rt; "-")?;
    }
    octets(rt, bytes)?;
    println!(rt)
}

// The cell's table.
pub(crate) fn objects(rt: &impl Print, c: &Cell) -> io::Result<()> {
    for o in &c.objects {
        println!(rt;
            "object {:04x}:{:02x} {} bytes, {}",
            o.index, o.sub_index, o.bytes, o.value
        )?;
    }
    Ok(())
}
