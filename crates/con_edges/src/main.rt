// Document 01's own run and its edges, and the parts of both modes (document 02, CR 2), through the connection's calls. What this program
// writes is held to the file stdout, whose lines are the papers' numbers.
#![tactic(auto)]

use codec::command::{CommandId, CommandLayerHeader, SdoCommand, Segmentation};
use codec::octets::part;
use codec::refusal::Refusal;
use codec::sequence::SequenceLayerHeader;
use con_rec::payload::write_payload;
use con_rec::{Mode, Now, Outgoing, Reason, SdoClientConnection, Step};
use con_reply::reply::handle_response;
use connection::ask::get_pending_request;
use connection::start::{start_concise_dcf_job, start_read_job, start_write_job};
use connection::tick::tick;
use std::io;

mod totals;

// The bytes of a command that goes out: sequence header, command.
fn frame(rt: &impl Print, o: Outgoing, room: &[u8]) -> io::Result<()> {
    let mut payload = [0u8; 1452];
    let Ok(n) = write_payload(o, room, &mut payload) else {
        return Ok(());
    };
    console::frame(rt, o.sequence(), o.command(), part(&payload, 0, n))
}

// A refusal's number, and the connection as it was.
fn refused(rt: &impl Print, r: Refusal, c: SdoClientConnection) -> io::Result<SdoClientConnection> {
    let number = u8::from(r);
    println!(rt; "{number}")?;
    Ok(c)
}

// What ask or tick gave, on a line: the frame, `-` for nothing, or the refusal's number.
fn show(
    rt: &impl Print,
    what: &str,
    s: Result<Step, Refusal>,
    c: SdoClientConnection,
    room: &[u8],
) -> io::Result<SdoClientConnection> {
    print!(rt; "{what}")?;
    match s {
        Ok(step) => {
            let sends = step.sends;
            let after = step.connection;
            match sends {
                Some(o) => frame(rt, o, room)?,
                None => print!(rt; "-")?,
            }
            println!(rt)?;
            Ok(after)
        }
        Err(r) => refused(rt, r, c),
    }
}

// What a start or a reply came to: 0 or the refusal's number.
fn came(
    rt: &impl Print,
    what: &str,
    a: Result<SdoClientConnection, Refusal>,
    c: SdoClientConnection,
) -> io::Result<SdoClientConnection> {
    print!(rt; "{what}")?;
    match a {
        Ok(after) => {
            println!(rt; "0")?;
            Ok(after)
        }
        Err(r) => refused(rt, r, c),
    }
}

fn letter(r: Reason) -> char {
    match r {
        Reason::Complete => 'C',
        Reason::Cut => 'X',
        Reason::OpenRefused => 'O',
        Reason::Sequence => 'S',
        Reason::PeerAborted(_) => 'P',
        Reason::Timeout => 'T',
        Reason::BadSegment => 'U',
    }
}

// The end, as node:letter:delivered, or `-`.
pub(crate) fn end(rt: &impl Print, c: SdoClientConnection) -> io::Result<()> {
    match c.end() {
        Some(e) => {
            let reason = e.reason;
            let (node, letter, delivered) = (e.node, letter(reason), e.delivered);
            println!(rt; "end {node}:{letter}:{delivered}")
        }
        None => println!(rt; "end -"),
    }
}

pub(crate) fn absent(time: u64) -> Now {
    Now {
        time,
        timeout: None,
        retries: None,
    }
}

fn with_retries(time: u64, n: u32) -> Now {
    Now {
        time,
        timeout: None,
        retries: Some(n),
    }
}

// A reply as the replay has it: two sequence octets, which are alike here, command Nil, no data.
pub(crate) fn replied(
    c: SdoClientConnection,
    octet: u8,
    room: &mut [u8],
) -> Result<SdoClientConnection, Refusal> {
    let seq = SequenceLayerHeader::deserialize(&[octet, octet, 0, 0])?;
    let cmd = SdoCommand {
        header: CommandLayerHeader {
            transaction_id: 0,
            is_response: false,
            is_aborted: false,
            segmentation: Segmentation::Expedited,
            command_id: CommandId::Nil,
            segment_size: 0,
        },
        data_size: None,
    };
    handle_response(c, seq, cmd, &[], room)
}

fn reply(
    rt: &impl Print,
    c: SdoClientConnection,
    octet: u8,
    room: &mut [u8],
) -> io::Result<SdoClientConnection> {
    came(rt, "reply ", replied(c, octet, room), c)
}

// Document 01's five records.
fn run(rt: &impl Print) -> io::Result<()> {
    let mut room = [0u8; 4096];
    let new = SdoClientConnection::new(5, 0);
    let bytes = [0x01, 0x04];
    let c = came(rt, "write ", write_of(new, &bytes, &mut room), new)?;
    let c = show(rt, "ask ", get_pending_request(c, absent(0)), c, &room)?;
    let c = reply(rt, c, 0x01, &mut room)?;
    let c = show(rt, "ask ", get_pending_request(c, absent(0)), c, &room)?;
    let c = reply(rt, c, 0x06, &mut room)?;
    end(rt, c)
}

// Retries 0: before the deadline nothing, at it the abort command. Retries 1: first nothing, since no command was sent yet.
fn timeouts(rt: &impl Print) -> io::Result<()> {
    let mut room = [0u8; 4096];
    let new = SdoClientConnection::new(5, 0);
    let c = came(
        rt,
        "read ",
        start_read_job(new, Mode::Repository, 0x2100, 1, 1, with_retries(0, 0)),
        new,
    )?;
    let c = show(rt, "tick ", tick(c, with_retries(14999999, 0)), c, &room)?;
    let c = show(rt, "tick ", tick(c, with_retries(15000000, 0)), c, &room)?;
    end(rt, c)?;
    let d = came(
        rt,
        "read ",
        start_read_job(new, Mode::Repository, 0x2100, 1, 1, with_retries(0, 1)),
        new,
    )?;
    let d = show(rt, "tick ", tick(d, with_retries(15000000, 1)), d, &room)?;
    let d = show(rt, "tick ", tick(d, with_retries(29999999, 1)), d, &room)?;
    let d = show(rt, "tick ", tick(d, with_retries(30000000, 1)), d, &room)?;
    end(rt, d)
}

// A command sent and not answered is repeated as it was, twice, and then aborted.
fn repeats(rt: &impl Print) -> io::Result<()> {
    let mut room = [0u8; 4096];
    let new = SdoClientConnection::new(5, 0);
    let c = came(
        rt,
        "read ",
        start_read_job(new, Mode::Repository, 0x2100, 1, 7, absent(0)),
        new,
    )?;
    let c = show(rt, "ask ", get_pending_request(c, absent(0)), c, &room)?;
    let c = show(rt, "ask ", get_pending_request(c, absent(0)), c, &room)?;
    let c = show(rt, "tick ", tick(c, absent(15000000)), c, &room)?;
    let c = show(rt, "tick ", tick(c, absent(30000000)), c, &room)?;
    let c = show(rt, "tick ", tick(c, absent(45000000)), c, &room)?;
    end(rt, c)
}

// A write of 2100:01 as the first start of a connection's.
fn write_of(
    c: SdoClientConnection,
    data: &[u8],
    room: &mut [u8],
) -> Result<SdoClientConnection, Refusal> {
    start_write_job(c, Mode::Repository, 0x2100, 1, data, 1, absent(0), room)
}

// 7 NoRoom at 4,093 data bytes and not at 4,092; then 4 Busy.
fn rooms(rt: &impl Print) -> io::Result<()> {
    let mut room = [0u8; 4096];
    let new = SdoClientConnection::new(5, 0);
    let data = [7u8; 4096];
    let over = part(&data, 0, 4093);
    let c = came(rt, "write 4093 ", write_of(new, over, &mut room), new)?;
    let most = part(&data, 0, 4092);
    let c = came(rt, "write 4092 ", write_of(c, most, &mut room), c)?;
    let c = came(
        rt,
        "read ",
        start_read_job(c, Mode::Repository, 0x2100, 1, 1, absent(0)),
        c,
    )?;
    end(rt, c)
}

// 5 DcfTooShort, 8 DeadlineRange.
fn refusals(rt: &impl Print) -> io::Result<()> {
    let mut room = [0u8; 4096];
    let new = SdoClientConnection::new(5, 0);
    let three = [2u8, 0, 0];
    let c = came(
        rt,
        "dcf ",
        start_concise_dcf_job(new, Mode::Repository, &three, 1, absent(0), &mut room),
        new,
    )?;
    let c = came(
        rt,
        "read ",
        start_read_job(
            c,
            Mode::Repository,
            0x2100,
            1,
            1,
            absent(18446744073709551615),
        ),
        c,
    )?;
    end(rt, c)
}

fn main(rt: HostRuntime) -> io::Result<()> {
    run(&rt)?;
    timeouts(&rt)?;
    repeats(&rt)?;
    rooms(&rt)?;
    refusals(&rt)?;
    totals::totals(&rt)
}
