// The parts of both modes (document 01's P1 to P6, and document 02, CR 2): writes of these totals, each part acknowledged, on a line each.
use crate::{absent, end, replied};
use codec::command::Segmentation;
use codec::octets::part;
use con_rec::{Mode, Outgoing, SdoClientConnection, Step};
use connection::ask::get_pending_request;
use connection::start::start_write_job;
use std::io;

fn kind(s: Segmentation) -> &'static str {
    match s {
        Segmentation::Expedited => "Expedited",
        Segmentation::Initiate => "Initiate",
        Segmentation::Segment => "Segment",
        Segmentation::Complete => "Complete",
    }
}

// A part: kind, length, and its data size where it has one.
fn part_of(rt: &impl Print, o: Outgoing) -> io::Result<()> {
    let command = o.command();
    let header = command.header;
    let segmentation = header.segmentation;
    let (kind, length) = (kind(segmentation), header.segment_size);
    print!(rt; " {kind} {length}")?;
    match command.data_size {
        Some(size) => print!(rt; " of {size}"),
        None => Ok(()),
    }
}

// A reply with this octet twice, taken without a line.
fn acknowledged(c: SdoClientConnection, octet: u8, room: &mut [u8]) -> SdoClientConnection {
    replied(c, octet, room).unwrap_or(c)
}

// What ask gives, without a line; a refusal is as nothing.
fn asked(c: SdoClientConnection) -> Step {
    get_pending_request(c, absent(0)).unwrap_or(Step {
        connection: c,
        sends: None,
    })
}

// The opening and its reply.
fn opened(c: SdoClientConnection, room: &mut [u8]) -> SdoClientConnection {
    let step = asked(c);
    let after = step.connection;
    acknowledged(after, 0x01, room)
}

// The next part, if there is one, and its acknowledgement.
fn next_part(
    rt: &impl Print,
    c: SdoClientConnection,
    octet: u8,
    room: &mut [u8],
) -> io::Result<SdoClientConnection> {
    let step = asked(c);
    let sends = step.sends;
    let after = step.connection;
    if let Some(o) = sends {
        part_of(rt, o)?;
    }
    Ok(acknowledged(after, octet, room))
}

// The parts of a write of so many bytes, four of them ahead of the data, on a line after its name.
fn parts(rt: &impl Print, name: &str, mode: Mode, total: usize) -> io::Result<()> {
    let mut room = [0u8; 4096];
    let bytes = [7u8; 4096];
    let new = SdoClientConnection::new(5, 0);
    let started = start_write_job(
        new,
        mode,
        0x2100,
        1,
        part(&bytes, 0, total.saturating_sub(4)),
        1,
        absent(0),
        &mut room,
    );
    let Ok(c) = started else {
        return Ok(());
    };
    print!(rt; "{name}{total}")?;
    let mut c = opened(c, &mut room);
    for octet in [0x06, 0x0A, 0x0E] {
        c = next_part(rt, c, octet, &mut room)?;
    }
    print!(rt; " ")?;
    end(rt, c)
}

fn totals_in(rt: &impl Print, name: &str, mode: Mode) -> io::Result<()> {
    for total in [1452, 1453, 1456, 1457, 2904, 2905] {
        parts(rt, name, mode, total)?;
    }
    Ok(())
}

// P1 to P6, and the same totals in published mode.
pub(crate) fn totals(rt: &impl Print) -> io::Result<()> {
    totals_in(rt, "", Mode::Repository)?;
    totals_in(rt, "published ", Mode::Published)
}
