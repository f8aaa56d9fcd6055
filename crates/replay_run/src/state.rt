// The manager's state on a line of its own, for comparisons: `= NEXT HELD READ` (docs/TRACES.md).
use codec::octets::part;
use con_rec::SdoClientConnection;
use console::OrDash;
use man_table::types::SdoClientManager;
use man_value::value_in;
use manager::next::next_action_time;
use replay_piece::types::Progress;
use std::io;

// FNV-1a over 32 bits.
fn sum(b: &[u8]) -> u32 {
    let mut h: u32 = 2166136261;
    for octet in b {
        h = (h ^ u32::from(*octet)).wrapping_mul(16777619);
    }
    h
}

fn sent_so_far(c: SdoClientConnection) -> u64 {
    if c.job.loaded.is_some() {
        c.job.offset
    } else {
        0
    }
}

// node:state:transaction:send:last:deadline:retries:offset:uploaded:sum
fn connection(rt: &impl Print, c: SdoClientConnection, store: &[u8]) -> io::Result<()> {
    let state = c.state as u8;
    let until = OrDash(c.waiting.deadline);
    let offset = sent_so_far(c);
    let sum = sum(part(store, c.room, c.job.uploaded));
    let (node, transaction, send) = (c.target_node_id, c.transaction_id, c.send_sequence_number);
    let (last, retries, uploaded) = (
        c.last_received_sequence_number,
        c.waiting.retries_left,
        c.job.uploaded,
    );
    print!(rt;
        "{node}:{state}:{transaction}:{send}:{last}:{until}:{retries}:{offset}:{uploaded}:{sum}"
    )
}

fn held(rt: &impl Print, m: SdoClientManager, store: &[u8]) -> io::Result<()> {
    if m.count == 0 {
        return print!(rt; "-");
    }
    for (i, c) in m.connections.iter().take(m.count).enumerate() {
        if 0 < i {
            print!(rt; ",")?;
        }
        connection(rt, *c, store)?;
    }
    Ok(())
}

// What a read brought that this record ended Complete: how many bytes, and their sum.
fn read(rt: &impl Print, p: Progress, store: &[u8]) -> io::Result<()> {
    match p.value {
        Some(last) if last.record == p.number => {
            let value = value_in(store, last.at);
            let length = value.len();
            let sum = sum(value);
            print!(rt; "{length}:{sum}")
        }
        _ => print!(rt; "-"),
    }
}

pub(crate) fn print_state(
    rt: &impl Print,
    m: SdoClientManager,
    p: Progress,
    store: &[u8],
) -> io::Result<()> {
    let next = OrDash(next_action_time(m));
    print!(rt; "= {next} ")?;
    held(rt, m, store)?;
    print!(rt; " ")?;
    read(rt, p, store)?;
    println!(rt)
}
