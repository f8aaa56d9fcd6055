// The manager lent for change (document 01, "Which shape goes where"): the manager's calls for a host that keeps a manager in a place of
// its own. Each copies what stands behind the reference, calls the manager's function by value, stores the manager that comes back, and
// tells the host the rest; `next_action_time` only looks at the manager, and `value_in` needs none. Every function is total on any manager and any
// slices. Refusals are those of the manager's own calls, where they are told.
#![tactic(auto)]

ghost use Rattle.std.specs.Prelude.{◌≡◌, []};
ghost use Rattle.manager.specs.Calls.{called, starts, turns, replies, writes, reads, loads, least_deadline};
ghost use Rattle.man_table.specs.Table.{live};
ghost use Rattle.man_value.specs.Value.{value_in};
ghost use Rattle.man_lent.specs.Lent.{told_of};

use crate::types::Told;
use codec::command::SdoCommand;
use codec::sequence::SequenceLayerHeader;
use con_rec::{Mode, Now};
use man_table::types::{SdoClientManager, Turn};
use man_value::StorePart;
use manager::types::Done;
use manager::{next, reply, start, turn};

pub mod types;

// Keeps the manager that a call left, and tells the rest.
fn kept(m: &mut SdoClientManager, d: Done) -> Told
    ensures value { result ≡ told_of d }
    ensures manager_after { m.new ≡ d.manager }
{
    *m = d.manager;
    Told {
        answer: d.answer,
        ends: d.ends,
    }
}

// Starts a concise DCF job for a node.
pub fn start_configuration_download(
    m: &mut SdoClientManager,
    target: u8,
    mode: Mode,
    dcf: &[u8],
    when: Now,
    store: &mut [u8],
) -> Told
    ensures value { result ≡ told_of (called m.old store.old [] (starts target (loads mode dcf.now) «when»)).done }
    ensures manager_after { m.new ≡ (called m.old store.old [] (starts target (loads mode dcf.now) «when»)).done.manager }
    ensures store_after { store.new ≡ (called m.old store.old [] (starts target (loads mode dcf.now) «when»)).store }
{
    let d = start::start_configuration_download(*m, target, mode, dcf, when, store);
    kept(m, d)
}

// Starts a job that writes an object of a node.
pub fn write_object_by_index(
    m: &mut SdoClientManager,
    target: u8,
    mode: Mode,
    index: u16,
    sub_index: u8,
    bytes: &[u8],
    when: Now,
    store: &mut [u8],
) -> Told
    ensures value { result ≡ told_of (called m.old store.old [] (starts target (writes mode index sub_index bytes.now) «when»)).done }
    ensures manager_after { m.new ≡ (called m.old store.old [] (starts target (writes mode index sub_index bytes.now) «when»)).done.manager }
    ensures store_after { store.new ≡ (called m.old store.old [] (starts target (writes mode index sub_index bytes.now) «when»)).store }
{
    let d = start::write_object_by_index(*m, target, mode, index, sub_index, bytes, when, store);
    kept(m, d)
}

// Starts a job that reads an object of a node.
pub fn read_object_by_index(
    m: &mut SdoClientManager,
    target: u8,
    mode: Mode,
    index: u16,
    sub_index: u8,
    when: Now,
    store: &[u8],
) -> Told
    ensures value { result ≡ told_of (called m.old store.now [] (starts target (reads mode index sub_index) «when»)).done }
    ensures manager_after { m.new ≡ (called m.old store.now [] (starts target (reads mode index sub_index) «when»)).done.manager }
{
    let d = start::read_object_by_index(*m, target, mode, index, sub_index, when, store);
    kept(m, d)
}

// Takes a command from a node: its sequence header, the command and its payload. Where it ends a read Complete the answer is the part of the store that
// holds the data.
pub fn handle_response(
    m: &mut SdoClientManager,
    source: u8,
    seq: SequenceLayerHeader,
    cmd: SdoCommand,
    payload: &[u8],
    store: &mut [u8],
) -> Told
    ensures value { result ≡ told_of (called m.old store.old [] (replies source seq cmd payload.now)).done }
    ensures manager_after { m.new ≡ (called m.old store.old [] (replies source seq cmd payload.now)).done.manager }
    ensures store_after { store.new ≡ (called m.old store.old [] (replies source seq cmd payload.now)).store }
{
    let d = reply::handle_response(*m, source, seq, cmd, payload, store);
    kept(m, d)
}

// Hands out the part of the store that a reply answered. Call it before the next start, reply, tick or ask: they may use its bytes again. It needs no
// manager and refuses nothing; a part that does not lie within the store comes back empty.
pub fn value_in(store: &[u8], at: StorePart) -> &[u8]
    ensures { result.now ≡ value_in store.now at }
{
    man_value::value_in(store, at)
}

// What is to be sent next, to whom, its payload at the start of the output; and the jobs that are done. Call it when a frame can go
// out.
pub fn get_pending_request(
    m: &mut SdoClientManager,
    when: Now,
    store: &[u8],
    output: &mut [u8],
) -> Told
    ensures value { result ≡ told_of (called m.old store.now output.old (turns Turn.Asking «when»)).done }
    ensures manager_after { m.new ≡ (called m.old store.now output.old (turns Turn.Asking «when»)).done.manager }
    ensures output_after { output.new ≡ (called m.old store.now output.old (turns Turn.Asking «when»)).output }
{
    let d = turn::get_pending_request(*m, when, store, output);
    kept(m, d)
}

// What the deadlines that have passed bring about: a repeat or an abort to send, and ends. Call it when next_action_time has come.
pub fn tick(m: &mut SdoClientManager, when: Now, store: &[u8], output: &mut [u8]) -> Told
    ensures value { result ≡ told_of (called m.old store.now output.old (turns Turn.Ticking «when»)).done }
    ensures manager_after { m.new ≡ (called m.old store.now output.old (turns Turn.Ticking «when»)).done.manager }
    ensures output_after { output.new ≡ (called m.old store.now output.old (turns Turn.Ticking «when»)).output }
{
    let d = turn::tick(*m, when, store, output);
    kept(m, d)
}

// The least deadline of the connections held, or none: when the host should call tick next.
pub fn next_action_time(m: &SdoClientManager) -> Option<u64>
    ensures { result ≡ least_deadline (live m.now) }
{
    next::next_action_time(*m)
}
