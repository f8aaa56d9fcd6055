// For the replay's loop, which keeps the manager where it is; a panel uses start. What a start changes of the manager: the job's bytes are in the store
// when it is told. Refusals 9, 6, 4, 5, 7, 8, in this order.
ghost use Rattle.std.specs.Prelude.{◌≡◌};
ghost use Rattle.manager.specs.Calls.{writes, reads, loads, takes_number, idle_of, with_connection, seat_of, started_as, start_of};

use crate::change::{same, taking};
use crate::room::{dcf_in, write_in};
use crate::types::{Answer, Change};
use codec::refusal::Refusal;
use con_rec::numbers::next_transaction;
use con_rec::{Mode, Now, SdoClientConnection};
use connection::start::start_read_job;
use man_table::held::target_of;
use man_table::types::{Entry, STORE_SIZE, SdoClientManager};

// 4 and 5 take a transaction number.
fn takes_number(r: Refusal) -> bool
    ensures { result ≡ takes_number r }
{
    matches!(r, Refusal::Busy | Refusal::DcfTooShort)
}

// Another connection where one stands.
fn with_connection(entry: Entry, d: SdoClientConnection) -> Entry
    ensures { result ≡ with_connection entry d }
{
    match entry {
        Entry::At(place, _) => Entry::At(place, d),
        Entry::New(_) => Entry::New(d),
        Entry::Nowhere => Entry::Nowhere,
    }
}

// A refusal that takes a number enters a new node's connection, Idle.
fn idle_of(entry: Entry) -> Entry
    ensures { result ≡ idle_of entry }
{
    match entry {
        Entry::At(_, _) => Entry::Nowhere,
        Entry::New(c) => Entry::New(c),
        Entry::Nowhere => Entry::Nowhere,
    }
}

// What a start changes, by its connection's answer.
fn started(a: Result<SdoClientConnection, Refusal>, entry: Entry) -> Change
    ensures { result ≡ started_as a entry }
{
    match a {
        Ok(d) => taking(with_connection(entry, d), Answer::Nothing),
        Err(r) => {
            if takes_number(r) {
                return taking(idle_of(entry), Answer::Refused(r));
            }
            same(Answer::Refused(r))
        }
    }
}

// The connection that a start's job goes to, or 6.
fn seat_of(entry: Entry) -> Result<SdoClientConnection, Refusal>
    ensures { result ≡ seat_of entry }
{
    match entry {
        Entry::At(_, c) => Ok(c),
        Entry::New(c) => Ok(c),
        Entry::Nowhere => Err(Refusal::TableFull),
    }
}

// The three starts stand side by side: a closure that borrows the store, where a full table leaves it uncalled, says nothing of the store after it.

// What the start of a concise DCF job for a node changes.
pub fn load_change(
    m: SdoClientManager,
    target: u8,
    mode: Mode,
    dcf: &[u8],
    when: Now,
    store: &mut [u8],
) -> Change
    ensures value { result ≡ (start_of m target (loads mode dcf.now) «when» store.old).change }
    ensures store_after { store.new ≡ (start_of m target (loads mode dcf.now) «when» store.old).store }
{
    let entry = target_of(m, target);
    let number = next_transaction(m.next_transaction_id);
    let Some(store) = store.as_mut_array() else {
        return same(Answer::Refused(Refusal::WrongStore));
    };
    match seat_of(entry) {
        Ok(c) => started(dcf_in(c, mode, dcf, number, when, store), entry),
        Err(r) => same(Answer::Refused(r)),
    }
}

// What the start of a job that writes an object of a node changes.
pub fn write_change(
    m: SdoClientManager,
    target: u8,
    mode: Mode,
    index: u16,
    sub_index: u8,
    bytes: &[u8],
    when: Now,
    store: &mut [u8],
) -> Change
    ensures value { result ≡ (start_of m target (writes mode index sub_index bytes.now) «when» store.old).change }
    ensures store_after { store.new ≡ (start_of m target (writes mode index sub_index bytes.now) «when» store.old).store }
{
    let entry = target_of(m, target);
    let number = next_transaction(m.next_transaction_id);
    let Some(store) = store.as_mut_array() else {
        return same(Answer::Refused(Refusal::WrongStore));
    };
    match seat_of(entry) {
        Ok(c) => started(
            write_in(c, mode, index, sub_index, bytes, number, when, store),
            entry,
        ),
        Err(r) => same(Answer::Refused(r)),
    }
}

// What the start of a job that reads an object of a node changes.
pub fn read_change(
    m: SdoClientManager,
    target: u8,
    mode: Mode,
    index: u16,
    sub_index: u8,
    when: Now,
    store: &[u8],
) -> Change
    ensures { result ≡ (start_of m target (reads mode index sub_index) «when» store.now).change }
{
    let entry = target_of(m, target);
    let number = next_transaction(m.next_transaction_id);
    if store.len() != STORE_SIZE {
        return same(Answer::Refused(Refusal::WrongStore));
    }
    match seat_of(entry) {
        Ok(c) => started(
            start_read_job(c, mode, index, sub_index, number, when),
            entry,
        ),
        Err(r) => same(Answer::Refused(r)),
    }
}
