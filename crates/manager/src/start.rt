// Starts: a job for a node, on the connection it has or on a new one. Refusals 9, 6, 4, 5, 7, 8, in this order.
ghost use Rattle.std.specs.Prelude.{◌≡◌, []};
ghost use Rattle.manager.specs.Calls.{called, starts, writes, reads, loads};

use crate::change::apply_change;
use crate::change_start::{load_change, read_change, write_change};
use crate::types::Done;
use con_rec::{Mode, Now};
use man_table::types::SdoClientManager;

// Starts a concise DCF job for a node. 9 for a store that isn't 32,768 bytes, 6 for a ninth node, 4 where its job is running, 5 for a DCF under
// four bytes, 7 for one over 4,096, 8 where the deadline does not fit; then nothing has happened, but 4 and 5 take a transaction number, and 5
// enters an Idle connection for a new node.
pub fn start_configuration_download(
    m: SdoClientManager,
    target: u8,
    mode: Mode,
    dcf: &[u8],
    when: Now,
    store: &mut [u8],
) -> Done
    ensures value { result ≡ (called m store.old [] (starts target (loads mode dcf.now) «when»)).done }
    ensures store_after { store.new ≡ (called m store.old [] (starts target (loads mode dcf.now) «when»)).store }
{
    apply_change(m, load_change(m, target, mode, dcf, when, store))
}

// Starts a job that writes an object of a node. 9, 6, 4 and 8 as of a DCF, 7 where its data and the 4 bytes ahead of them go past 4,096; then
// nothing has happened, but 4 takes a transaction number.
pub fn write_object_by_index(
    m: SdoClientManager,
    target: u8,
    mode: Mode,
    index: u16,
    sub_index: u8,
    bytes: &[u8],
    when: Now,
    store: &mut [u8],
) -> Done
    ensures value { result ≡ (called m store.old [] (starts target (writes mode index sub_index bytes.now) «when»)).done }
    ensures store_after { store.new ≡ (called m store.old [] (starts target (writes mode index sub_index bytes.now) «when»)).store }
{
    apply_change(
        m,
        write_change(m, target, mode, index, sub_index, bytes, when, store),
    )
}

// Starts a job that reads an object of a node. 9, 6, 4 and 8 as of a write.
pub fn read_object_by_index(
    m: SdoClientManager,
    target: u8,
    mode: Mode,
    index: u16,
    sub_index: u8,
    when: Now,
    store: &[u8],
) -> Done
    ensures { result ≡ (called m store.now [] (starts target (reads mode index sub_index) «when»)).done }
{
    apply_change(
        m,
        read_change(m, target, mode, index, sub_index, when, store),
    )
}
