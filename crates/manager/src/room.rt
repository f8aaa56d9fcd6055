// Rooms: the 4,096 bytes of the store that a connection's job lies in, lent to the connection's own calls.
ghost use Rattle.std.specs.Prelude.{◌≡◌};
ghost use Rattle.con_reply.specs.Reply.{reply_of, replied, room_after};
ghost use Rattle.connection.specs.Start.{start_write, start_dcf};
ghost use Rattle.manager.specs.Calls.{writes, loads, with_room, started_store, replied_store};
ghost use Rattle.man_table.specs.Table.{room_in};

use codec::command::SdoCommand;
use codec::refusal::Refusal;
use codec::sequence::SequenceLayerHeader;
use con_rec::{Mode, Now, SdoClientConnection};
use con_reply::reply::handle_response;
use connection::start::{start_concise_dcf_job, start_write_job};
use man_table::types::{ROOM_SIZE, STORE_SIZE};
use man_value::room_start;

pub(crate) fn room_in(store: &[u8; STORE_SIZE], c: SdoClientConnection) -> &[u8]
    ensures { result.now ≡ room_in store.now c }
{
    let a = room_start(c);
    &store[a..a + ROOM_SIZE]
}

pub(crate) fn write_in(
    c: SdoClientConnection,
    mode: Mode,
    index: u16,
    sub_index: u8,
    bytes: &[u8],
    tid: u8,
    when: Now,
    store: &mut [u8; STORE_SIZE],
) -> Result<SdoClientConnection, Refusal>
    ensures value { result ≡ start_write c tid «when» mode index sub_index bytes.now (room_in store.old c) }
    ensures store_after { store.new ≡ started_store (start_write c tid «when» mode index sub_index bytes.now (room_in store.old c)) (writes mode index sub_index bytes.now) c store.old }
{
    let a = room_start(c);
    start_write_job(
        c,
        mode,
        index,
        sub_index,
        bytes,
        tid,
        when,
        &mut store[a..a + ROOM_SIZE],
    )
}

pub(crate) fn dcf_in(
    c: SdoClientConnection,
    mode: Mode,
    dcf: &[u8],
    tid: u8,
    when: Now,
    store: &mut [u8; STORE_SIZE],
) -> Result<SdoClientConnection, Refusal>
    ensures value { result ≡ start_dcf c tid «when» mode dcf.now (room_in store.old c) }
    ensures store_after { store.new ≡ started_store (start_dcf c tid «when» mode dcf.now (room_in store.old c)) (loads mode dcf.now) c store.old }
{
    let a = room_start(c);
    start_concise_dcf_job(c, mode, dcf, tid, when, &mut store[a..a + ROOM_SIZE])
}

pub(crate) fn reply_in(
    c: SdoClientConnection,
    seq: SequenceLayerHeader,
    cmd: SdoCommand,
    payload: &[u8],
    store: &mut [u8; STORE_SIZE],
) -> Result<SdoClientConnection, Refusal>
    ensures value { result ≡ replied (reply_of seq cmd payload.now c (room_in store.old c)) }
    ensures store_after { store.new ≡ replied_store (replied (reply_of seq cmd payload.now c (room_in store.old c))) (with_room store.old c (room_after (reply_of seq cmd payload.now c (room_in store.old c)) payload.now (room_in store.old c))) store.old }
{
    let a = room_start(c);
    handle_response(c, seq, cmd, payload, &mut store[a..a + ROOM_SIZE])
}
