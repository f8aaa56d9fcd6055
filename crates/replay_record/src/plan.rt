// For a loop over records that keeps the manager where it is: the plan of a record. The store, the gather's bytes and the output are ahead of it.
ghost use Rattle.std.specs.Prelude.{◌≡◌, [], ◌≤◌, length};
ghost use Rattle.manager.specs.Change.{same as same_of};
ghost use Rattle.manager.specs.Plan.{plan_of};
ghost use Rattle.replay_record.specs.Request.{reply_header, reply_command, use_call, operation_asks, record_asks, asked_plan};

use crate::gather::{GATHER_SIZE, Gathered, MOST_GATHERED, gather_more};
use crate::record::{Operation, Record, Use, read_record};
use codec::command::{CommandId, CommandLayerHeader, SdoCommand, Segmentation};
use codec::octets::{part, put};
use codec::refusal::Refusal;
use codec::sequence::{ReceiveConnState, SendConnState, SequenceLayerHeader};
use con_rec::numbers::at_most;
use con_rec::{Mode, Now};
use man_table::types::SdoClientManager;
use manager::change::same;
use manager::change_reply::reply_change;
use manager::change_start::{load_change, read_change, write_change};
use manager::plan::plan_turn;
use manager::types::{Answer, Plan};

// What is chosen for all records of a run: the mode of each start, timeout and retries.
#[derive(Clone, Copy)]
pub struct Choices {
    pub mode: Mode,
    pub timeout: Option<u32>,
    pub retries: Option<u32>,
}

// A record's plan, and how many bytes are gathered after it.
#[derive(Clone, Copy)]
pub struct RecordPlan {
    pub plan: Plan,
    pub gathered: usize,
}

// An answer of the replay's own: the manager stays.
fn answered(answer: Answer, gathered: usize) -> RecordPlan
    ensures { result ≡ record { plan = Plan.Change (same_of answer); gathered = gathered } }
{
    RecordPlan {
        plan: Plan::Change(same(answer)),
        gathered,
    }
}

fn reply_header(index: u16) -> SequenceLayerHeader
    ensures { result ≡ reply_header index }
{
    // not `to_le_bytes`: of its second byte std says / 256 % 256, and the proof did not close
    let octets = [(index % 256) as u8, (index / 256) as u8, 0, 0];
    // four bytes are a header
    SequenceLayerHeader::deserialize(&octets).unwrap()
}

fn reply_command(flags: u8) -> SdoCommand
    ensures { result ≡ reply_command flags }
{
    let octets = [0, 0, flags, 0, 0, 0, 0, 0, 0, 0, 0, 0];
    // twelve bytes that begin with a Nil command are one
    let found = SdoCommand::deserialize(&octets).unwrap();
    SdoCommand {
        header: found.command.header,
        data_size: None,
    }
}

// The plan of operations 1, 3 and 4.
fn plan_use(
    u: Use,
    mode: Mode,
    r: Record,
    m: SdoClientManager,
    when: Now,
    bytes: &[u8],
    store: &mut [u8],
) -> Plan
    ensures value { result ≡ (plan_of m store.old [] (use_call u mode r «when» bytes.now)).plan }
    ensures store_after { store.new ≡ (plan_of m store.old [] (use_call u mode r «when» bytes.now)).store }
{
    match u {
        Use::Write => {
            Plan::Change(write_change(m, r.node, mode, r.index, r.sub_index, bytes, when, store))
        }
        Use::Dcf => Plan::Change(load_change(m, r.node, mode, bytes, when, store)),
        Use::Reply => {
            let seq = reply_header(r.index);
            let cmd = reply_command(r.flags);
            Plan::Change(reply_change(m, r.node, seq, cmd, bytes, store))
        }
    }
}

fn perform(
    mode: Mode,
    r: Record,
    m: SdoClientManager,
    already: usize,
    when: Now,
    own: &[u8],
    store: &mut [u8],
    gather: &mut [u8],
    output: &mut [u8],
) -> RecordPlan
    requires { (already ≤ 4096) × (length own.now ≤ 16) × (4112 ≤ length gather.old) }
    ensures value { result ≡ (asked_plan m store.old output.old (operation_asks r.operation mode r already «when» own.now gather.old)).plan }
    ensures store_after { store.new ≡ (asked_plan m store.old output.old (operation_asks r.operation mode r already «when» own.now gather.old)).store }
    ensures gather_after { gather.new ≡ (asked_plan m store.old output.old (operation_asks r.operation mode r already «when» own.now gather.old)).gather }
    ensures output_after { output.new ≡ (asked_plan m store.old output.old (operation_asks r.operation mode r already «when» own.now gather.old)).output }
{
    match r.operation {
        Operation::Uses(u) => {
            let _ = put(gather, already, own);
            let n = already + own.len();
            RecordPlan {
                plan: plan_use(u, mode, r, m, when, part(gather, 0, n), store),
                gathered: 0,
            }
        }
        Operation::Read => RecordPlan {
            plan: Plan::Change(read_change(m, r.node, mode, r.index, r.sub_index, when, store)),
            gathered: already,
        },
        Operation::Turns(t) => RecordPlan {
            plan: plan_turn(t, m, when, store, output),
            gathered: already,
        },
        Operation::Gather => {
            let Gathered { answer, gathered } = gather_more(already, own, gather);
            answered(answer, gathered)
        }
    }
}

// The plan of the record in the first 32 bytes: the manager's call, or a gather. 11 and 10 as of read_record, 7 for a gather past 4,096 bytes, 1 for a
// gather buffer under 4,112; then nothing has happened. Every other refusal is the library's own.
pub fn plan_record(
    m: SdoClientManager,
    gathered: usize,
    b: &[u8],
    choices: Choices,
    store: &mut [u8],
    gather: &mut [u8],
    output: &mut [u8],
) -> RecordPlan
    ensures value { result ≡ (asked_plan m store.old output.old (record_asks gathered b.now choices gather.old)).plan }
    ensures store_after { store.new ≡ (asked_plan m store.old output.old (record_asks gathered b.now choices gather.old)).store }
    ensures gather_after { gather.new ≡ (asked_plan m store.old output.old (record_asks gathered b.now choices gather.old)).gather }
    ensures output_after { output.new ≡ (asked_plan m store.old output.old (record_asks gathered b.now choices gather.old)).output }
{
    let Choices {
        mode,
        timeout,
        retries,
    } = choices;
    let already = at_most(gathered, MOST_GATHERED);
    if gather.len() < GATHER_SIZE {
        return answered(Answer::Refused(Refusal::BufferTooShort), already);
    }
    match read_record(b) {
        Err(why) => answered(Answer::Refused(why), already),
        Ok(r) => {
            let when = Now {
                time: r.time,
                timeout,
                retries,
            };
            let own = part(b, 16, r.length as usize);
            perform(mode, r, m, already, when, own, store, gather, output)
        }
    }
}
