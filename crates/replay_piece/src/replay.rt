// The records of a piece, one after another.
ghost use Rattle.std.specs.Prelude.{◌≡◌, false, ◌+◌, ◌-◌, ◌≤◌, length};
ghost use Rattle.codec.specs.Bytes.{placed};
ghost use Rattle.replay_line.specs.Line.{most_line};
ghost use Rattle.manager.specs.Plan.{plan_done};
ghost use Rattle.replay_record.specs.Request.{asked_plan, record_asks};
ghost use Rattle.replay_piece.specs.Moves.{moved_line, moved_run, moves as moves_by};
ghost use Rattle.replay_piece.specs.Piece.{piece_of, last_by, value_after};

use crate::types::{LastValue, Progress, Run, Settings, Shows};
use man_table::sweep::swept;
use man_table::types::{Entry, SdoClientManager};
use man_value::object_of;
use manager::change::number_after;
use manager::plan::carry_out;
use manager::types::{Answer, Done, Plan};
use replay_line::line::{MOST_LINE, write_line, write_quiet_line};
use replay_line::value::{node_of, write_value};
use replay_record::plan::{Choices, RecordPlan, plan_record};
use replay_record::record::RECORD_SIZE;

// The most records that are read.
const MOST_RECORDS: u16 = 65535;

fn last_by(answer: Answer, p: Progress) -> Option<LastValue>
    ensures { result ≡ last_by answer p.number p.value }
{
    match answer {
        Answer::Value(at) => Some(LastValue {
            record: p.number,
            at,
        }),
        _ => p.value,
    }
}

// The last value after a record by which so many jobs ended. A value comes only with an end, so mostly the answer need not be looked at.
fn value_after(ended: usize, answer: Answer, p: Progress) -> Option<LastValue>
    ensures { result ≡ value_after ended answer p.number p.value }
{
    if ended == 0 {
        return p.value;
    }
    last_by(answer, p)
}

// A record whose plan is carried out by value: it moves the manager, or values are shown.
fn moved(
    run: Run,
    shows: Shows,
    plan: Plan,
    b: &[u8],
    store: &[u8],
    output: &mut [u8],
    text: &mut [u8],
) -> Run
    requires { run.progress.text + most_line ≤ length text.old }
    ensures value { result ≡ moved_run run shows plan b.now store.now output.old }
    ensures output_after { output.new ≡ (plan_done plan run.manager store.now output.old).output }
    ensures text_after { text.new ≡ placed text.old run.progress.text (moved_line run shows plan b.now store.now output.old) }
    ensures lengths_unchanged { (length output.new ≡ length output.old) × (length text.new ≡ length text.old) }
{
    let Run {
        manager: m,
        progress: r,
    } = run;
    let Done {
        manager,
        answer,
        ends,
    } = carry_out(m, plan, store, output);
    let value = value_after(ends.count, answer, r);
    if let Shows::Values = shows {
        let object = object_of(m, node_of(b));
        let n = write_value(text, r.text, r.number, b, object, answer, store).unwrap();
        return Run {
            manager,
            progress: Progress {
                text: r.text + n,
                value,
                ..r
            },
        };
    }
    let n = write_line(text, r.text, r.number, b, answer, ends, output).unwrap();
    Run {
        manager,
        progress: Progress {
            text: r.text + n,
            value,
            ..r
        },
    }
}

// Whether a record's plan is carried out by value: it moves the manager, or values are shown.
fn moves(shows: Shows, plan: Plan) -> bool
    ensures { result ≡ moves_by shows plan }
{
    let Shows::Lines = shows else {
        return true;
    };
    let Plan::Change(change) = plan else {
        return true;
    };
    match change.entry {
        Entry::Nowhere => false,
        Entry::At(_, c) => c.end().is_some(),
        Entry::New(_) => true,
    }
}

// A record's plan for a manager, which has eight places; the slices stay as long as they are.
fn plan_of(
    m: SdoClientManager,
    gathered: usize,
    choices: Choices,
    b: &[u8],
    store: &mut [u8],
    gather: &mut [u8],
    output: &mut [u8],
) -> RecordPlan
    ensures value { result ≡ (asked_plan m store.old output.old (record_asks gathered b.now choices gather.old)).plan }
    ensures store_after { store.new ≡ (asked_plan m store.old output.old (record_asks gathered b.now choices gather.old)).store }
    ensures gather_after { gather.new ≡ (asked_plan m store.old output.old (record_asks gathered b.now choices gather.old)).gather }
    ensures output_after { output.new ≡ (asked_plan m store.old output.old (record_asks gathered b.now choices gather.old)).output }
    ensures connections_len { length m.connections ≡ 8 }
    ensures lengths_unchanged { (length store.new ≡ length store.old) × ((length gather.new ≡ length gather.old) × (length output.new ≡ length output.old)) }
{
    plan_record(m, gathered, b, choices, store, gather, output)
}

// The records of a piece, as many as the text has room for, and no more than 65,535 in all: where the run is after them. Where lines are shown, most leave
// the manager where it is, and change one connection of it at most; where values are shown, each is carried out by value. A store, gather buffer or output of another size is each record's refusal, 9 or 1. What is left
// at the end of a piece is a short record: pieces but the last have whole ones.
pub fn replay_piece(
    run: Run,
    settings: Settings,
    input: &[u8],
    store: &mut [u8],
    gather: &mut [u8],
    output: &mut [u8],
    text: &mut [u8],
) -> Run
    ensures value { result ≡ (piece_of run settings input.now store.old gather.old output.old text.old).run }
    ensures store_after { store.new ≡ (piece_of run settings input.now store.old gather.old output.old text.old).store }
    ensures gather_after { gather.new ≡ (piece_of run settings input.now store.old gather.old output.old text.old).gather }
    ensures output_after { output.new ≡ (piece_of run settings input.now store.old gather.old output.old text.old).output }
    ensures text_after { text.new ≡ (piece_of run settings input.now store.old gather.old output.old text.old).text }
{
    // a text so long has no room for a line more
    let full = text.len().saturating_sub(MOST_LINE - 1);
    let mut m = swept(run.manager);
    let mut r = Progress {
        read: 0,
        ..run.progress
    };
    for b in input.chunks(RECORD_SIZE) {
        if r.number == MOST_RECORDS || full <= r.text {
            break;
        }
        let RecordPlan { plan, gathered } = plan_of(
            m,
            r.gathered,
            settings.choices,
            b,
            store,
            gather,
            output,
        );
        r.read += b.len();
        r.number += 1;
        r.gathered = gathered;
        if moves(settings.shows, plan) {
            let counted = Run {
                manager: m,
                progress: r,
            };
            let after = moved(counted, settings.shows, plan, b, store, output, text);
            m = after.manager;
            r = after.progress;
            continue;
        }
        let Plan::Change(change) = plan else {
            // any other moves the manager
            unreachable!();
        };
        if let Entry::At(place, c) = change.entry {
            if place < m.count {
                m.connections[place] = c;
            }
        }
        m.next_transaction_id = number_after(change, m.next_transaction_id);
        // the line has room
        r.text += write_quiet_line(text, r.text, r.number, b, change.answer, output).unwrap();
    }
    Run {
        manager: m,
        progress: r,
    }
}
