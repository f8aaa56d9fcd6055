// The replay (document 01, "Replay"): records of 32 bytes, a line for each; for comparisons each line is followed by the manager's state. And values
// (document 02, CR 1): the same records, a line for each read that ends Complete.
use crate::parameters::{Parameters, plain, read_parameters};
use crate::state::print_state;
use codec::octets::part;
use console::read_full;
use man_table::types::{STORE_SIZE, SdoClientManager};
use manager::types::OUTPUT_SIZE;
use replay_line::line::MOST_LINE;
use replay_piece::replay::replay_piece;
use replay_piece::types::{Progress, Run, Shows};
use replay_record::gather::GATHER_SIZE;
use replay_record::record::RECORD_SIZE;
use std::io;
use std::io::Read;

fn started() -> Run {
    Run {
        manager: SdoClientManager::new(),
        progress: Progress {
            gathered: 0,
            number: 0,
            read: 0,
            text: 0,
            value: None,
        },
    }
}

// The bytes that are read or written at a time: 2,048 records, and as much text.
const BUFFER_SIZE: usize = 65536;

// All text goes out.
fn written(rt: &impl Print, run: Run, text: &[u8; BUFFER_SIZE]) -> io::Result<Run> {
    rt.write_all(part(text, 0, run.progress.text))?;
    Ok(Run {
        progress: Progress {
            text: 0,
            ..run.progress
        },
        ..run
    })
}

// The text goes out where the longest line might not fit any more.
fn flushed(rt: &impl Print, run: Run, text: &[u8; BUFFER_SIZE]) -> io::Result<Run> {
    if run.progress.text <= BUFFER_SIZE - MOST_LINE {
        return Ok(run);
    }
    written(rt, run, text)
}

// What a run is lent: the store, the gather's bytes, the output and the text.
#[derive(Drop)]
struct Lent {
    store: [u8; STORE_SIZE],
    gather: [u8; GATHER_SIZE],
    output: [u8; OUTPUT_SIZE],
    text: [u8; BUFFER_SIZE],
}

// Some records: as many as the text has room for, or one, its line followed by the manager's state, where states are shown.
fn some(
    rt: &impl Print,
    run: Run,
    p: Parameters,
    input: &[u8],
    lent: &mut Lent,
) -> io::Result<Run> {
    let most = if p.states { RECORD_SIZE } else { input.len() };
    let after = replay_piece(
        run,
        p.settings,
        &input[..input.len().min(most)],
        &mut lent.store,
        &mut lent.gather,
        &mut lent.output,
        &mut lent.text,
    );
    if !p.states {
        return flushed(rt, after, &lent.text);
    }
    if after.progress.read == 0 {
        return Ok(after);
    }
    let shown = written(rt, after, &lent.text)?;
    print_state(rt, after.manager, after.progress, &lent.store)?;
    Ok(shown)
}

// The records of a piece.
fn piece_by(
    rt: &impl Print,
    run: Run,
    p: Parameters,
    input: &[u8],
    lent: &mut Lent,
) -> io::Result<Run> {
    let mut r = run;
    let mut left = input;
    // how far a turn goes is its answer
    while !left.is_empty() {
        r = some(rt, r, p, left, lent)?;
        // none is read where 65,535 were
        if r.progress.read == 0 {
            break;
        }
        left = left.get(r.progress.read..).unwrap_or(&[]);
    }
    Ok(r)
}

// The records of the input, piece by piece, as far as it can be read. What cannot be written ends the run.
fn run_by(rt: &impl Print, from: &mut impl Read, p: Parameters) -> io::Result<()> {
    let mut lent = Lent {
        store: [0; STORE_SIZE],
        gather: [0; GATHER_SIZE],
        output: [0; OUTPUT_SIZE],
        text: [0; BUFFER_SIZE],
    };
    let mut input = [0u8; BUFFER_SIZE];
    let mut run = started();
    // 65,535 records lie in 32 pieces
    for _ in 0..32 {
        let n = read_full(from, &mut input);
        run = piece_by(rt, run, p, &input[..n], &mut lent)?;
        if n < BUFFER_SIZE || run.progress.read == 0 {
            break;
        }
    }
    written(rt, run, &lent.text)?;
    Ok(())
}

// A run. That its text cannot be written is told on standard error.
fn told_by(rt: &(impl Print + Eprint), from: &mut impl Read, p: Parameters) -> io::Result<()> {
    if run_by(rt, from, p).is_err() {
        return rt.eprintln("cannot write to standard output");
    }
    Ok(())
}

// Replays the input, in repository mode; timeout and retries are absent.
pub fn replay(rt: &(impl Print + Eprint), from: &mut impl Read) -> io::Result<()>
    ensures { Unit {0} }
{
    told_by(rt, from, plain(Shows::Lines))
}

// The value of each read that ends Complete, of the same records.
pub fn values(rt: &(impl Print + Eprint), from: &mut impl Read) -> io::Result<()>
    ensures { Unit {0} }
{
    told_by(rt, from, plain(Shows::Values))
}

// Replays the input with the parameters at its head, and shows the manager's state after each record. Where the byte of modes has
// bits that mean nothing, no record is read.
pub fn replay_states(rt: &(impl Print + Eprint), from: &mut impl Read) -> io::Result<()>
    ensures { Unit {0} }
{
    let Some(p) = read_parameters(from) else {
        return rt.eprintln("the eleventh byte ahead of the records must be 0 or 1");
    };
    told_by(rt, from, p)
}
