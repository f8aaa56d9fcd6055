// The repair of one DCF, for a pipe.
ghost use Rattle.std.specs.Prelude.{◌≤◌, IfOk, length};

use crate::tell::Told;
use codec::octets::part;
use codec_salvage::{MOST_SALVAGED, Salvaged, salvage};
use std::io;
use std::io::Read;

// With one byte more than the longest DCF it is known that there are more.
const INPUT_SIZE: usize = 4097;

// Reads until the buffer is full or the input ends, and answers how many bytes there are then. A DCF of which only a part was read looks like one that
// lost its tail, so a read that fails is an error here.
fn read_input(from: &mut impl Read, input: &mut [u8]) -> io::Result<usize>
    ensures { IfOk result (λ n. n ≤ length input.new) }
{
    let mut n: usize = 0;
    // `read_exact` does not tell how many bytes there were
    while n < input.len() {
        match from.read(&mut input[n..])? {
            0 => break,
            got => n += got,
        }
    }
    Ok(n)
}

// The repaired DCF, and what is told of it where it went out.
fn hand_out(rt: &(impl Print + Eprint), told: Salvaged, output: &[u8]) -> io::Result<()> {
    if rt.write_all(part(output, 0, told.length)).is_err() {
        return rt.eprintln("cannot write to standard output");
    }
    rt.eprintln(Told(told))
}

// Repairs the DCF that is read, the whole input. The repaired one goes to standard output, what is told of it to standard error; a refusal goes there alone.
pub fn salvage_one(rt: &(impl Print + Eprint), from: &mut impl Read) -> io::Result<()>
    ensures { Unit {0} }
{
    let mut input = [0u8; INPUT_SIZE];
    let mut output = [0u8; MOST_SALVAGED];
    let Ok(n) = read_input(from, &mut input) else {
        return rt.eprintln("cannot read standard input");
    };
    match salvage(&input[..n], &mut output) {
        Ok(told) => hand_out(rt, told, &output),
        Err(r) => rt.eprintln(u8::from(r)),
    }
}
