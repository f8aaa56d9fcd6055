// What the programs read, until a buffer is full; and what they write to standard output: a value or `-`, bytes in hex, frames. No contract can say what is
// written.
#![tactic(auto)]

ghost use Rattle.std.specs.Prelude.{◌≤◌, length};

use codec::command::SdoCommand;
use codec::octets::part;
use codec::sequence::SequenceLayerHeader;
use std::io::Read;
use std::{fmt, io};

// A value, or `-` for none.
#[derive(Clone, Copy)]
pub struct OrDash<T>(pub Option<T>);

impl<T: fmt::Display> fmt::Display for OrDash<T> {
    fn fmt<W: fmt::Write>(&self, f: &mut fmt::Formatter<W>) -> fmt::Result {
        match &self.0 {
            Some(x) => write!(f, "{x}"),
            None => write!(f, "-"),
        }
    }
}

// Reads until the buffer is full, the input ends or a read fails, and answers how many bytes there are at the buffer's start then.
pub fn read_full(from: &mut impl Read, buf: &mut [u8]) -> usize
    ensures { result ≤ length buf.new }
{
    let mut done: usize = 0;
    // `read_exact` does not tell how many bytes came before it failed
    while done < buf.len() {
        match from.read(&mut buf[done..]) {
            Ok(0) | Err(_) => break,
            Ok(n) => done += n,
        }
    }
    done
}

// Bytes in hex.
pub fn octets(rt: &impl Print, b: &[u8]) -> io::Result<()>
    ensures { Unit {0} }
{
    for x in b {
        print!(rt; "{x:02x}")?;
    }
    Ok(())
}

// The bytes of a frame: sequence header, and a command of at most 1,464 bytes.
pub fn frame(
    rt: &impl Print,
    sequence: SequenceLayerHeader,
    command: SdoCommand,
    payload: &[u8],
) -> io::Result<()>
    ensures { Unit {0} }
{
    let mut header = [0u8; 4];
    let mut bytes = [0u8; 1464];
    let _ = sequence.serialize(&mut header);
    octets(rt, &header)?;
    let Ok(n) = command.serialize(payload, &mut bytes) else {
        return Ok(());
    };
    octets(rt, part(&bytes, 0, n))
}
