// The repair of many DCFs one after another, for comparisons: each with two bytes ahead of it, its length, low byte first. For each the line goes to
// standard output, and then the repaired DCF.
use crate::tell::Told;
use codec::octets::part;
use codec_salvage::{MOST_SALVAGED, Salvaged, salvage};
use console::read_full;
use std::io;
use std::io::Read;

// The longest DCF that two bytes of length can announce, and a byte more.
const BUFFER_SIZE: usize = 65536;

// The next DCF, read into the buffer.
fn read_next<'a>(from: &mut impl Read, input: &'a mut [u8]) -> Option<&'a [u8]> {
    let mut head = [0u8; 2];
    if read_full(from, &mut head) < 2 {
        return None;
    }
    let length = u16::from_le_bytes(head) as usize;
    if input.len() < length {
        return None;
    }
    let n = read_full(from, &mut input[..length]);
    Some(&input[..n])
}

fn show(rt: &impl Print, told: Salvaged, output: &[u8]) -> io::Result<()> {
    rt.println(Told(told))?;
    rt.write_all(part(output, 0, told.length))
}

fn one(rt: &impl Print, dcf: &[u8]) -> io::Result<()> {
    let mut output = [0u8; MOST_SALVAGED];
    match salvage(dcf, &mut output) {
        Ok(told) => show(rt, told, &output),
        Err(r) => rt.println(u8::from(r)),
    }
}

// Repairs the DCFs that are read, at most a million.
pub fn salvage_many(rt: &impl Print, from: &mut impl Read) -> io::Result<()>
    ensures { Unit {0} }
{
    let mut input = [0u8; BUFFER_SIZE];
    for _ in 0..1000000 {
        let Some(dcf) = read_next(from, &mut input) else {
            break;
        };
        one(rt, dcf)?;
    }
    Ok(())
}
