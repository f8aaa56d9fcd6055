// The repair of a concise DCF that lost its tail (document 02, CR 3): its readable entries, where they are, their number as the count, and nothing after.
#![tactic(auto)]

ghost use Rattle.std.specs.Prelude.{◌≡◌, ◌≤◌, length};
ghost use Rattle.codec.specs.Dcf.{count_of, readable_entries};
ghost use Rattle.codec.specs.Writing.{buffer_after};
ghost use Rattle.codec_salvage.specs.Salvage.{first_of, repaired, told_of, salvaged, output_after};

use codec::dcf::dcf_count;
use codec::octets::{octets32, part, put};
use codec::refusal::Refusal;
use codec_reader::entry_of;

// The longest DCF that is repaired.
pub const MOST_SALVAGED: usize = 4096;

// What a repair made: how many entries the old DCF counted and the new one has, the length of the new one, and what is dropped of the old one.
#[derive(Clone, Copy, PartialEq, Eq)]
pub struct Salvaged {
    pub old_count: u32,
    pub new_count: u32,
    pub length: usize,
    pub dropped: usize,
    pub first_dropped: Option<usize>,
}

#[tactic(auto, using(laws::proofs::Picks::is, laws::proofs::Picks::is_not))]
fn first_of(dropped: usize, length: usize) -> Option<usize>
    ensures { result ≡ first_of dropped length }
{
    if dropped == 0 { None } else { Some(length) }
}

// What a repair makes of a DCF that counts so many entries. No more are readable than are counted, so a reader that looks for the entry behind all
// these finds none, and stops behind the last that is readable.
fn told_of(dcf: &[u8], count: u32) -> Salvaged
    requires { (4 ≤ length dcf.now) × (count ≡ count_of dcf.now) }
    ensures { result ≡ told_of dcf.now }
{
    let stop = entry_of(dcf, count);
    let dropped = dcf.len() - stop.place.at;
    Salvaged {
        old_count: count,
        new_count: count - stop.place.left,
        length: stop.place.at,
        dropped,
        first_dropped: first_of(dropped, stop.place.at),
    }
}

// Puts the repaired DCF: how many entries it has, and these as they stand in the old one.
fn put_repaired(dcf: &[u8], new_count: u32, end: usize, output: &mut [u8])
    requires { (4 ≤ length dcf.now) × (new_count ≡ length (readable_entries dcf.now)) × (end ≡ length (repaired dcf.now)) × (end ≤ length output.old) }
    ensures { output.new ≡ buffer_after (repaired dcf.now) output.old }
{
    let _ = put(output, 0, &octets32(new_count));
    let _ = put(output, 4, part(dcf, 4, end - 4));
}

// Repairs a DCF into the output; the rest of the output stays as it was. Refusals: 5 under four bytes, 7 over 4,096, 1 where it does not fit the
// output; then nothing is written.
pub fn salvage(dcf: &[u8], output: &mut [u8]) -> Result<Salvaged, Refusal>
    ensures value { result ≡ salvaged dcf.now output.old }
    ensures output_after { output.new ≡ output_after dcf.now output.old }
{
    let count = dcf_count(dcf)?;
    if MOST_SALVAGED < dcf.len() {
        return Err(Refusal::NoRoom);
    }
    let told = told_of(dcf, count);
    if output.len() < told.length {
        return Err(Refusal::BufferTooShort);
    }
    put_repaired(dcf, told.new_count, told.length, output);
    Ok(told)
}
