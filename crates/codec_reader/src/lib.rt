// A reader of a concise DCF (document 01, "Bytes"): a struct that holds the lent DCF and the place in it. Whoever calls `entry_at` or `entry_of`,
// which take a plain slice and a place or a number, needs no struct that holds a reference.
#![tactic(auto)]

ghost use Rattle.std.specs.Prelude.{◌≡◌};
ghost use Rattle.codec_reader.specs.Place.{entry_of, stepped_from};
ghost use Rattle.codec_reader.specs.Reader.{reader_of, found_by, moved_on};

use codec::dcf::{DcfCursor, DcfStep, dcf_count, dcf_step};

// The DCF, where its next entry begins, and how many are still counted.
#[derive(Clone, Copy)]
pub struct DcfReader<'a> {
    pub dcf: &'a [u8],
    pub place: DcfCursor,
}

// What a step found, and the place after it: past an entry, and else where it was.
#[derive(Clone, Copy, PartialEq, Eq)]
pub struct Stepped {
    pub found: DcfStep,
    pub place: DcfCursor,
}

// A reader at the first entry of a DCF. Of one under four bytes no entry is counted.
pub fn reader_of<'a>(dcf: &'a [u8]) -> DcfReader<'a>
    ensures { result ≡ reader_of dcf.entry }
{
    let left = dcf_count(dcf).unwrap_or(0);
    DcfReader {
        dcf,
        place: DcfCursor { at: 4, left },
    }
}

impl<'a> DcfReader<'a> {
    // What stands at the reader's place. The reader moves past an entry, and stays at End and at Unreadable.
    pub fn next_entry(&mut self) -> DcfStep
        ensures { (result ≡ found_by self.old) × (self.new ≡ moved_on self.old) }
    {
        let found = dcf_step(self.dcf, self.place);
        if let DcfStep::Entry { next, .. } = found {
            self.place = next;
        }
        found
    }
}

// What a reader at a place finds there, and where it stands then: a step of the reader, for whoever holds none.
pub fn entry_at(dcf: &[u8], place: DcfCursor) -> Stepped
    ensures { result ≡ stepped_from dcf.now place }
{
    let mut reader = DcfReader { dcf, place };
    let found = reader.next_entry();
    Stepped {
        found,
        place: reader.place,
    }
}

// The n-th readable entry of a DCF, counted from 0, and the place after it. Where there is none: End or Unreadable, whichever the readable
// entries stop at, and the place where they do.
pub fn entry_of(dcf: &[u8], n: u32) -> Stepped
    ensures { result ≡ entry_of dcf.now n }
{
    let mut step = entry_at(dcf, reader_of(dcf).place);
    for _i in 0..n {
        let DcfStep::Entry { .. } = step.found else {
            return step;
        };
        step = entry_at(dcf, step.place);
    }
    step
}
