// The concise DCF by numbers: its count, and what stands at a cursor.
ghost use Rattle.std.specs.Prelude.{◌≡◌};
ghost use Rattle.codec.specs.Dcf.{dcf_count, dcf_step};
ghost use Rattle.ostelumiv.specs.Dcf.{count_fields, no_entry, step_fields};

use crate::answers::{CountFields, count_refused};
use codec::dcf::{DcfCursor, DcfStep, dcf_count, dcf_step};

#[repr(C)]
#[derive(Clone, Copy, Default)]
pub struct StepFields {
    pub kind: u8,
    pub sub_index: u8,
    pub index: u16,
    pub start: usize,
    pub len: usize,
    pub next_at: usize,
    pub next_left: u32,
}

// A step that finds no entry, and which kind of none it is.
fn no_entry(kind: u8) -> StepFields
    ensures { result ≡ no_entry kind }
{
    StepFields {
        kind,
        ..StepFields::default()
    }
}

// How many entries a DCF counts.
#[unsafe(no_mangle)]
pub extern "C" fn ostelumiv_dcf_count(dcf: &[u8]) -> CountFields
    ensures { result ≡ count_fields (dcf_count dcf.now) }
{
    match dcf_count(dcf) {
        Ok(n) => CountFields {
            refusal: 0,
            count: n as usize,
        },
        Err(r) => count_refused(r),
    }
}

// What stands at a cursor of a DCF.
#[unsafe(no_mangle)]
pub extern "C" fn ostelumiv_dcf_step(dcf: &[u8], at: usize, left: u32) -> StepFields
    ensures { result ≡ step_fields (dcf_step dcf.now (record { at = at; left = left })) }
{
    match dcf_step(dcf, DcfCursor { at, left }) {
        DcfStep::Entry { entry, next } => StepFields {
            kind: 1,
            sub_index: entry.sub_index,
            index: entry.index,
            start: entry.start,
            len: entry.len as usize,
            next_at: next.at,
            next_left: next.left,
        },
        DcfStep::End => no_entry(0),
        DcfStep::Unreadable => no_entry(2),
    }
}
