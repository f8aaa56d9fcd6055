// The answers that several functions give: of a write, and of a count.
ghost use Rattle.std.specs.Prelude.{◌≡◌};
ghost use Rattle.ostelumiv.specs.Answers.{written_fields, count_refused};

use codec::refusal::Refusal;

#[repr(C)]
#[derive(Clone, Copy)]
pub struct WrittenFields {
    pub refusal: u8,
    pub bytes: usize,
}

#[repr(C)]
#[derive(Clone, Copy)]
pub struct CountFields {
    pub refusal: u8,
    pub count: usize,
}

pub(crate) fn written_fields(w: Result<usize, Refusal>) -> WrittenFields
    ensures { result ≡ written_fields w }
{
    match w {
        Ok(bytes) => WrittenFields { refusal: 0, bytes },
        Err(r) => WrittenFields {
            refusal: u8::from(r),
            bytes: 0,
        },
    }
}

pub(crate) fn count_refused(r: Refusal) -> CountFields
    ensures { result ≡ count_refused r }
{
    CountFields {
        refusal: u8::from(r),
        count: 0,
    }
}
