// The refusals of document 01's table "Numbers that refuse", and their numbers.
ghost use Rattle.std.specs.Prelude.{◌≡◌};
ghost use Rattle.codec.specs.Refusals.{refusal_number};

// Each refusal has the number that it is told by outside.
#[derive(Clone, Copy, PartialEq, Eq)]
pub enum Refusal {
    BufferTooShort = 1,
    InvalidEnumValue = 2,
    SdoInvalidCommandPayload = 3,
    Busy = 4,
    DcfTooShort = 5,
    TableFull = 6,
    NoRoom = 7,
    DeadlineRange = 8,
    WrongStore = 9,
    BadRecord = 10,
    ShortRecord = 11,
}

impl From<Refusal> for u8 {
    ghost from_gives = { λ r number. number ≡ refusal_number r };

    fn from(r: Refusal) -> u8 {
        r as u8
    }
}
