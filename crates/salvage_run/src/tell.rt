// What is told of a repair, in a line.
use codec_salvage::Salvaged;
use console::OrDash;
use std::fmt;

// Old count, new count, bytes dropped, and the offset of the first of them or `-`.
#[derive(Clone, Copy)]
pub(crate) struct Told(pub Salvaged);

impl fmt::Display for Told {
    fn fmt<W: fmt::Write>(&self, f: &mut fmt::Formatter<W>) -> fmt::Result {
        let Salvaged {
            old_count,
            new_count,
            dropped,
            first_dropped,
            ..
        } = self.0;
        let first = OrDash(first_dropped);
        write!(f, "{old_count} {new_count} {dropped} {first}")
    }
}
