// Numbers in bytes, low byte first; bytes put into a buffer; and a part of some bytes.
ghost use Rattle.std.specs.Prelude.{◌≡◌, ◌+◌, ◌*◌, ◌≤◌, length};
ghost use Rattle.codec.specs.Bytes.{le16_at, le32, le32_at, part_at, placed};
ghost use Rattle.codec.specs.Writing.{put_answer, put_buffer};

use crate::refusal::Refusal;

// A number of two parts, the low one first: two bytes, and two numbers of 16 or of 32 bits.
pub fn joined16(low: u8, high: u8) -> u16
    ensures { result ≡ low + high * 256 }
{
    low as u16 + high as u16 * 256
}

pub fn joined32(low: u16, high: u16) -> u32
    ensures { result ≡ low + high * 65536 }
{
    low as u32 + high as u32 * 65536
}

pub fn joined64(low: u32, high: u32) -> u64
    ensures { result ≡ low + high * 4294967296 }
{
    low as u64 + high as u64 * 4294967296
}

// The four bytes of a number.
pub type FourOctets = [u8; 4];

pub fn octets32(n: u32) -> FourOctets
    ensures { result ≡ le32 n }
{
    n.to_le_bytes()
}

// The number of two bytes at a place.
pub(crate) fn le16_at(b: &[u8], at: usize) -> u16
    requires { at + 2 ≤ length b.now }
    ensures { result ≡ le16_at b.now at }
{
    joined16(b[at], b[at + 1])
}

// The number of four bytes at a place.
pub(crate) fn le32_at(b: &[u8], at: usize) -> u32
    requires { at + 4 ≤ length b.now }
    ensures { result ≡ le32_at b.now at }
{
    joined32(le16_at(b, at), le16_at(b, at + 2))
}

// Puts the bytes of src into buffer, from at on, one by one: `copy_from_slice` calls C's memmove, and the static library stands alone.
pub(crate) fn put_bytes(buffer: &mut [u8], at: usize, src: &[u8])
    requires { at + length src.now ≤ length buffer.old }
    ensures { buffer.new ≡ placed buffer.old at src.now }
{
    for (i, b) in src.iter().enumerate() {
        buffer[at + i] = *b;
    }
}

// Puts the bytes of src into the buffer from a place on, and leaves the rest as it was; 1, and nothing is put, where they go past it.
pub fn put(buffer: &mut [u8], at: usize, src: &[u8]) -> Result<usize, Refusal>
    ensures value { result ≡ put_answer buffer.old at src.now }
    ensures buffer_after { buffer.new ≡ put_buffer buffer.old at src.now }
{
    if buffer.len() < at || buffer.len() - at < src.len() {
        return Err(Refusal::BufferTooShort);
    }
    put_bytes(buffer, at, src);
    Ok(src.len())
}

// The part of len bytes that starts at a place: a command's payload, a request's data or a DCF entry's data, where its reader found
// it. One that does not lie within the bytes comes back empty.
#[tactic(auto, using(crate::proofs::ReadCases::part_outside, crate::proofs::ReadCases::part_inside))]
pub fn part(b: &[u8], start: usize, len: usize) -> &[u8]
    ensures { result.now ≡ part_at b.now start len }
{
    if b.len() < start || b.len() - start < len {
        return &[];
    }
    &b[start..start + len]
}
