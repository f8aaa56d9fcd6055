// Numbers: the sequence number that steps modulo 64, the transaction that goes from 1 to 255 and round, the smaller of two.
ghost use Rattle.std.specs.Prelude.{◌≡◌, ◌+◌, ◌%◌, min};
ghost use Rattle.con_rec.specs.Record.{next_transaction};

// The number after this one, modulo 64.
pub fn next_number(n: u8) -> u8
    ensures { result ≡ (n + 1) % 64 }
{
    n.wrapping_add(1) % 64
}

// The transaction after this one: 255 goes to 1.
pub fn next_transaction(t: u8) -> u8
    ensures { result ≡ next_transaction t }
{
    if t == 255 { 1 } else { t + 1 }
}

// The smaller of two numbers.
pub fn at_most(n: usize, most: usize) -> usize
    ensures { result ≡ min n most }
{
    n.min(most)
}
