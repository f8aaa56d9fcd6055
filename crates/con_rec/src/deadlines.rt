// Deadlines and parameters: a deadline to be set is time + timeout × 1000, where it fits 64 bits.
ghost use Rattle.std.specs.Prelude.{◌≡◌, ◌*◌};
ghost use Rattle.con_rec.specs.Deadline.{timeout_of, retries_of, deadline_of};

use crate::Now;

// The timeout in microseconds; an absent one is 15000 ms.
fn timeout_us(timeout: Option<u32>) -> u64
    ensures { result ≡ timeout_of timeout * 1000 }
{
    timeout.unwrap_or(15000) as u64 * 1000
}

impl Now {
    // The retries for what is begun now; absent ones are 2.
    pub fn retries_left(self) -> u32
        ensures { result ≡ retries_of self.retries }
    {
        self.retries.unwrap_or(2)
    }

    // The deadline for what is begun now, or out of range at 2^64.
    pub fn deadline(self) -> Option<u64>
        ensures { result ≡ deadline_of self.time self.timeout }
    {
        self.time.checked_add(timeout_us(self.timeout))
    }
}
