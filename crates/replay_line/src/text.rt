// Text put behind a text: a byte, a number in decimal, bytes in hex.
ghost use Rattle.std.specs.Prelude.{◌≡◌, [], ◌∷◌, ◌+◌, ◌*◌, ◌%◌, ◌≤◌, ◌<◌, length, get_or};
ghost use Rattle.replay_line.specs.Text.{Puts, Room, decimal, digit, front, hex, hex_digits, power};

const HEX_DIGITS: [u8; 16] = *b"0123456789ABCDEF";

// The powers of ten that a u32 reaches.
const POWERS: [u32; 10] = [
    1, 10, 100, 1000, 10000, 100000, 1000000, 10000000, 100000000, 1000000000,
];

// A buffer, and where the text in it ends.
#[derive(Drop)]
pub(crate) struct Text<'a> {
    pub out: &'a mut [u8],
    pub end: usize,
}

#[tactic(auto, unfolding(crate::specs::Text::hex_digits))]
fn hex_digit(n: u8) -> u8
    requires { n < 16 }
    ensures { result ≡ get_or hex_digits n 0 }
{
    HEX_DIGITS[n as usize]
}

fn digit_of(n: u32) -> u8
    ensures { result ≡ digit (n % 10) }
{
    48 + (n % 10) as u8
}

fn power_of(k: usize) -> u32
    requires { k < 10 }
    ensures { result ≡ power k }
{
    POWERS[k]
}

impl Text<'_> {
    pub(crate) fn byte(&mut self, b: u8)
        requires { Room self.old 1 }
        ensures { Puts self.old (b ∷ []) 1 self.new }
    {
        self.out[self.end] = b;
        self.end += 1;
    }

    // A number of up to places + 1 digits, without zeros in front.
    pub(crate) fn decimal(&mut self, n: u32, places: usize)
        requires room { Room self.old (places + 1) }
        requires places_in_bounds { places < 10 }
        ensures { Puts self.old (decimal places n) (places + 1) self.new }
    {
        if n < 10 {
            // one digit needs no loop
            return self.byte(digit_of(n));
        }
        self.front(n, places);
        self.byte(digit_of(n))
    }

    // The digits before the last.
    fn front(&mut self, n: u32, places: usize)
        requires room { Room self.old places }
        requires places_in_bounds { places < 10 }
        ensures { Puts self.old (front places n) places self.new }
    {
        for i in 0..places {
            let p = power_of(places - i);
            if n < p {
                continue;
            }
            self.byte(digit_of(n / p));
        }
    }

    pub(crate) fn hex(&mut self, bytes: &[u8])
        requires { Room self.old (2 * length bytes.now) }
        ensures { Puts self.old (hex bytes.now) (2 * length bytes.now) self.new }
    {
        for b in bytes {
            self.byte(hex_digit(*b / 16));
            self.byte(hex_digit(*b % 16));
        }
    }
}
