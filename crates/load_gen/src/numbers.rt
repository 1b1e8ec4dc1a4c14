//! The pseudorandom numbers by which a script's commands are chosen.

ghost use Rattle.std.specs.Prelude.{◌≡◌};
ghost use Rattle.load_gen.specs.Numbers.{upper_31_bits, next};

// Of the linear congruential generator modulo 2^64.
const MULTIPLIER: u64 = 6364136223846793005;

const INCREMENT: u64 = 1442695040888963407;

// A sequence of pseudorandom numbers.
#[derive(Drop)]
pub(crate) struct Numbers {
    last: u64,
}

impl Numbers {
    // Returns the numbers after this one.
    pub(crate) fn numbers_after(number: u32) -> Numbers
        ensures { result.last ≡ number }
    {
        Numbers {
            last: u64::from(number),
        }
    }

    // Advances to the next number, and returns its upper 31 bits.
    pub(crate) fn next_upper_bits(&mut self) -> u64
        ensures gone_on { self.new.last ≡ next self.old.last }
        ensures value { result ≡ upper_31_bits self.new.last }
    {
        self.last = self.last.wrapping_mul(MULTIPLIER).wrapping_add(INCREMENT);
        self.last >> 33
    }
}
