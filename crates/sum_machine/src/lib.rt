//! A small machine to share: it adds up numbers below 1,000, and replies to each with the sum so far.
#![tactic(auto)]

ghost use Rattle.std.specs.Prelude.{◌≡◌, ◌<◌};
ghost use Rattle.sum_machine.specs.Sums.{sum_after, HasSums};

use turn_lock::Machine;

#[cfg(test)]
mod signals;
#[cfg(test)]
mod tests;

/// The sum of the numbers so far, modulo 2^64.
#[derive(Drop)]
pub struct Sum {
    pub total: u64,
}

impl Sum {
    /// Returns the machine with sum 0.
    pub fn new() -> Sum
        ensures { result.total ≡ 0 }
    {
        Sum { total: 0 }
    }
}

impl Machine for Sum {
    type Call = u64;

    type Pending = u64;

    type Reply = u64;

    ghost fits = { λ number. number < 1000 };

    ghost reply = { λ lent. lent };

    ghost lawful = { HasSums 0 };

    ghost reaches = { λ history sum. HasSums 0 history × (sum.total ≡ sum_after 0 history) };

    fn begin(&mut self, _who: u32, number: &u64) -> u64 {
        self.total = self.total.wrapping_add(*number);
        self.total
    }

    fn finish(lent: u64) -> u64 {
        lent
    }

    ghost reaches_lawful = { λ history sum reached_by. reached_by.0 };
}
