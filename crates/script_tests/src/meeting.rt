//! A gate at which two callers wait for each other.

use fsc_outside::Gate;
use std::sync::atomic::{AtomicU64, Ordering};
use std::thread;

/// Callers 0 and 1 meet before their second commands.
#[derive(Drop)]
pub(crate) struct MeetingGate {
    first: AtomicU64,
    second: AtomicU64,
    missed: AtomicU64,
}

impl MeetingGate {
    // Returns a gate to which no caller has come yet.
    pub(crate) fn new() -> MeetingGate {
        MeetingGate {
            first: AtomicU64::new(0),
            second: AtomicU64::new(0),
            missed: AtomicU64::new(0),
        }
    }

    // Returns how often a caller looked for the other to the end, in vain.
    pub(crate) fn missed(&self) -> u64 {
        self.missed.load(Ordering::SeqCst)
    }
}

impl Gate for MeetingGate {
    fn before(&self, caller: u32, n: u64) {
        if n == 1 {
            let (own, other) = if caller == 0 {
                (&self.first, &self.second)
            } else {
                (&self.second, &self.first)
            };
            own.store(1, Ordering::SeqCst);
            if !is_raised(other) {
                self.missed.fetch_add(1, Ordering::SeqCst);
            }
        }
    }

    fn after(&self, _caller: u32, _n: u64) {}
}

// Reads the flag until it is raised, a hundred million times at most.
fn is_raised(flag: &AtomicU64) -> bool {
    for _ in 0..100_000_000u32 {
        if flag.load(Ordering::SeqCst) == 1 {
            return true;
        }
        thread::yield_now();
    }
    false
}
