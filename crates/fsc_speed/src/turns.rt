//! The kernels of shared machines: calls of the summing machine by one thread or several.
ghost use Rattle.std.specs.Prelude.{◌≡◌, ◌<◌};
ghost use Rattle.std.specs.Thread.{IsSync};

use crate::callers::Callers;
use sha2::{Digest, Sha256};
use std::alloc::{AllocError, Global};
use std::sync::Wait;
use std::thread::{Threads, join};
use sum_machine::Sum;
use turn_lock::{Pass, Shared};

/// Adds 7 `count` times, rounded down to as many calls for each caller, and returns a hash of the sum.
pub(crate) fn add_sevens<R: Threads + Wait + Sync>(
    rt: &R,
    alloc: Global,
    callers: Callers,
    count: u32,
) -> Result<[u8; 32], AllocError> {
    let numbers = callers.count();
    let calls = count / numbers;
    let (shared, pass) = Shared::start(alloc, Sum::new(), numbers, u64::from(count))?;
    let pass = call_all(rt, &shared, pass, calls);
    let sum = shared.close(pass);
    Ok(Sha256::digest(&sum.total.to_le_bytes()))
}

// Each caller of the pass in a thread of its own.
fn call_all<R: Threads + Wait + Sync>(
    rt: &R,
    shared: &Shared<Sum>,
    mut pass: Pass<Sum>,
    calls: u32,
) -> Pass<Sum>
    requires { pass.table ≡ shared.now.table }
    ensures { (result.table ≡ pass.table) × (result.who ≡ pass.who) × (result.high ≡ pass.high) }
{
    let count = pass.high() - pass.who();
    if count == 1 {
        call_one(rt, shared, &mut pass, calls);
        return pass;
    }
    let middle = pass.who() + count / 2;
    let half = pass.left() / 2;
    let Ok(upper) = shared.split(&mut pass, middle, half) else {
        return pass;
    };
    let (mut lower, upper) = join(
        rt,
        move || -> Pass<Sum>
            requires { IsSync R.row × (pass.table ≡ shared.now.table) }
            ensures { (result.table ≡ pass.table) × (result.who ≡ pass.who) × (result.high ≡ pass.high) }
        { call_all(rt, shared, pass, calls) },
        move || -> Pass<Sum>
            requires { IsSync R.row × (upper.table ≡ shared.now.table) }
            ensures { (result.table ≡ upper.table) × (result.who ≡ upper.who) × (result.high ≡ upper.high) }
        { call_all(rt, shared, upper, calls) },
    );
    shared.join(&mut lower, upper);
    lower
}

// Ends early if the pass has no calls left.
fn call_one<W: Wait>(rt: &W, shared: &Shared<Sum>, pass: &mut Pass<Sum>, calls: u32)
    requires { pass.old.table ≡ shared.now.table }
    ensures { (pass.new.table ≡ pass.old.table) × (pass.new.who ≡ pass.old.who)
        × (pass.new.high ≡ pass.old.high) }
{
    for _ in 0..calls {
        if shared.call(rt, pass, &7).is_err() {
            return;
        }
    }
}
