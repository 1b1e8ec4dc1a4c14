//! A mount that threads call, each in its turn.
ghost use Rattle.std.specs.Prelude.{◌≡◌};
ghost use Rattle.std.specs.Thread.{IsSync};

use crate::callers::Callers;
use crate::mount::one_caller::{Asking, Subject};
use mount_shared::{Mount, MountMachine};
use std::alloc::{AllocError, Global};
use std::sync::Wait;
use std::thread::{Threads, join};
use turn_lock::{Pass, Shared};

/// More calls than all callers make together, so that each half of them is enough for a half of the callers.
const ALLOWANCE: u64 = 1 << 36;

/// Calls `count` times, rounded down to as many calls for each caller. Returns how many of all calls were
/// refused.
pub(crate) fn ask_in_turns<R: Threads + Wait + Sync>(
    rt: &R,
    alloc: Global,
    subject: Subject,
    callers: Callers,
    count: u32,
) -> Result<u64, AllocError> {
    let numbers = callers.count();
    let asking = Asking {
        alloc,
        subject,
        calls: count / numbers,
    };
    let (shared, pass) = Shared::start(alloc, Mount::new(alloc)?, numbers, ALLOWANCE)?;
    let (_pass, refused) = prepare_and_ask(rt, &shared, pass, asking);
    refused
}

// Prepares the mount, and calls in all threads. Returns the pass, and how many of all calls were refused.
fn prepare_and_ask<R: Threads + Wait + Sync, M: MountMachine + Send>(
    rt: &R,
    shared: &Shared<M>,
    mut pass: Pass<M>,
    asking: Asking,
) -> (Pass<M>, Result<u64, AllocError>)
    requires { pass.table ≡ shared.now.table }
{
    let refused = asking.prepare(rt, shared, &mut pass);
    let (pass, more) = ask_all(rt, shared, pass, asking);
    (pass, sum(refused, more))
}

// Each caller of the pass calls in a thread of its own. Returns the pass, and how many calls were
// refused.
fn ask_all<R: Threads + Wait + Sync, M: MountMachine + Send>(
    rt: &R,
    shared: &Shared<M>,
    mut pass: Pass<M>,
    asking: Asking,
) -> (Pass<M>, Result<u64, AllocError>)
    requires { pass.table ≡ shared.now.table }
    ensures { (result.0.table ≡ pass.table) × (result.0.who ≡ pass.who) × (result.0.high ≡ pass.high) }
{
    let count = pass.high() - pass.who();
    if count == 1 {
        let refused = asking.ask_often(rt, shared, &mut pass);
        return (pass, refused);
    }
    let middle = pass.who() + count / 2;
    let half = pass.left() / 2;
    let Ok(upper) = shared.split(&mut pass, middle, half) else {
        return (pass, Err(AllocError));
    };
    let ((mut lower, refused), (upper, more)) = join(
        rt,
        move || -> (Pass<M>, Result<u64, AllocError>)
            requires { IsSync R.row × (pass.table ≡ shared.now.table) }
            ensures { (result.0.table ≡ pass.table) × (result.0.who ≡ pass.who)
                × (result.0.high ≡ pass.high) }
        { ask_all(rt, shared, pass, asking) },
        move || -> (Pass<M>, Result<u64, AllocError>)
            requires { IsSync R.row × (upper.table ≡ shared.now.table) }
            ensures { (result.0.table ≡ upper.table) × (result.0.who ≡ upper.who)
                × (result.0.high ≡ upper.high) }
        { ask_all(rt, shared, upper, asking) },
    );
    shared.join(&mut lower, upper);
    (lower, sum(refused, more))
}

fn sum(refused: Result<u64, AllocError>, more: Result<u64, AllocError>) -> Result<u64, AllocError> {
    Ok(refused?.saturating_add(more?))
}
