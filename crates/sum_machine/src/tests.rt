//! Calls on a shared machine, by one thread and by many.
ghost use Rattle.std.specs.Prelude.{◌≡◌, ◌<◌, ℕ};
ghost use Rattle.std.specs.Thread.{IsSync};

use crate::Sum;
use std::alloc::{AllocError, Global};
use std::sync::Wait;
use std::test::Fail;
use std::thread::{Threads, join};
use turn_lock::{Machine, Pass, Shared};

// The place and the reply, or how many calls a worn out pass has made.
fn add<W: Wait>(
    rt: &W,
    shared: &Shared<Sum>,
    pass: &mut Pass<Sum>,
    number: u64,
) -> Result<(u64, u64), u64>
    requires belongs { pass.old.table ≡ shared.now.table }
    requires small { number < 1000 }
    ensures { (pass.new.table ≡ pass.old.table) × (pass.new.who ≡ pass.old.who)
        × (pass.new.high ≡ pass.old.high) }
{
    match shared.call(rt, pass, &number) {
        Ok(at) => Ok((at.place, at.reply)),
        Err(worn) => Err(worn.made),
    }
}

#[test]
fn allowance_wears_out_after_three_calls(rt: HostRuntime) -> Result<(), Fail> {
    let (shared, mut pass) = Shared::start(rt.alloc(), Sum::new(), 1, 3)?;
    let told = [
        add(&rt, &shared, &mut pass, 5),
        add(&rt, &shared, &mut pass, 700),
        add(&rt, &shared, &mut pass, 999),
        add(&rt, &shared, &mut pass, 1),
    ];
    let left = pass.left();
    let total = shared.close(pass).total;
    assert!(rt; told == [Ok((0, 5)), Ok((1, 705)), Ok((2, 1704)), Err(3)]);
    assert!(rt; left == 0 && total == 1704);
    Ok(())
}

#[test]
fn split_gives_all_calls_away(rt: HostRuntime) -> Result<(), Fail> {
    let (shared, mut first) = Shared::start(rt.alloc(), Sum::new(), 2, 3)?;
    let mut second = shared.split(&mut first, 1, 3)?;
    let callers = (first.who(), first.high(), second.who(), second.high());
    let of_first = add(&rt, &shared, &mut first, 5);
    let of_second = [
        add(&rt, &shared, &mut second, 5),
        add(&rt, &shared, &mut second, 6),
        add(&rt, &shared, &mut second, 7),
        add(&rt, &shared, &mut second, 8),
    ];
    shared.join(&mut first, second);
    let total = shared.close(first).total;
    assert!(rt; callers == (0, 1, 1, 2));
    assert!(rt; of_first == Err(0));
    assert!(rt; of_second == [Ok((0, 5)), Ok((1, 11)), Ok((2, 18)), Err(3)]);
    assert!(rt; total == 18);
    Ok(())
}

/// A machine that takes numbers below 1,000.
trait NumberMachine: Machine<Call = u64, Reply = u64> {
    ghost takes_small: { (number : ℕ) → number < 1000 → Self.fits number };
}

impl NumberMachine for Sum {
    ghost takes_small = { λ number small. small };
}

// Makes one caller's calls, and returns their places.
fn run_one<M: NumberMachine, W: Wait>(
    rt: &W,
    alloc: Global,
    shared: &Shared<M>,
    pass: &mut Pass<M>,
    calls: u64,
) -> Result<Vec<u64>, AllocError>
    requires { pass.old.table ≡ shared.now.table }
    ensures { (pass.new.table ≡ pass.old.table) × (pass.new.who ≡ pass.old.who)
        × (pass.new.high ≡ pass.old.high) }
{
    let mut places = Vec::new(alloc);
    for n in 0..calls {
        if let Ok(at) = shared.call(rt, pass, &(n % 1000)) {
            places.push(at.place)?;
        }
    }
    Ok(places)
}

type Told = Result<Vec<Vec<u64>>, AllocError>;

// Runs each caller of the pass in a thread of its own. Returns the pass again, and the places of each
// caller's calls.
fn run_all<M: NumberMachine + Send, R: Threads + Wait + Sync>(
    rt: &R,
    alloc: Global,
    shared: &Shared<M>,
    mut pass: Pass<M>,
    calls: u64,
) -> (Pass<M>, Told)
    requires { pass.table ≡ shared.now.table }
    ensures { (result.0.table ≡ pass.table) × (result.0.who ≡ pass.who) × (result.0.high ≡ pass.high) }
{
    let count = pass.high() - pass.who();
    if count == 1 {
        let told = run_one(rt, alloc, shared, &mut pass, calls);
        return (pass, alone(alloc, told));
    }
    let middle = pass.who() + count / 2;
    let half = pass.left() / 2;
    let Ok(upper) = shared.split(&mut pass, middle, half) else {
        return (pass, Err(AllocError));
    };
    let ((mut lower, told), (upper, more)) = join(
        rt,
        move || -> (Pass<M>, Told)
            requires { IsSync R.row × (pass.table ≡ shared.now.table) }
            ensures { (result.0.table ≡ pass.table) × (result.0.who ≡ pass.who)
                × (result.0.high ≡ pass.high) }
        { run_all(rt, alloc, shared, pass, calls) },
        move || -> (Pass<M>, Told)
            requires { IsSync R.row × (upper.table ≡ shared.now.table) }
            ensures { (result.0.table ≡ upper.table) × (result.0.who ≡ upper.who)
                × (result.0.high ≡ upper.high) }
        { run_all(rt, alloc, shared, upper, calls) },
    );
    shared.join(&mut lower, upper);
    (lower, both(told, more))
}

fn alone(alloc: Global, told: Result<Vec<u64>, AllocError>) -> Told {
    let mut all = Vec::new(alloc);
    all.push(told?)?;
    Ok(all)
}

fn both(told: Told, more: Told) -> Told {
    let mut told = told?;
    for places in more? {
        told.push(places)?;
    }
    Ok(told)
}

// Marks the places of one caller. Returns false if they don't rise, or one is marked already.
fn mark(seen: &mut [bool], places: &[u64]) -> bool {
    let mut least = 0;
    for place in places.iter() {
        let place = *place;
        let Some(mark) = seen.get_mut(place as usize) else {
            return false;
        };
        if *mark || place < least {
            return false;
        }
        *mark = true;
        least = place.saturating_add(1);
    }
    true
}

// Whether each caller has `calls` places, which rise, and no place twice.
fn each_once(
    alloc: Global,
    told: &[Vec<u64>],
    calls: usize,
    all_calls: usize,
) -> Result<bool, AllocError> {
    let mut seen = vec![in alloc; false; all_calls]?;
    for places in told.iter() {
        if places.len() != calls || !mark(seen.as_mut_slice(), places.as_slice()) {
            return Ok(false);
        }
    }
    Ok(true)
}

#[test]
fn eight_threads_agree_on_places(rt: HostRuntime) -> Result<(), Fail> {
    let (shared, pass) = Shared::start(rt.alloc(), Sum::new(), 8, 80_000)?;
    let (pass, told) = run_all(&rt, rt.alloc(), &shared, pass, 10_000);
    // Ten times the numbers from 0 to 999, by each of the eight.
    assert!(rt; shared.close(pass).total == 8 * 10 * 499_500);
    let told = told?;
    assert!(rt; told.len() == 8);
    let once = each_once(rt.alloc(), told.as_slice(), 10_000, 80_000)?;
    assert!(rt;
        once,
        "the places are 0 to 79,999, each once, and each caller's rise"
    );
    Ok(())
}
