//! A reply is finished when the turn is free.
ghost use Rattle.std.specs.Prelude.{◌≡◌};

use std::alloc::Global;
use std::sync::atomic::{AtomicU64, Ordering};
use std::sync::{Arc, Wait};
use std::test::Fail;
use std::thread;
use std::thread::join;
use turn_lock::{Machine, Pass, Shared};

// The flags by which two callers signal each other during their calls.
#[derive(Drop)]
struct Flags {
    begun: AtomicU64,
    answered: AtomicU64,
    ran_out: AtomicU64,
}

// Polls the flag until it is raised, at most a hundred million times.
fn is_raised(flag: &AtomicU64) -> bool {
    for _ in 0..100_000_000u32 {
        if flag.load(Ordering::SeqCst) == 1 {
            return true;
        }
        thread::yield_now();
    }
    false
}

/// A machine whose `finish` for caller 0 waits until caller 1 has its reply.
#[derive(Drop)]
struct Signals {
    flags: Arc<Flags, Global>,
}

impl Machine for Signals {
    type Call = ();

    type Pending = (u32, Option<Arc<Flags, Global>>);

    type Reply = u32;

    ghost fits = { λ _. Unit {0} };

    ghost reply = { λ lent. lent.0 };

    ghost lawful = { λ _. Unit {0} };

    ghost reaches = { λ _ _. Unit {0} };

    fn begin(&mut self, who: u32, _call: &()) -> (u32, Option<Arc<Flags, Global>>) {
        if who == 0 {
            self.flags.begun.store(1, Ordering::SeqCst);
        }
        (who, Arc::try_clone(&self.flags).ok())
    }

    fn finish(lent: (u32, Option<Arc<Flags, Global>>)) -> u32 {
        let (who, flags) = lent;
        if let Some(flags) = flags
            && who == 0
            && !is_raised(&flags.answered)
        {
            flags.ran_out.store(1, Ordering::SeqCst);
        }
        who
    }

    ghost reaches_lawful = { λ _ _ _. tt };
}

// Caller 1 begins once caller 0 has begun, and signals when it has its reply.
fn call_second<W: Wait>(
    rt: &W,
    shared: &Shared<Signals>,
    pass: &mut Pass<Signals>,
    flags: &Flags,
) -> Option<(bool, u64)>
    requires { pass.old.table ≡ shared.now.table }
{
    let began = is_raised(&flags.begun);
    let answer = shared.call(rt, pass, &());
    flags.answered.store(1, Ordering::SeqCst);
    match answer {
        Ok(at) => Some((began, at.place)),
        Err(_) => None,
    }
}

#[test]
fn finish_runs_after_release(rt: HostRuntime) -> Result<(), Fail> {
    let flags = Arc::new(
        rt.alloc(),
        Flags {
            begun: AtomicU64::new(0),
            answered: AtomicU64::new(0),
            ran_out: AtomicU64::new(0),
        },
    )?;
    let watched = Arc::try_clone(&flags)?;
    let told = &*watched;
    let (shared, mut first) = Shared::start(rt.alloc(), Signals { flags }, 2, 2)?;
    let mut second = shared.split(&mut first, 1, 1)?;
    let (zero, one) = join(
        &rt,
        || shared.call(&rt, &mut first, &()).map(|at| at.place),
        || call_second(&rt, &shared, &mut second, told),
    );
    assert!(rt; zero.ok() == Some(0));
    assert!(rt; one == Some((true, 1)));
    assert!(rt; told.ran_out.load(Ordering::SeqCst) == 0);
    Ok(())
}
