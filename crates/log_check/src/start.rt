//! The callers of a script before their first calls, and the ways in which they stretch passphrases.

ghost use Rattle.std.specs.Prelude.{◌≡◌, ◌≤◌, [], All, IfOk, length};
ghost use Rattle.fsc_session.specs.Asking.{AsksRightly};
ghost use Rattle.log_check.specs.Reading.{AreCallers};
ghost use Rattle.script_lang.specs.declared.limits.TheConstants.{MAX_CALLERS};

use argon_kdf::Stretch;
use next_calls::{Caller, Remembering};
use script_lang::Script;
use std::alloc::{AllocError, Global};

// Returns `count` ways, each of which caches its own last tags. With one for all, callers whose lines
// alternate would evict each other's.
pub(crate) fn remembering_ways<'w, S: Stretch>(
    alloc: Global,
    way: &'w S,
    count: usize,
) -> Result<Vec<Remembering<'w, S>>, AllocError>
    requires ready { S.ready way.now }
    ensures ready { IfOk result (λ ways. All S.ready ways.items) }
    ensures many { IfOk result (λ ways. length ways.items ≡ count) }
{
    let mut ways = Vec::new(alloc);
    'ways: for number in 0..count {
        ways.push(Remembering::new(way))?;
    }
    Ok(ways)
}

// Wipes all that they cache.
pub(crate) fn forget<'w, S: Stretch>(ways: Vec<Remembering<'w, S>>) {
    for way in ways {
        way.forget();
    }
}

// Wipes what no log shows of the calls that they wait for.
pub(crate) fn forget_callers(alloc: Global, callers: Vec<Caller<'_>>) {
    for caller in callers {
        caller.forget(alloc);
    }
}

// Returns the callers at their first calls, each with its own way to stretch.
pub(crate) fn begin_callers<'a, 'w, S: Stretch>(
    alloc: Global,
    ways: &[Remembering<'w, S>],
    script: &'a Script,
    seed: &[u8; 32],
) -> Result<Vec<Caller<'a>>, AllocError>
    requires ready { All S.ready ways.now }
    requires ways { length ways.now ≡ length script.now }
    requires few { length script.now ≤ MAX_CALLERS }
    requires asked { All AsksRightly script.now }
    ensures { IfOk result (λ callers. AreCallers seed.now script.now [] callers.items) }
{
    let mut callers = Vec::new(alloc);
    'callers: for number in 0..script.len() {
        let section = &script.as_slice()[number];
        let caller = Caller::new(alloc, &ways[number], seed, number as u32, section)?;
        callers.push(caller)?;
    }
    Ok(callers)
}
