//! A pass to a shared mount: what its calls may be, how it is cut in two, and how the sharing ends.

ghost use Rattle.std.specs.Prelude.{◌≡◌, ℕ, ◌<◌, ◌≤◌, ◌++◌, length, IfOk, IfSome, IfNone, OnErr};
ghost use Rattle.call_history.specs.declared.TheConstants.{MAX_PLACES};
ghost use Rattle.call_history.specs.Entries.{by, entries_by};
ghost use Rattle.turn_lock.specs.Passes.{merged_entries};
ghost use Rattle.script_runs.specs.Passes.{AreHalves, CanRun, max_calls_of_sections};

use call_history::MAX_PLACES;
use mount_shared::MountMachine;
use script_lang::Section;
use std::alloc::AllocError;
use turn_lock::{Pass, Shared};

/// Returns how many calls the commands of the sections make, if each makes `most`. Returns `None` if a
/// history has fewer places.
pub fn max_calls_of_sections(sections: &[Section], most: u64) -> Option<u64>
    ensures some { IfSome result
        (λ calls. (calls ≡ max_calls_of_sections most sections.now) × (calls ≤ MAX_PLACES)) }
    ensures none { IfNone result (MAX_PLACES < max_calls_of_sections most sections.now) }
{
    let mut calls: u64 = 0;
    'sections: for section in sections {
        let commands = section.commands.len() as u64;
        calls = calls.saturating_add(most.saturating_mul(commands));
    }
    if calls > MAX_PLACES {
        return None;
    }
    Some(calls)
}

/// Cuts the pass in two, with the sections; each of their commands makes `most` calls or fewer. The pass
/// retains the numbers and the calls of the first sections, and the returned one gets those of the others.
/// The only error is out of memory; the pass is unchanged then.
pub fn cut<M: MountMachine>(
    shared: &Shared<M>,
    pass: &mut Pass<M>,
    first: &[Section],
    others: &[Section],
    most: u64,
) -> Result<Pass<M>, AllocError>
    requires can_run { CanRun most shared.now pass.old (first.now ++ others.now) }
    requires some_first { 0 < length first.now }
    requires some_others { 0 < length others.now }
    ensures halves { IfOk result (λ upper.
        AreHalves most shared.now pass.old pass.new upper first.now others.now) }
    ensures kept { OnErr result (pass.new ≡ pass.old) }
{
    let Some(calls) = max_calls_of_sections(others, most) else {
        return Err(AllocError);
    };
    // Its range shows that the numbers fit.
    let _high = pass.high();
    let at = pass.who() + first.len() as u32;
    let upper = shared.split(pass, at, calls)?;
    Ok(upper)
}

/// Ends the sharing of a mount, with the pass that has all numbers again. Its entries make one lawful
/// history.
pub fn end<M: MountMachine>(shared: Shared<M>, pass: Pass<M>)
    requires belongs { pass.table ≡ shared.table }
    requires all { (pass.who ≡ 0) × (pass.high ≡ shared.numbers) }
    ensures callers { (caller : ℕ)
        → entries_by caller (merged_entries pass) ≡ by caller (pass.past ++ pass.mine) }
    ensures lawful { M.lawful (merged_entries pass) }
{
    shared.close(pass);
}
