//! A caller of `turn_lock`.

ghost use Rattle.std.specs.Prelude.{◌≡◌, ℕ, ◌+◌, ◌<◌, ◌↔◌, [], ◌++◌, length};
ghost use Rattle.std.specs.Prelude.{IsErr, IfOk, IfErr, OnOk};
ghost use Rattle.call_history.specs.Entries.{entry, entries_by};
ghost use Rattle.turn_lock.specs.Passes.{PassView, first_pass, past_of, IsMadeAt};

use std::alloc::{AllocFailed, Global};
use std::sync::Wait;
use turn_lock::{Machine, Pass, PassExhausted, Shared};

/// Returns the machine shared by turns, and a pass for one caller with two calls. The only error is out
/// of memory; it returns the machine.
pub fn new_shared_machine<M: Machine>(
    alloc: Global,
    machine: M,
) -> Result<(Shared<M>, Pass<M>), AllocFailed<M>>
    requires { M.reaches [] machine }
    ensures shared { IfOk result (λ r. (r.0.numbers ≡ 1) × (r.0.allowance ≡ 2)) }
    ensures pass { IfOk result (λ r. r.1 ≡ first_pass r.0.table 1 2) }
    ensures returned_turn { IfErr result (λ failed. failed.value ≡ machine) }
{
    Shared::start(alloc, machine, 1, 2)
}

/// Makes two calls, the second at a later place, and returns both replies. Returns `PassExhausted` exactly
/// when the pass has fewer calls left: if it has one, the first call has used it up.
pub fn ask_twice<M: Machine, W: Wait>(
    rt: &W,
    shared: &Shared<M>,
    pass: &mut Pass<M>,
    first: &M::Call,
    second: &M::Call,
) -> Result<(M::Reply, M::Reply), PassExhausted>
where
    M::Reply: Drop,
    requires belongs { pass.old.table ≡ shared.now.table }
    requires first { M.fits first.now }
    requires second { M.fits second.now }
    ensures made { IfOk result (λ r.
        (between : PassView M.Call M.Reply) × (place : ℕ) × (next : ℕ) × (place < next)
        × IsMadeAt pass.old between place (entry pass.old.who first.now r.0)
        × IsMadeAt between pass.new next (entry pass.old.who second.now r.1)) }
    ensures lawful { OnOk result (M.lawful pass.new.seen) }
    ensures own { OnOk result (
        entries_by pass.old.who pass.new.seen ≡ past_of pass.old pass.old.who ++ pass.new.mine) }
    ensures worn { IsErr result ↔ (pass.old.left < 2) }
    ensures exhausted { IfErr result (λ worn. (pass.new.left ≡ 0) × (worn.made ≡ length pass.new.mine)) }
    ensures none { pass.old.left ≡ 0 → pass.new ≡ pass.old }
    ensures one { pass.old.left ≡ 1 → (place : ℕ) × (reply : M.Reply)
        × IsMadeAt pass.old pass.new place (entry pass.old.who first.now reply) }
{
    let answer = shared.call(rt, pass, first)?;
    let next = shared.call(rt, pass, second)?;
    Ok((answer.reply, next.reply))
}
