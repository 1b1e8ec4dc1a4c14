//! A caller's turn.

ghost use Rattle.std.specs.Prelude.{◌≡◌, ◌*◌, [], ◌++◌, true, false, IfOk, OnOk};
ghost use Rattle.fsc_commands.specs.declared.TheConstants.{MAX_CALLS};
ghost use Rattle.fsc_session.specs.Asking.{AsksRightly};
ghost use Rattle.mount_links.specs.LinkCalls.{link_view};
ghost use Rattle.mount_shared.specs.SerialCalls.{serial_view};
ghost use Rattle.script_runs.specs.MountPlaces.{at};
ghost use Rattle.linked_turns.specs.Turns.{LinkedTurnOf};
ghost use Rattle.linked_turns.specs.Parts.{is_even};

use crate::mounts::SerialMounts;
use crate::runners::LinkedRunner;
use argon_kdf::Stretch;
use call_history::MAX_PLACES;
use fsc_commands::MAX_CALLS;
use fsc_outside::Gate;
use mount_links::{LinkPort, LinkStep};
use mount_shared::{MountMachine, SerialPort};
use script_runs::RangedPort;
use std::alloc::{AllocError, Global};

// The port of a caller with an odd number, each of whose calls on either mount is in range.
type SerialLinks<M, N> = LinkPort<RangedPort<SerialPort<N>>, RangedPort<SerialPort<M>>>;

// Runs the caller's next command, if it has one, on ports of its own and between the gate's two calls.
pub(crate) fn take_turn<G: Gate, S: Stretch, M: MountMachine, N: MountMachine>(
    alloc: Global,
    mounts: SerialMounts<M, N>,
    caller: &mut LinkedRunner,
    seed: &[u8; 32],
    gate: &G,
    stretches: &S,
) -> Result<SerialMounts<M, N>, AllocError>
    requires ready { S.ready stretches.now }
    requires asked { AsksRightly caller.old.runner.section }
    ensures { IfOk result (λ after. LinkedTurnOf M.reaches N.reaches seed.now
        (at mounts.even.machine mounts.even.places) (at mounts.odd.machine mounts.odd.places) caller.old
        (at after.even.machine after.even.places) (at after.odd.machine after.odd.places) caller.new) }
{
    let number = caller.runner.caller();
    let command = caller.runner.next_command();
    if let Some(command) = command {
        gate.before(number, command as u64);
    }
    let after = step(alloc, mounts, caller, seed, stretches)?;
    if let Some(command) = command {
        gate.after(number, command as u64);
    }
    Ok(after)
}

// Runs the caller's next command on the mount of its number.
fn step<S: Stretch, M: MountMachine, N: MountMachine>(
    alloc: Global,
    mounts: SerialMounts<M, N>,
    caller: &mut LinkedRunner,
    seed: &[u8; 32],
    stretches: &S,
) -> Result<SerialMounts<M, N>, AllocError>
    requires ready { S.ready stretches.now }
    requires asked { AsksRightly caller.old.runner.section }
    ensures { IfOk result (λ after. LinkedTurnOf M.reaches N.reaches seed.now
        (at mounts.even.machine mounts.even.places) (at mounts.odd.machine mounts.odd.places) caller.old
        (at after.even.machine after.even.places) (at after.odd.machine after.odd.places) caller.new) }
{
    if caller.runner.caller() % 2 == 0 {
        step_on_mount_0(alloc, mounts, caller, seed, stretches)
    } else {
        step_on_both(alloc, mounts, caller, seed, stretches)
    }
}

// Runs the command of a caller with an even number.
fn step_on_mount_0<S: Stretch, M: MountMachine, N: MountMachine>(
    alloc: Global,
    mounts: SerialMounts<M, N>,
    caller: &mut LinkedRunner,
    seed: &[u8; 32],
    stretches: &S,
) -> Result<SerialMounts<M, N>, AllocError>
    requires ready { S.ready stretches.now }
    requires asked { AsksRightly caller.old.runner.section }
    requires even { is_even caller.old.runner.caller ≡ true }
    ensures { IfOk result (λ after. LinkedTurnOf M.reaches N.reaches seed.now
        (at mounts.even.machine mounts.even.places) (at mounts.odd.machine mounts.odd.places) caller.old
        (at after.even.machine after.even.places) (at after.odd.machine after.odd.places) caller.new) }
{
    if mounts.even.places > MAX_PLACES - MAX_CALLS {
        return Err(AllocError);
    }
    let port = mounts.even.port(caller.runner.caller(), MAX_CALLS);
    let mut port = RangedPort::over(port);
    caller.runner.step(alloc, &mut port, stretches, seed)?;
    Ok(SerialMounts {
        even: port.back().back(),
        odd: mounts.odd,
    })
}

// Runs the command of a caller with an odd number.
fn step_on_both<S: Stretch, M: MountMachine, N: MountMachine>(
    alloc: Global,
    mounts: SerialMounts<M, N>,
    caller: &mut LinkedRunner,
    seed: &[u8; 32],
    stretches: &S,
) -> Result<SerialMounts<M, N>, AllocError>
    requires ready { S.ready stretches.now }
    requires asked { AsksRightly caller.old.runner.section }
    requires odd { is_even caller.old.runner.caller ≡ false }
    ensures { IfOk result (λ after. LinkedTurnOf M.reaches N.reaches seed.now
        (at mounts.even.machine mounts.even.places) (at mounts.odd.machine mounts.odd.places) caller.old
        (at after.even.machine after.even.places) (at after.odd.machine after.odd.places) caller.new) }
{
    let mut port = link_port(alloc, mounts, caller.runner.caller())?;
    caller.runner.step(alloc, &mut port, stretches, seed)?;
    mounts_back(port, &mut caller.steps)
}

// Returns the port of a caller with an odd number, on both mounts. If they have too few places left for its
// calls, the error is that of no memory.
fn link_port<M: MountMachine, N: MountMachine>(
    alloc: Global,
    mounts: SerialMounts<M, N>,
    caller: u32,
) -> Result<SerialLinks<M, N>, AllocError>
    ensures { IfOk result (λ port. port ≡ link_view
        (serial_view mounts.odd.machine mounts.odd.places caller (2 * MAX_CALLS))
        (serial_view mounts.even.machine mounts.even.places caller MAX_CALLS) MAX_CALLS []) }
{
    if mounts.even.places > MAX_PLACES - MAX_CALLS
        || mounts.odd.places > MAX_PLACES - 2 * MAX_CALLS
    {
        return Err(AllocError);
    }
    let own = mounts.odd.port(caller, 2 * MAX_CALLS);
    let far = mounts.even.port(caller, MAX_CALLS);
    LinkPort::new(
        alloc,
        RangedPort::over(own),
        RangedPort::over(far),
        MAX_CALLS,
    )
}

// Returns the mounts of such a port. Appends to `steps` what became of each call that was made on it.
fn mounts_back<M: MountMachine, N: MountMachine>(
    port: SerialLinks<M, N>,
    steps: &mut Vec<LinkStep>,
) -> Result<SerialMounts<M, N>, AllocError>
    ensures even { IfOk result (λ mounts. (mounts.even.machine ≡ port.far.machine)
        × (mounts.even.places ≡ port.far.places)) }
    ensures odd { IfOk result (λ mounts. (mounts.odd.machine ≡ port.own.machine)
        × (mounts.odd.places ≡ port.own.places)) }
    ensures steps { OnOk result (steps.new.items ≡ steps.old.items ++ port.steps) }
{
    let (own, far, mut made) = port.back();
    steps.append(&mut made)?;
    Ok(SerialMounts {
        even: far.back().back(),
        odd: own.back().back(),
    })
}
