//! What the callers of a run on two mounts received.

ghost use Rattle.std.specs.Prelude.{◌≡◌, ◌++◌, IfOk, OnOk};
ghost use Rattle.mount_links.specs.ShownParts.{logged_load};
ghost use Rattle.mount_links.specs.Linked.{far_parts, own_parts};
ghost use Rattle.script_runs.specs.Callers.{noted_by, logged_calls_of};
ghost use Rattle.linked_turns.specs.Callers.{even_logged_calls, odd_logged_calls, runners_of};

use crate::runners::LinkedRunner;
use mount_links::{LinkStep, LoggedList, split};
use reply_text::Note;
use script_runs::PlacedVec;
use std::alloc::{AllocError, Global};

/// What a log shows of the entries of both mounts, and how the callers' session commands ended.
#[derive(Drop)]
pub struct LinkedOutput {
    pub even: PlacedVec,
    pub odd: PlacedVec,
    pub notes: Vec<Note>,
}

// Returns what all callers received, caller after caller.
pub(crate) fn output_of_runners(
    alloc: Global,
    runners: Vec<LinkedRunner>,
) -> Result<LinkedOutput, AllocError>
    ensures even { IfOk result
        (λ told. told.even.items ≡ logged_calls_of even_logged_calls runners.entry.items) }
    ensures odd { IfOk result
        (λ told. told.odd.items ≡ logged_calls_of odd_logged_calls runners.entry.items) }
    ensures notes { IfOk result (λ told. told.notes.items ≡ noted_by (runners_of runners.entry.items)) }
{
    let mut told = LinkedOutput {
        even: Vec::new(alloc),
        odd: Vec::new(alloc),
        notes: Vec::new(alloc),
    };
    'runners: for runner in runners {
        put_told(alloc, &mut told, runner)?;
    }
    Ok(told)
}

// Appends what a caller received.
fn put_told(alloc: Global, told: &mut LinkedOutput, caller: LinkedRunner) -> Result<(), AllocError>
    ensures even { OnOk result (told.new.even.items ≡ told.old.even.items ++ even_logged_calls caller.entry) }
    ensures odd { OnOk result (told.new.odd.items ≡ told.old.odd.items ++ odd_logged_calls caller.entry) }
    ensures notes { OnOk result (told.new.notes.items ≡ told.old.notes.items ++ caller.entry.runner.notes) }
{
    let is_even = caller.runner.caller() % 2 == 0;
    let ran = caller.runner.ran();
    told.notes.append(&mut ran.notes.into_vec())?;
    if is_even {
        told.even.append(&mut ran.entries.into_vec())
    } else {
        put_both(alloc, told, ran.entries, caller.steps)
    }
}

// Appends what a log shows of the calls of a caller on both mounts.
fn put_both(
    alloc: Global,
    told: &mut LinkedOutput,
    entries: LoggedList,
    steps: Vec<LinkStep>,
) -> Result<(), AllocError>
    ensures even { OnOk result (told.new.even.items ≡ told.old.even.items
        ++ far_parts steps.items entries) }
    ensures odd { OnOk result (told.new.odd.items ≡ told.old.odd.items
        ++ own_parts logged_load steps.items entries) }
    ensures notes { told.new.notes ≡ told.old.notes }
{
    let both = split(alloc, entries, steps)?;
    told.odd.append(&mut both.own.into_vec())?;
    told.even.append(&mut both.far.into_vec())
}
