//! A replay on two mounts, on which callers reach protectors of mount 0 through links of mount 1.

ghost use Rattle.std.specs.Prelude.{◌≡◌, List, [], replicate};
ghost use Rattle.call_history.specs.Placed.{entries_of};
ghost use Rattle.fsc_outside.specs.Reads.{ReadCall};
ghost use Rattle.linked_turns.specs.LinkedText.{linked_text};
ghost use Rattle.fsc_tool.specs.LinkedLog.{IsLinkedLog};
ghost use Rattle.fsc_tool.specs.Outside.{outside};
ghost use Rattle.fsc_tool.specs.Replay.{IsReplay};
ghost use Rattle.fsc_tool.specs.Written.{EndsLog};
ghost use Rattle.fsc_tool.specs.declared.form.Seeding.TheVariants.{Given};

use crate::form::Seeding;
use crate::replay::prepare;
use crate::status::Status;
use crate::streams::Streams;
use crate::writing::write_text;
use argon_kdf::PlainStretch;
use byte_words::wipe;
use fsc_outside::{Gate, SeedSource, Sink, Source};
use linked_turns::{LinkedOutput, Mounts, linked_log, run_linked_in_rotation};
use mount_shared::MountMachine;
use std::alloc::Global;

// Replays in rotation, with this seed and on two mounts, the script that the source gives. Writes both logs
// and the notes into the sink, and wipes the seed.
pub(crate) fn replay_two<
    S: Source,
    K: Sink,
    E: SeedSource,
    G: Gate,
    M: MountMachine,
    N: MountMachine,
>(
    alloc: Global,
    seed: &mut [u8; 32],
    streams: &mut Streams<S, K, E>,
    gate: &G,
    mounts: Mounts<M, N>,
) -> Status
    requires reaches_even { M.reaches [] mounts.even }
    requires reaches_odd { N.reaches [] mounts.odd }
    ensures linked { let before = outside (S.state streams.old.source) (K.state streams.old.sink)
        (E.state streams.old.seeds) in
        let after = outside (S.state streams.new.source) (K.state streams.new.sink)
        (E.state streams.new.seeds) in
        let after_calls = λ (calls : List ReadCall). S.after_calls streams.old.source calls streams.new.source in
        IsReplay (IsLinkedLog M.lawful N.lawful) after_calls (Given seed.old) before after result }
    ensures wiped { seed.new ≡ replicate 32 0 }
{
    let mut seeding = Seeding::Given(*seed);
    wipe(seed);
    let mut run = match prepare(alloc, &mut seeding, &mut streams.source, &mut streams.seeds) {
        Ok(run) => run,
        Err(status) => return status,
    };
    let ran = run_linked_in_rotation(alloc, &run.script, &run.seed, gate, &PlainStretch, mounts);
    run.wipe(alloc);
    let told = match ran {
        Ok(told) => told,
        Err(_) => return Status::NoMemory,
    };
    finish_linked_replay(alloc, told, &mut streams.sink)
}

// Writes both logs and the notes of a run on two mounts into the sink, once they are complete. Returns how
// the run ends.
pub(crate) fn finish_linked_replay<K: Sink>(
    alloc: Global,
    told: LinkedOutput,
    sink: &mut K,
) -> Status
    ensures { EndsLog (linked_text (entries_of told.even.items) (entries_of told.odd.items) told.notes.items)
        (K.state sink.old) (K.state sink.new) result }
{
    match linked_log(alloc, told) {
        Ok(text) => write_text(text, sink),
        Err(_) => Status::NoMemory,
    }
}
