//! A replay on two mounts whose callers run in threads of their own.

ghost use Rattle.std.specs.Prelude.{◌≡◌, List, [], replicate};
ghost use Rattle.fsc_outside.specs.Reads.{ReadCall};
ghost use Rattle.fsc_tool.specs.LinkedLog.{IsLinkedLogOfThreads};
ghost use Rattle.fsc_tool.specs.Outside.{outside};
ghost use Rattle.fsc_tool.specs.Replay.{IsReplay};
ghost use Rattle.fsc_tool.specs.declared.form.Seeding.TheVariants.{Given};

use crate::form::Seeding;
use crate::linked::finish_linked_replay;
use crate::replay::prepare;
use crate::status::Status;
use crate::streams::Streams;
use argon_kdf::LaneStretch;
use byte_words::wipe;
use fsc_outside::{Gate, SeedSource, Sink, Source};
use linked_threads::run_linked_in_threads;
use linked_turns::Mounts;
use mount_shared::MountMachine;
use std::alloc::Global;
use std::sync::Wait;
use std::thread::Threads;

// Replays, with this seed and on two mounts, the script that the source gives, each caller in a thread of
// its own. Writes both logs and the notes into the sink, and wipes the seed.
pub(crate) fn run_linked_apart<
    R: Threads + Wait + Sync,
    S: Source,
    K: Sink,
    E: SeedSource,
    G: Gate + Sync,
    M: MountMachine + Send,
    N: MountMachine + Send,
>(
    rt: &R,
    alloc: Global,
    seed: &mut [u8; 32],
    streams: &mut Streams<S, K, E>,
    gate: &G,
    mounts: Mounts<M, N>,
) -> Status
    requires reaches_even { M.reaches [] mounts.even }
    requires reaches_odd { N.reaches [] mounts.odd }
    ensures linked { let before = outside (S.state streams.old.source) (K.state streams.old.sink)
        (E.state streams.old.seeds) in
        let after = outside (S.state streams.new.source) (K.state streams.new.sink)
        (E.state streams.new.seeds) in
        let after_calls = λ (calls : List ReadCall). S.after_calls streams.old.source calls streams.new.source in
        IsReplay (IsLinkedLogOfThreads M.lawful N.lawful) after_calls (Given seed.old) before after result }
    ensures wiped { seed.new ≡ replicate 32 0 }
{
    let mut seeding = Seeding::Given(*seed);
    wipe(seed);
    let mut run = match prepare(alloc, &mut seeding, &mut streams.source, &mut streams.seeds) {
        Ok(run) => run,
        Err(status) => return status,
    };
    let stretches = LaneStretch { threads: rt };
    let ran = run_linked_in_threads(rt, alloc, &run.script, &run.seed, gate, &stretches, mounts);
    run.wipe(alloc);
    let told = match ran {
        Ok(told) => told,
        Err(_) => return Status::NoMemory,
    };
    finish_linked_replay(alloc, told, &mut streams.sink)
}
