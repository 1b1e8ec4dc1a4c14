//! The tool's calls: one that starts threads, and one that waits for no other thread.

ghost use Rattle.std.specs.Prelude.{◌≡◌, ◌≢◌, List, [], Some, map, string_bytes};
ghost use Rattle.std.specs.Option.{option_map_or};
ghost use Rattle.fsc_outside.specs.Reads.{ReadCall};
ghost use Rattle.fsc_tool.specs.Forms.{form_of, without_threads};
ghost use Rattle.fsc_tool.specs.LogOfRun.{IsLogOfRun};
ghost use Rattle.fsc_tool.specs.Outside.{outside};
ghost use Rattle.fsc_tool.specs.Replay.{IsReplay};
ghost use Rattle.script_runs.specs.Runs.{IsLawfulRun, IsSerialRun};
ghost use Rattle.fsc_tool.specs.Tool.{IsRunIn, IsSerialToolRun, IsToolRun};
ghost use Rattle.fsc_tool.specs.declared.status.Status.TheVariants.{Usage};

use crate::checking::run_checking;
use crate::dump::run_dumping;
use crate::form::{Seeding, ToolForm, Way, leave_threads, read_form, wipe_words};
use crate::gen_runs::{run_generating, run_summarising};
use crate::inspect::run_inspecting;
use crate::linked::replay_two;
use crate::linked_apart::run_linked_apart;
use crate::replay::{finish, prepare};
use crate::status::Status;
use crate::streams::Streams;
use argon_kdf::{LaneStretch, PlainStretch};
use fsc_outside::{Gate, OpenGate, SeedSource, Sink, Source};
use linked_turns::Mounts;
use mount_shared::MountMachine;
use script_runs::{run_in_rotation, run_in_threads};
use std::alloc::Global;
use std::sync::Wait;
use std::thread::Threads;

/// Runs the command given by `words`, the arguments without the program's name. Returns `Usage` if they are
/// no form (`form_of`). The forms:
/// - `replay` and `replay --serial`, alone or followed by `--seed HEX64`: replays on mount 0 the script
///   that the source gives, and writes its log into the sink. No call was made on mount 0 before. With
///   `--serial` the callers take turns; otherwise each runs in a thread of its own, and waits for its turn
///   on the mount at each call.
/// - `gen NUMBER`: writes the number's script. Followed by `--summary`: writes the summary of a replay of
///   it in turns on mount 0, with a seed of zeros. Neither asks the source.
/// - `dump --seed HEX64`: runs the script in turns, and writes the image of the disk afterwards.
/// - `inspect`, alone or followed by `raw:HEX`: reads an image, and writes its listing.
/// - `check --seed HEX64`: reads a script, a line `---` and a log, and writes nothing.
///   `check --strict --seed HEX64` accepts no log of a run in which something was out of memory.
/// - `replay-linked --seed HEX64` and `replay-linked --serial --seed HEX64`: runs the script on two mounts,
///   with callers as in a replay, and writes both logs. No call was made on mount 1 before either.
///
/// `dump` and `check` make their calls on a mount of their own. Only the replays and `gen NUMBER --summary`
/// use mount 0, and only `replay-linked` uses mount 1. Each command of a run that writes its log, its
/// summary or its image runs between the gate's two calls. Nothing is written before all callers have ended
/// and the whole text is complete.
///
/// The seed source is asked once, only by a replay of a script in the grammar whose arguments give no seed.
/// Arguments that are a form are wiped and removed once they are read, since one of them may be a seed or a
/// key.
pub fn tool<
    R: Threads + Wait + Sync,
    S: Source,
    K: Sink,
    E: SeedSource,
    G: Gate + Sync,
    M: MountMachine + Send,
    N: MountMachine + Send,
>(
    rt: &R,
    alloc: Global,
    words: &mut Vec<String>,
    streams: &mut Streams<S, K, E>,
    gate: &G,
    mounts: Mounts<M, N>,
) -> Status
    requires reaches_even { M.reaches [] mounts.even }
    requires reaches_odd { N.reaches [] mounts.odd }
    ensures run { let before = outside (S.state streams.old.source) (K.state streams.old.sink)
        (E.state streams.old.seeds) in
        let after = outside (S.state streams.new.source) (K.state streams.new.sink)
        (E.state streams.new.seeds) in
        let after_calls = λ (calls : List ReadCall). S.after_calls streams.old.source calls streams.new.source in
        IsToolRun M.lawful N.lawful after_calls (map string_bytes words.old.items) before after result }
    ensures words { words.new.items
        ≡ option_map_or (λ form. []) (form_of (map string_bytes words.old.items)) words.old.items }
{
    let mut form = None;
    read_form(words.as_slice(), &mut form);
    if form.is_some() {
        wipe_words(alloc, words);
    }
    match &mut form {
        None => Status::Usage,
        Some(
            ToolForm::Replay {
                way: Way::InThreads,
                seeding,
            },
        ) => replay_in_threads(rt, alloc, seeding, streams, gate, mounts.even),
        Some(
            ToolForm::ReplayLinked {
                way: Way::InThreads,
                seed,
            },
        ) => run_linked_apart(rt, alloc, seed, streams, gate, mounts),
        Some(form) => run_in_turns(alloc, form, streams, gate, mounts),
    }
}

/// Runs the command given by `words`, as `tool` does, on one thread. `words` are the arguments without the
/// program's name. Returns `Usage` unless they are a form (`form_of`) that starts no thread:
/// - `replay --serial`, alone or followed by `--seed HEX64`, whose callers take turns
/// - `gen NUMBER` and `gen NUMBER --summary`
/// - `dump --seed HEX64`
/// - `inspect`, alone or followed by `raw:HEX`
/// - `check --seed HEX64` and `check --strict --seed HEX64`
/// - `replay-linked --serial --seed HEX64`
///
/// `dump` and `check` make their calls on a mount of their own. Nothing is written before the whole text is
/// complete. The seed source is asked once, only by a replay of a script in the grammar whose arguments
/// give no seed. The arguments stay as they are.
pub fn tool_serial<S: Source, K: Sink, E: SeedSource, M: MountMachine, N: MountMachine>(
    alloc: Global,
    words: &Vec<String>,
    streams: &mut Streams<S, K, E>,
    mounts: Mounts<M, N>,
) -> Status
    requires reaches_even { M.reaches [] mounts.even }
    requires reaches_odd { N.reaches [] mounts.odd }
    ensures { let before = outside (S.state streams.old.source) (K.state streams.old.sink)
        (E.state streams.old.seeds) in
        let after = outside (S.state streams.new.source) (K.state streams.new.sink)
        (E.state streams.new.seeds) in
        let after_calls = λ (calls : List ReadCall). S.after_calls streams.old.source calls streams.new.source in
        IsSerialToolRun M.lawful N.lawful after_calls (map string_bytes words.now.items) before after result }
{
    let mut form = None;
    read_form(words, &mut form);
    leave_threads(&mut form);
    match &mut form {
        None => Status::Usage,
        Some(form) => run_in_turns(alloc, form, streams, &OpenGate, mounts),
    }
}

// Runs a form that starts no thread.
fn run_in_turns<S: Source, K: Sink, E: SeedSource, G: Gate, M: MountMachine, N: MountMachine>(
    alloc: Global,
    form: &mut ToolForm,
    streams: &mut Streams<S, K, E>,
    gate: &G,
    mounts: Mounts<M, N>,
) -> Status
    requires reaches_even { M.reaches [] mounts.even }
    requires reaches_odd { N.reaches [] mounts.odd }
    requires in_turns { without_threads (Some form.old) ≡ Some form.old }
    ensures run { let before = outside (S.state streams.old.source) (K.state streams.old.sink)
        (E.state streams.old.seeds) in
        let after = outside (S.state streams.new.source) (K.state streams.new.sink)
        (E.state streams.new.seeds) in
        let after_calls = λ (calls : List ReadCall). S.after_calls streams.old.source calls streams.new.source in
        IsRunIn M.lawful N.lawful after_calls (Some form.old) before after result }
    ensures form { result ≢ Usage }
{
    match form {
        ToolForm::Replay { way: _, seeding } => {
            replay_in_rotation(alloc, seeding, streams, gate, mounts.even)
        }
        ToolForm::Generate(number) => run_generating(alloc, *number, &mut streams.sink),
        ToolForm::Summarise(number) => {
            run_summarising(alloc, *number, &mut streams.sink, gate, mounts.even)
        }
        ToolForm::Dump(seed) => run_dumping(alloc, seed, streams, gate),
        ToolForm::Inspect(raw) => run_inspecting(
            alloc,
            raw,
            &mut streams.source,
            &mut streams.sink,
        ),
        ToolForm::Check(seed) => run_checking(
            alloc,
            false,
            seed,
            &mut streams.source,
            &mut streams.difference,
        ),
        ToolForm::CheckStrictly(seed) => run_checking(
            alloc,
            true,
            seed,
            &mut streams.source,
            &mut streams.difference,
        ),
        ToolForm::ReplayLinked { way: _, seed } => replay_two(alloc, seed, streams, gate, mounts),
    }
}

// Replays a script whose callers take turns.
fn replay_in_rotation<S: Source, K: Sink, E: SeedSource, G: Gate, M: MountMachine>(
    alloc: Global,
    seeding: &mut Seeding,
    streams: &mut Streams<S, K, E>,
    gate: &G,
    machine: M,
) -> Status
    requires { M.reaches [] machine }
    ensures { let before = outside (S.state streams.old.source) (K.state streams.old.sink)
        (E.state streams.old.seeds) in
        let after = outside (S.state streams.new.source) (K.state streams.new.sink)
        (E.state streams.new.seeds) in
        let after_calls = λ (calls : List ReadCall). S.after_calls streams.old.source calls streams.new.source in
        IsReplay (IsLogOfRun (IsSerialRun M.lawful)) after_calls seeding.old before after result }
{
    let mut run = match prepare(alloc, seeding, &mut streams.source, &mut streams.seeds) {
        Ok(run) => run,
        Err(status) => return status,
    };
    let ran = run_in_rotation(alloc, &run.script, &run.seed, gate, &PlainStretch, machine);
    run.wipe(alloc);
    let told = match ran {
        Ok(told) => told,
        Err(_) => return Status::NoMemory,
    };
    let _few = told.count();
    finish(alloc, told, &mut streams.sink)
}

// Replays a script whose callers run in threads.
fn replay_in_threads<
    R: Threads + Wait + Sync,
    S: Source,
    K: Sink,
    E: SeedSource,
    G: Gate + Sync,
    M: MountMachine + Send,
>(
    rt: &R,
    alloc: Global,
    seeding: &mut Seeding,
    streams: &mut Streams<S, K, E>,
    gate: &G,
    machine: M,
) -> Status
    requires { M.reaches [] machine }
    ensures { let before = outside (S.state streams.old.source) (K.state streams.old.sink)
        (E.state streams.old.seeds) in
        let after = outside (S.state streams.new.source) (K.state streams.new.sink)
        (E.state streams.new.seeds) in
        let after_calls = λ (calls : List ReadCall). S.after_calls streams.old.source calls streams.new.source in
        IsReplay (IsLogOfRun (IsLawfulRun M.lawful)) after_calls seeding.old before after result }
{
    let mut run = match prepare(alloc, seeding, &mut streams.source, &mut streams.seeds) {
        Ok(run) => run,
        Err(status) => return status,
    };
    let stretches = LaneStretch { threads: rt };
    let ran = run_in_threads(rt, alloc, &run.script, &run.seed, gate, &stretches, machine);
    run.wipe(alloc);
    let told = match ran {
        Ok(told) => told,
        Err(_) => return Status::NoMemory,
    };
    let _few = told.count();
    finish(alloc, told, &mut streams.sink)
}
