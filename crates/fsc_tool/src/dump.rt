//! The run whose mount is written as an image. It makes its calls on a mount of its own.

ghost use Rattle.std.specs.Prelude.{◌≡◌, ℕ, List, replicate, IfOk};
ghost use Rattle.fsc_outside.specs.Reads.{ReadCall};
ghost use Rattle.script_lang.specs.Spelled.{IsSpelled};
ghost use Rattle.script_lang.specs.declared.commands.Section.{Section};
ghost use Rattle.fsc_tool.specs.ImageOfRun.{IsImageOfRun, RanOnMount};
ghost use Rattle.fsc_tool.specs.Outside.{outside};
ghost use Rattle.fsc_tool.specs.Replay.{IsReplay};
ghost use Rattle.fsc_tool.specs.declared.form.Seeding.TheVariants.{Given};

use crate::form::Seeding;
use crate::replay::prepare;
use crate::status::Status;
use crate::streams::Streams;
use crate::summary::is_any_out_of_memory;
use crate::writing::write_text;
use argon_kdf::PlainStretch;
use byte_words::wipe;
use fsc_outside::{Gate, SeedSource, Sink, Source};
use item_list::Bytes;
use mount_shared::Mount;
use script_lang::Script;
use script_runs::{RunOutput, rotate};
use std::alloc::{AllocError, Global};
use tree_image::write_image;

// Replays in rotation, with this seed and on a mount of its own, the script that the source gives. Writes
// the image of the mount at the run's end into the sink, and wipes the seed.
pub(crate) fn run_dumping<S: Source, K: Sink, E: SeedSource, G: Gate>(
    alloc: Global,
    seed: &mut [u8; 32],
    streams: &mut Streams<S, K, E>,
    gate: &G,
) -> Status
    ensures dumped { let before = outside (S.state streams.old.source) (K.state streams.old.sink)
        (E.state streams.old.seeds) in
        let after = outside (S.state streams.new.source) (K.state streams.new.sink)
        (E.state streams.new.seeds) in
        let after_calls = λ (calls : List ReadCall). S.after_calls streams.old.source calls streams.new.source in
        IsReplay IsImageOfRun after_calls (Given seed.old) before after result }
    ensures wiped { seed.new ≡ replicate 32 0 }
{
    let mut seeding = Seeding::Given(*seed);
    wipe(seed);
    let mut run = match prepare(alloc, &mut seeding, &mut streams.source, &mut streams.seeds) {
        Ok(run) => run,
        Err(status) => return status,
    };
    let ran = run_on_mount(alloc, &run.script, &run.seed, gate);
    run.wipe(alloc);
    let (told, mount) = match ran {
        Ok(ran) => ran,
        Err(_) => return Status::NoMemory,
    };
    match image_of(alloc, told, mount) {
        Ok(text) => write_text(text, &mut streams.sink),
        Err(_) => Status::NoMemory,
    }
}

// Runs the script in rotation on an empty mount. Returns the run's entries and notes, and the mount as the
// run leaves it.
fn run_on_mount<G: Gate>(
    alloc: Global,
    script: &Script,
    seed: &[u8; 32],
    gate: &G,
) -> Result<(RunOutput, Mount), AllocError>
    requires { IsSpelled script.now }
    ensures { IfOk result (λ r. RanOnMount seed.now script.now r.0.entries.items r.0.notes.items r.1.state) }
{
    let mount = Mount::new(alloc)?;
    rotate(alloc, script, seed, gate, &PlainStretch, mount)
}

// Returns the image of the mount that a run left. Drops the mount once its image is made.
fn image_of(alloc: Global, told: RunOutput, mount: Mount) -> Result<Bytes, AllocError>
    ensures { IfOk result (λ text. (seed : List ℕ) (script : List Section)
        → RanOnMount seed script told.entries.items told.notes.items mount.state
        → IsImageOfRun seed script text) }
{
    image_left(alloc, &told, &mount)
}

// The same for a borrowed mount. Fails if a call of the run was out of memory, since the image would depend
// on which call that was.
fn image_left(alloc: Global, told: &RunOutput, mount: &Mount) -> Result<Bytes, AllocError>
    ensures { IfOk result (λ text. (seed : List ℕ) (script : List Section)
        → RanOnMount seed script told.now.entries.items told.now.notes.items mount.now.state
        → IsImageOfRun seed script text) }
{
    if is_any_out_of_memory(told.entries.as_slice()) {
        return Err(AllocError);
    }
    let text = write_image(alloc, &mount.state.disk)?;
    Ok(text)
}
