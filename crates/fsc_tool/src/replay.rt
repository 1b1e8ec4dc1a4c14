//! What precedes and follows a run's calls: a script with a seed from the input's bytes, and the log as
//! output. `specs/Replay.antt` defines what a run as a whole means.

ghost use Rattle.std.specs.Prelude.{◌≡◌, ◌++◌, [], replicate, IfOk, IfErr};
ghost use Rattle.call_history.specs.Placed.{entries_of};
ghost use Rattle.fsc_outside.specs.States.{SinkState};
ghost use Rattle.reply_text.specs.Notes.{notes_text};
ghost use Rattle.reply_text.specs.Logged.{log_of_history};
ghost use Rattle.fsc_tool.specs.declared.status.Status.TheVariants.{NoMemory};
ghost use Rattle.script_lang.specs.Spelled.{IsSpelled};
ghost use Rattle.fsc_tool.specs.Ends.{Ends};
ghost use Rattle.fsc_tool.specs.Faults.{input_status, script_status};
ghost use Rattle.fsc_tool.specs.Outside.{outside};
ghost use Rattle.fsc_tool.specs.Prepared.{IsPrepared, NoText};
ghost use Rattle.fsc_tool.specs.Seed.{wiped_seeding};
ghost use Rattle.fsc_tool.specs.Written.{EndsLog};

use crate::form::Seeding;
use crate::limits::INPUT_LIMITS;
use crate::seed::{take_seed, wipe_seeding};
use crate::status::Status;
use crate::writing::write_text;
use byte_words::wipe;
use call_history::Entry;
use fsc_outside::{InputFault, SeedSource, Sink, Source, read_all};
use fsc_session::scrub_stack;
use item_list::Bytes;
use mount_model::Reply;
use reply_text::{LoggedCall, Note, write_log, write_notes};
use script_lang::{Script, ScriptFault, read_script, wipe_script};
use script_runs::{RunOutput, history_of};
use std::alloc::{AllocError, Global};

// What a run starts from.
#[derive(Drop)]
pub(crate) struct Prepared {
    pub(crate) script: Script,
    pub(crate) seed: [u8; 32],
}

impl Prepared {
    // Wipes the secrets of the script, which is empty afterwards, and the seed.
    pub(crate) fn wipe(&mut self, alloc: Global)
        ensures script { self.new.script ≡ [] }
        ensures seed { self.new.seed ≡ replicate 32 0 }
    {
        wipe_script(alloc, &mut self.script);
        wipe(&mut self.seed);
    }
}

// Returns the script that the source gives and the seed of the run, or the status with which the run ends
// before its first call. Wipes the input's bytes once they are read. Wipes at every end the arguments' seed
// and what the reading left on the stack. The result is in a box, so that no move leaves another copy of
// the seed.
pub(crate) fn prepare<S: Source, E: SeedSource>(
    alloc: Global,
    seeding: &mut Seeding,
    source: &mut S,
    seeds: &mut E,
) -> Result<Box<Prepared>, Status>
    ensures prepared { IfOk result (λ run. IsPrepared (λ calls. S.after_calls source.old calls source.new)
        seeding.old (S.state source.old) (S.state source.new) (E.state seeds.old) (E.state seeds.new)
        run.value.script run.value.seed) }
    ensures spelled { IfOk result (λ run. IsSpelled run.value.script) }
    ensures ended { IfErr result (λ status. (sink : SinkState)
        → Ends NoText (λ calls. S.after_calls source.old calls source.new) seeding.old
        (outside (S.state source.old) sink (E.state seeds.old))
        (outside (S.state source.new) sink (E.state seeds.new)) status) }
    ensures wiped { seeding.new ≡ wiped_seeding seeding.old }
{
    let prepared = prepare_unscrubbed(alloc, seeding, source, seeds);
    wipe_seeding(seeding);
    scrub_stack();
    prepared
}

// The same without the final wiping. Its frame is its own, so that what it leaves on the stack, such as a
// copy of the arguments' seed, is below the frame that wipes it.
#[inline(never)]
fn prepare_unscrubbed<S: Source, E: SeedSource>(
    alloc: Global,
    seeding: &Seeding,
    source: &mut S,
    seeds: &mut E,
) -> Result<Box<Prepared>, Status>
    ensures prepared { IfOk result (λ run. IsPrepared (λ calls. S.after_calls source.old calls source.new)
        seeding.now (S.state source.old) (S.state source.new) (E.state seeds.old) (E.state seeds.new)
        run.value.script run.value.seed) }
    ensures spelled { IfOk result (λ run. IsSpelled run.value.script) }
    ensures ended { IfErr result (λ status. (sink : SinkState)
        → Ends NoText (λ calls. S.after_calls source.old calls source.new) seeding.now
        (outside (S.state source.old) sink (E.state seeds.old))
        (outside (S.state source.new) sink (E.state seeds.new)) status) }
{
    let input = match read_all(alloc, source, INPUT_LIMITS) {
        Ok(input) => input,
        Err(fault) => return Err(input_status(fault)),
    };
    let read = read_script(alloc, input.as_slice());
    wipe_input(input);
    let script = match read {
        Ok(script) => script,
        Err(fault) => return Err(script_status(fault)),
    };
    let mut run = unseeded(alloc, script)?;
    match take_seed(seeding, seeds) {
        Ok(seed) => run.seed = seed,
        Err(_) => {
            run.wipe(alloc);
            return Err(Status::SeedFault);
        }
    }
    Ok(run)
}

// Returns a run of the script, with zeros as its seed. The only error is `NoMemory`; the script is wiped
// then.
fn unseeded(alloc: Global, script: Script) -> Result<Box<Prepared>, Status>
    ensures script { IfOk result (λ run. run.value.script ≡ script) }
    ensures error { IfErr result (λ status. status ≡ NoMemory) }
{
    let seed = [0; 32];
    match Box::new(alloc, Prepared { script, seed }) {
        Ok(run) => Ok(run),
        Err(mut refused) => {
            refused.value.wipe(alloc);
            Err(Status::NoMemory)
        }
    }
}

// Wipes the input's bytes, which contain the script's secrets as digits.
pub(crate) fn wipe_input(input: Bytes) {
    let mut text = input.into_vec();
    wipe(text.as_mut_slice());
}

// Returns the status of a run whose input could not be read.
pub(crate) fn input_status(fault: InputFault) -> Status
    ensures { result ≡ input_status fault }
{
    match fault {
        InputFault::ReadFault => Status::ReadFault,
        InputFault::TooLong => Status::TooLong,
        InputFault::NoMemory => Status::NoMemory,
    }
}

// Returns the status of a run whose input could not be read as a script.
pub(crate) fn script_status(fault: ScriptFault) -> Status
    ensures { result ≡ script_status fault }
{
    match fault {
        ScriptFault::BadLine { line } => Status::BadLine { line },
        ScriptFault::NoMemory => Status::NoMemory,
    }
}

// Writes the log of a run into the sink, once it is complete. Returns how the run ends.
pub(crate) fn finish<K: Sink>(alloc: Global, told: RunOutput, sink: &mut K) -> Status
    ensures { EndsLog (log_of_history (entries_of told.entries.items) ++ notes_text told.notes.items)
        (K.state sink.old) (K.state sink.new) result }
{
    let log = match log_of(alloc, told) {
        Ok(log) => log,
        Err(_) => return Status::NoMemory,
    };
    write_text(log, sink)
}

// Returns the log of the entries, whose places are their numbers, followed by the notes.
fn log_of(alloc: Global, told: RunOutput) -> Result<Bytes, AllocError>
    ensures { IfOk result (λ log.
        log ≡ log_of_history (entries_of told.entries.items) ++ notes_text told.notes.items) }
{
    let history = history_of(alloc, told.entries)?;
    whole_log(alloc, history.as_slice(), told.notes.as_slice())
}

// Returns the log of a history, followed by the notes.
pub(crate) fn whole_log(
    alloc: Global,
    history: &[Entry<LoggedCall, Reply>],
    notes: &[Note],
) -> Result<Bytes, AllocError>
    ensures { IfOk result (λ log. log ≡ log_of_history history.now ++ notes_text notes.now) }
{
    let mut log = write_log(alloc, history)?.into_vec();
    let mut notes = write_notes(alloc, notes)?.into_vec();
    log.append(&mut notes)?;
    Ok(Bytes::from_vec(log))
}
