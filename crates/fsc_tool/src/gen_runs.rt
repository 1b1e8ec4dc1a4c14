//! The runs of the forms that generate a script. They ask neither the source nor the seed source.

ghost use Rattle.std.specs.Prelude.{◌≡◌, ◌++◌, false, [], IfOk, OnOk};
ghost use Rattle.std.specs.List.{list_any};
ghost use Rattle.call_history.specs.Placed.{entries_of};
ghost use Rattle.mount_model.specs.History.{is_out_of_memory};
ghost use Rattle.reply_text.specs.Notes.{notes_text};
ghost use Rattle.reply_text.specs.Logged.{log_of_history};
ghost use Rattle.fsc_tool.specs.TextEnds.{EndsUnread};
ghost use Rattle.fsc_tool.specs.Gen.{IsScriptText, SummaryOfRun, zero_seed};
ghost use Rattle.fsc_tool.specs.Summary.{summary_text};

use crate::replay::whole_log;
use crate::status::Status;
use crate::summary::{is_any_out_of_memory, summary_text};
use crate::writing::write_text;
use argon_kdf::PlainStretch;
use call_history::Entry;
use fsc_outside::{Gate, Sink};
use item_list::Bytes;
use load_gen::{generate, generate_script};
use mount_model::Reply;
use mount_shared::MountMachine;
use reply_text::{LoggedCall, Note};
use script_runs::{RunOutput, history_of, run_in_rotation};
use std::alloc::{AllocError, Global};

// Writes the number's script into the sink, once the whole script is made. Returns how the run ends.
pub(crate) fn run_generating<K: Sink>(alloc: Global, number: u32, sink: &mut K) -> Status
    ensures { EndsUnread (IsScriptText number) (K.state sink.old) (K.state sink.new) result }
{
    match generate(alloc, number) {
        Ok(text) => write_text(text, sink),
        Err(_) => Status::NoMemory,
    }
}

// The same for the summary of a run of that script.
pub(crate) fn run_summarising<K: Sink, G: Gate, M: MountMachine>(
    alloc: Global,
    number: u32,
    sink: &mut K,
    gate: &G,
    machine: M,
) -> Status
    requires { M.reaches [] machine }
    ensures { EndsUnread (SummaryOfRun M.lawful number) (K.state sink.old) (K.state sink.new) result }
{
    match summary_of(alloc, number, gate, machine) {
        Ok(text) => write_text(text, sink),
        Err(_) => Status::NoMemory,
    }
}

// Returns the summary of a run of the generated script in rotation. Fails if a call of the run was out of
// memory, since the summary would depend on which call that was.
fn summary_of<G: Gate, M: MountMachine>(
    alloc: Global,
    number: u32,
    gate: &G,
    machine: M,
) -> Result<Bytes, AllocError>
    requires { M.reaches [] machine }
    ensures { IfOk result (λ text. SummaryOfRun M.lawful number text) }
{
    let script = generate_script(alloc, number)?;
    let told = run_in_rotation(alloc, &script, &zero_seed(), gate, &PlainStretch, machine)?;
    let text = summary_of_output(alloc, told)?;
    Ok(text)
}

// Returns the summary of a run with these entries and notes. Fails if a call of the run was out of memory.
fn summary_of_output(alloc: Global, told: RunOutput) -> Result<Bytes, AllocError>
    ensures no_out_of_memory { OnOk result
        (list_any (λ placed. is_out_of_memory placed.1.reply) told.entries.items
        ≡ false) }
    ensures text { IfOk result (λ text. text ≡ summary_text (entries_of told.entries.items)
        (log_of_history (entries_of told.entries.items) ++ notes_text told.notes.items)) }
{
    if is_any_out_of_memory(told.entries.as_slice()) {
        return Err(AllocError);
    }
    let history = history_of(alloc, told.entries)?;
    summary_of_history(alloc, history.as_slice(), told.notes.as_slice())
}

// The same for a history and its notes.
fn summary_of_history(
    alloc: Global,
    history: &[Entry<LoggedCall, Reply>],
    notes: &[Note],
) -> Result<Bytes, AllocError>
    ensures { IfOk result (λ text. text
        ≡ summary_text history.now (log_of_history history.now ++ notes_text notes.now)) }
{
    let log = whole_log(alloc, history, notes)?;
    summary_text(alloc, history, log.as_slice())
}

// The seed of a run that is summarised: 32 zeros.
fn zero_seed() -> [u8; 32]
    ensures { result ≡ zero_seed }
{
    [0; 32]
}
