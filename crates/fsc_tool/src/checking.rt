//! The run that checks a log. It writes nothing, and asks for no seed.

ghost use Rattle.std.specs.Prelude.{◌≡◌, List, replicate, IfOk};
ghost use Rattle.log_check.specs.Verdicts.{IsVerdictOf};
ghost use Rattle.script_lang.specs.Spelled.{IsSpelled};
ghost use Rattle.fsc_outside.specs.Reads.{ReadCall};
ghost use Rattle.fsc_outside.specs.States.{SeedState, SinkState};
ghost use Rattle.fsc_tool.specs.Checking.{IsChecking};
ghost use Rattle.fsc_tool.specs.CheckStatus.{StatusOfInput, StatusOfLog};
ghost use Rattle.fsc_tool.specs.Outside.{outside};

use crate::difference::{Difference, difference_at};
use crate::limits::CERTIFICATE_LIMITS;
use crate::one_mount::OneMount;
use crate::replay::{input_status, script_status, wipe_input};
use crate::splitting::split_input;
use crate::status::Status;
use crate::{MAX_INPUT_BYTES, MAX_INPUT_LINES};
use argon_kdf::PlainStretch;
use byte_words::wipe;
use fsc_outside::{Source, read_all};
use fsc_session::scrub_stack;
use log_check::{Verdict, check_log};
use mount_shared::Mount;
use script_lang::{Script, read_script, wipe_script};
use std::alloc::{AllocError, Global};
use text_words::line_count;

// Checks the log after the script in the source's input, against runs with this seed, and wipes the seed.
// If the log is refused, stores in `difference` how it differs from a run.
pub(crate) fn run_checking<S: Source>(
    alloc: Global,
    strict: bool,
    seed: &mut [u8; 32],
    source: &mut S,
    difference: &mut Option<Difference>,
) -> Status
    ensures checked { (sink : SinkState) (seeds : SeedState) → IsChecking strict seed.old
        (λ (calls : List ReadCall). S.after_calls source.old calls source.new)
        (outside (S.state source.old) sink seeds) (outside (S.state source.new) sink seeds) result }
    ensures wiped { seed.new ≡ replicate 32 0 }
{
    let status = check_source(alloc, strict, seed, source, difference);
    wipe(seed);
    scrub_stack();
    status
}

// The same without the final wiping. Its frame is its own, so that what it leaves on the stack is below the
// frame that wipes it.
#[inline(never)]
fn check_source<S: Source>(
    alloc: Global,
    strict: bool,
    seed: &[u8; 32],
    source: &mut S,
    difference: &mut Option<Difference>,
) -> Status
    ensures { (sink : SinkState) (seeds : SeedState) → IsChecking strict seed.now
        (λ (calls : List ReadCall). S.after_calls source.old calls source.new)
        (outside (S.state source.old) sink seeds) (outside (S.state source.new) sink seeds) result }
{
    let input = match read_all(alloc, source, CERTIFICATE_LIMITS) {
        Ok(input) => input,
        Err(fault) => return input_status(fault),
    };
    let status = check_input(alloc, strict, seed, input.as_slice(), difference);
    wipe_input(input);
    status
}

// Returns the status for an input that was read. Wipes its script.
fn check_input(
    alloc: Global,
    strict: bool,
    seed: &[u8; 32],
    input: &[u8],
    difference: &mut Option<Difference>,
) -> Status
    ensures { StatusOfInput strict seed.now input.now result }
{
    let parts = split_input(input);
    let part = match parts {
        Some((part, _)) => part,
        None => input,
    };
    let lines = line_count(part);
    if part.len() > MAX_INPUT_BYTES || lines > MAX_INPUT_LINES {
        return Status::TooLong;
    }
    let mut script = match read_script(alloc, part) {
        Ok(script) => script,
        Err(fault) => return script_status(fault),
    };
    let status = match parts {
        Some((_, log)) => check_text(alloc, strict, seed, &script, log, difference),
        None => Status::BadLine {
            line: lines as u32 + 1,
        },
    };
    wipe_script(alloc, &mut script);
    status
}

// Returns the status for a log of the script. If the log is refused, stores in `difference` how it differs
// from a run.
fn check_text(
    alloc: Global,
    strict: bool,
    seed: &[u8; 32],
    script: &Script,
    log: &[u8],
    difference: &mut Option<Difference>,
) -> Status
    requires { IsSpelled script.now }
    ensures { StatusOfLog strict seed.now script.now log.now result }
{
    match verdict(alloc, strict, seed, script, log) {
        Ok(Verdict::Certified) => Status::Done,
        Ok(Verdict::Refused { place }) => {
            *difference = difference_at(alloc, seed, script, log, place);
            Status::Refused { place }
        }
        Err(_) => Status::NoMemory,
    }
}

// Returns the verdict on a log of the script, with a mount of its own that answers the calls.
fn verdict(
    alloc: Global,
    strict: bool,
    seed: &[u8; 32],
    script: &Script,
    log: &[u8],
) -> Result<Verdict, AllocError>
    requires { IsSpelled script.now }
    ensures { IfOk result (IsVerdictOf strict seed.now script.now log.now) }
{
    let mount = Mount::new(alloc)?;
    let mut one = OneMount { mount };
    check_log(alloc, &PlainStretch, strict, script, seed, log, &mut one)
}
