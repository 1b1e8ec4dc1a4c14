//! How a refused log differs from a run.

ghost use Rattle.script_lang.specs.Spelled.{IsSpelled};

use crate::one_mount::OneMount;
use argon_kdf::PlainStretch;
use item_list::Bytes;
use log_check::{Continuation, expected_after};
use mount_shared::Mount;
use script_lang::Script;
use std::alloc::{AllocError, Global};
use text_words::next_line;

/// What a refused log and a run have at the place where they begin to differ. Each is a line without its
/// line feed, or `None` if nothing follows there.
#[derive(Drop)]
pub struct Difference {
    pub in_log: Option<Bytes>,
    pub in_run: Option<Bytes>,
    /// The line of the script with the command that makes the call of the run's line.
    pub command: Option<u32>,
    /// Whether the log's entries end there: the place is the number of all its lines of calls.
    pub is_last: bool,
}

// Returns how the log differs from a run of the script after the first `place` lines. Returns `None` if no
// run has that many lines of the log, or there is no memory to find the difference.
pub(crate) fn difference_at(
    alloc: Global,
    seed: &[u8; 32],
    script: &Script,
    log: &[u8],
    place: u64,
) -> Option<Difference>
    requires { IsSpelled script.now }
{
    let mount = Mount::new(alloc).ok()?;
    let mut one = OneMount { mount };
    match expected_after(alloc, &PlainStretch, script, seed, log, place, &mut one) {
        Ok(Some(next)) => difference_of(alloc, log, place, next).ok(),
        _ => None,
    }
}

// The same, from what a run has there.
fn difference_of(
    alloc: Global,
    log: &[u8],
    place: u64,
    next: Continuation,
) -> Result<Difference, AllocError> {
    let rest = after_lines(log, place);
    let is_last = rest.is_empty() || rest.starts_with(b"note ");
    let (in_log, in_run, command) = match &next {
        Continuation::Line { line, command } => (
            first_line(rest),
            first_line(line.as_slice()),
            *command,
        ),
        Continuation::Notes(notes) => {
            let (in_log, in_run) = first_apart(rest, notes.as_slice());
            (in_log, in_run, None)
        }
    };
    Ok(Difference {
        in_log: copy_of(alloc, in_log)?,
        in_run: copy_of(alloc, in_run)?,
        command,
        is_last,
    })
}

// Returns the text after its first `count` lines.
fn after_lines(text: &[u8], count: u64) -> &[u8] {
    let mut rest = text;
    for _ in 0..count {
        rest = next_line(rest).rest;
    }
    rest
}

// Returns the first line without its line feed, or `None` if the text is empty. A last piece without a line
// feed is returned too, but no run has one.
fn first_line(text: &[u8]) -> Option<&[u8]> {
    if text.is_empty() {
        return None;
    }
    Some(next_line(text).bytes)
}

// Returns the first lines at which the two texts differ.
fn first_apart<'t>(log: &'t [u8], run: &'t [u8]) -> (Option<&'t [u8]>, Option<&'t [u8]>) {
    let mut log = log;
    let mut run = run;
    for _ in 0..log.len() {
        let own = next_line(log);
        let other = next_line(run);
        if log.is_empty() || run.is_empty() || own.bytes != other.bytes || !own.ended {
            break;
        }
        log = own.rest;
        run = other.rest;
    }
    (first_line(log), first_line(run))
}

fn copy_of(alloc: Global, line: Option<&[u8]>) -> Result<Option<Bytes>, AllocError> {
    match line {
        Some(line) => Ok(Some(Bytes::from_vec(Vec::from_slice(alloc, line)?))),
        None => Ok(None),
    }
}
