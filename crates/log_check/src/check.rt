//! A log is checked, line by line.

ghost use Rattle.std.specs.Prelude.{◌≡◌, [], All, IfOk, length};
ghost use Rattle.script_lang.specs.Spelled.{IsSpelled};
ghost use Rattle.log_check.specs.Verdicts.{IsVerdictOf};

use crate::one_thread::OneThread;
use crate::reading::Reading;
use crate::start::{begin_callers, forget, forget_callers, remembering_ways};
use argon_kdf::Stretch;
use fsc_session::scrub_stack;
use next_calls::Remembering;
use script_lang::Script;
use std::alloc::{AllocError, Global};

/// Whether a text can be the log of a run.
#[derive(Clone, Copy, Debug, PartialEq, Eq)]
pub enum Verdict {
    /// It is the log of a run, with its notes.
    Certified,
    /// It isn't: that many lines from its beginning are lines of a history, and no more.
    Refused { place: u64 },
}

/// Checks a text against a script, the seed of its run, and a mount that was not called yet. Returns
/// `Certified` if the text is a log, and otherwise `Refused`, with the number of lines that can be of one.
///
/// The callers' calls are made again from the replies in the text, the mount answers each, and the
/// resulting line is compared. If the text has `refused no-memory` for a call that may take memory, the
/// mount is not called; a strict check takes no such line. The one error is out of memory: of the check
/// itself, or of the mount if it is called. Then there is no verdict.
pub fn check_log<S: Stretch, T: OneThread>(
    alloc: Global,
    stretches: &S,
    strict: bool,
    script: &Script,
    seed: &[u8; 32],
    text: &[u8],
    mount: &mut T,
) -> Result<Verdict, AllocError>
    requires ready { S.ready stretches.now }
    requires spelled { IsSpelled script.now }
    requires reached_by { T.reached_by [] mount.old }
    ensures { IfOk result (IsVerdictOf strict seed.now script.now text.now) }
{
    let ways = remembering_ways(alloc, stretches, script.len())?;
    let said = read_log(alloc, ways.as_slice(), strict, script, seed, text, mount);
    forget(ways);
    scrub_stack();
    said
}

// The same, with a way to stretch for each caller.
fn read_log<'w, S: Stretch, T: OneThread>(
    alloc: Global,
    ways: &[Remembering<'w, S>],
    strict: bool,
    script: &Script,
    seed: &[u8; 32],
    text: &[u8],
    mount: &mut T,
) -> Result<Verdict, AllocError>
    requires ready { All S.ready ways.now }
    requires ways { length ways.now ≡ length script.now }
    requires spelled { IsSpelled script.now }
    requires reached_by { T.reached_by [] mount.old }
    ensures { IfOk result (IsVerdictOf strict seed.now script.now text.now) }
{
    let mut reading = Reading {
        callers: begin_callers(alloc, ways, script, seed)?,
        place: 0,
        rest: text,
    };
    'lines: loop {
        if !reading.read_line(alloc, strict, ways, seed, mount)? {
            let said = reading.verdict(alloc);
            forget_callers(alloc, reading.callers);
            return said;
        }
    }
}
