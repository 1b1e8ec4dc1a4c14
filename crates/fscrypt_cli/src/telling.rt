//! What is printed of a run while it runs.

use crate::kept::RecordedText;
use crate::lines::CommandLine;
use fsc_outside::Gate;
use std::io::IsTerminal;

// Goes back to the start of the line, and clears it.
const CLEARED: &str = "\r\x1b[K";

/// Clears the message on a command that was out of memory: its gate isn't called after it.
pub(crate) fn clear_command(rt: &HostRuntime) {
    if rt.stderr().is_terminal() {
        let _ = rt.eprint(CLEARED);
    }
}

/// A gate that drops the stored text when the first command begins, since no line is at fault from then on.
/// On a terminal, prints on standard error which line of the script runs. If the script wasn't read from
/// standard input, or there was no memory to find the lines, it prints the caller and the number of its
/// command. The message is cleared after a command that had memory.
#[derive(Drop)]
pub(crate) struct TellingGate<'a> {
    rt: &'a HostRuntime,
    kept: &'a RecordedText,
    is_terminal: bool,
}

impl<'a> TellingGate<'a> {
    pub(crate) fn new(
        rt: &'a HostRuntime,
        kept: &'a RecordedText,
        is_terminal: bool,
    ) -> TellingGate<'a> {
        TellingGate {
            rt,
            kept,
            is_terminal,
        }
    }
}

impl<'a> Gate for TellingGate<'a> {
    fn before(&self, caller: u32, n: u64) {
        if n == 0 {
            self.kept.forget();
        }
        if self.is_terminal {
            let _ = match self.kept.line_of(caller, n) {
                Some(CommandLine { line, verb }) => {
                    eprint!(self.rt; "{CLEARED}fsc: line {line}: {verb}")
                }
                None => eprint!(self.rt; "{CLEARED}fsc: command {n} of caller {caller}"),
            };
        }
    }

    fn after(&self, _caller: u32, _n: u64) {
        if self.is_terminal {
            let _ = self.rt.eprint(CLEARED);
        }
    }
}
