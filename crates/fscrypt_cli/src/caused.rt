//! A sink that stores why a write failed.

use fsc_outside::{Failed, Sink};
use std::io::{ErrorKind, Write};

/// A writer as a sink, as `StdSink` of `fsc_outside` is. It stores whether its reader is closed.
#[derive(Drop)]
pub(crate) struct CausedSink<W: Write + Drop> {
    writer: W,
    faults: u64,
    closed: bool,
}

impl<W: Write + Drop> CausedSink<W> {
    pub(crate) fn over(writer: W) -> CausedSink<W> {
        CausedSink {
            writer,
            faults: 0,
            closed: false,
        }
    }

    /// Whether a write failed because the other end of a pipe is closed.
    pub(crate) fn is_closed(&self) -> bool {
        self.closed
    }
}

impl<W: Write + Drop> Sink for CausedSink<W> {
    ghost state = { λ s. record { got = W.contents s.writer; faults = s.faults } };

    fn write(&mut self, piece: &[u8]) -> Result<usize, Failed> {
        match self.writer.write(piece) {
            Ok(count) if count > 0 || piece.is_empty() => return Ok(count),
            Ok(_) => {}
            Err(fault) => self.closed = fault.kind() == ErrorKind::BrokenPipe,
        }
        self.faults = self.faults.saturating_add(1);
        Err(Failed)
    }
}
