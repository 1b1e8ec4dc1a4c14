//! Standard input and output as a source and a sink: the edge of what is proved.

ghost use Rattle.std.specs.Prelude.{◌≡◌, ℕ};
ghost use Rattle.fsc_outside.specs.Reads.{AreReads};
ghost use Rattle.fsc_outside.specs.ReadLaws.{AreReads-none, AreReads-on};
ghost use Rattle.fsc_outside.specs.States.{source_state};

use crate::{Failed, Sink, Source};
use std::io::{Read, Stdin, Stdout, Write};
use std::marker::Model;

/// A reader as a source, such as standard input. An error of the reader is a fault. In clauses it
/// is the reader and its count of faults.
#[derive(Drop)]
pub struct StdSource<R: Read + Drop> {
    reader: R,
    faults: u64,
}

impl<R: Read + Drop> Model for StdSource<R> {
    ghost Value = { R × ℕ };

    ghost view = { λ source. (source.reader, source.faults) };
}

impl<R: Read + Drop> StdSource<R> {
    /// Returns the reader as a source.
    pub fn over(reader: R) -> Self
        ensures { result ≡ (reader, 0) }
    {
        StdSource { reader, faults: 0 }
    }
}

impl StdSource<Stdin> {
    /// Returns standard input as a source.
    pub fn new(rt: &HostRuntime) -> Self
        ensures { result.1 ≡ 0 }
    {
        StdSource::over(rt.stdin())
    }
}

impl<R: Read + Drop> Source for StdSource<R> {
    ghost state = { λ s. source_state (R.remaining s.0) s.1 };

    ghost after_calls = { λ old calls new. AreReads (source_state (R.remaining old.0) old.1) calls
        (source_state (R.remaining new.0) new.1) };

    ghost by_none = { λ s. AreReads-none (source_state (R.remaining s.0) s.1) };

    ghost by_more = { λ a b c. AreReads-on (source_state (R.remaining a.0) a.1)
        (source_state (R.remaining b.0) b.1) (source_state (R.remaining c.0) c.1) };

    fn read(&mut self, piece: &mut [u8]) -> Result<usize, Failed> {
        match self.reader.read(piece) {
            Ok(count) => Ok(count),
            Err(_) => {
                self.faults = self.faults.saturating_add(1);
                Err(Failed)
            }
        }
    }
}

/// A writer as a sink, such as standard output. An error of the writer is a fault, and so is a
/// write that takes nothing of a nonempty piece. In clauses it is the writer and its count of
/// faults.
#[derive(Drop)]
pub struct StdSink<W: Write + Drop> {
    writer: W,
    faults: u64,
}

impl<W: Write + Drop> Model for StdSink<W> {
    ghost Value = { W × ℕ };

    ghost view = { λ sink. (sink.writer, sink.faults) };
}

impl<W: Write + Drop> StdSink<W> {
    /// Returns the writer as a sink.
    pub fn over(writer: W) -> Self
        ensures { result ≡ (writer, 0) }
    {
        StdSink { writer, faults: 0 }
    }
}

impl StdSink<Stdout> {
    /// Returns standard output as a sink.
    pub fn new(rt: &HostRuntime) -> Self
        ensures { result.1 ≡ 0 }
    {
        StdSink::over(rt.stdout())
    }
}

impl<W: Write + Drop> Sink for StdSink<W> {
    ghost state = { λ s. record { got = W.contents s.0; faults = s.1 } };

    fn write(&mut self, piece: &[u8]) -> Result<usize, Failed> {
        match self.writer.write(piece) {
            Ok(count) if count > 0 || piece.is_empty() => Ok(count),
            _ => {
                self.faults = self.faults.saturating_add(1);
                Err(Failed)
            }
        }
    }
}
