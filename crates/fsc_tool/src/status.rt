//! How a run ends.

ghost use Rattle.std.specs.Prelude.{◌≡◌, Some};
ghost use Rattle.fsc_tool.specs.Status.{status_number, status_text};

use std::fmt;

/// How a run ended.
#[derive(Clone, Copy, Debug, PartialEq, Eq)]
pub enum Status {
    /// What was asked for is written, or the log that was checked is certified.
    Done,
    /// The log that was checked can be one of a run up to this place, and no further.
    Refused { place: u64 },
    /// The arguments are no form of the command line.
    Usage,
    /// This line, counted from 1, is the first outside the grammar, or the line of an image that is at
    /// fault.
    BadLine { line: u32 },
    /// Reading the input failed.
    ReadFault,
    /// Writing the output failed, after a beginning of the text.
    WriteFault,
    /// The seed source failed. Nothing is written.
    SeedFault,
    /// The script has more than 1,048,576 bytes or 20,000 lines, the image has more than 268,435,456 bytes,
    /// or a script with a log after it has more than 67,108,864 bytes.
    TooLong,
    /// There was no memory. `dump` and `gen NUMBER --summary` return it also if a call of their run was out
    /// of memory.
    NoMemory,
}

impl Status {
    /// Returns the exit status of the program.
    pub fn number(self) -> u8
        ensures { result ≡ status_number self }
    {
        match self {
            Status::Done => 0,
            Status::Refused { .. } => 1,
            Status::Usage => 2,
            Status::BadLine { .. } => 3,
            Status::ReadFault => 4,
            Status::WriteFault => 5,
            Status::SeedFault => 6,
            Status::TooLong => 7,
            Status::NoMemory => 8,
        }
    }
}

impl fmt::Display for Status {
    ghost output = { λ status. Some (status_text status) };

    fn fmt<W: fmt::Write>(&self, f: &mut fmt::Formatter<W>) -> fmt::Result {
        match self {
            Status::Done => Ok(()),
            Status::Refused { place } => write!(f, "fsc: refused at {place}"),
            Status::Usage => f.write_str("fsc: usage"),
            Status::BadLine { line } => write!(f, "fsc: bad line {line}"),
            Status::ReadFault => f.write_str("fsc: read fault"),
            Status::WriteFault => f.write_str("fsc: write fault"),
            Status::SeedFault => f.write_str("fsc: seed fault"),
            Status::TooLong => f.write_str("fsc: input too long"),
            Status::NoMemory => f.write_str("fsc: no memory"),
        }
    }
}
