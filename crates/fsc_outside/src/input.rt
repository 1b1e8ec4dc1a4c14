//! Reading a whole input, within limits.

ghost use Rattle.std.specs.Prelude.{◌≡◌, ◌<◌};
ghost use Rattle.fsc_outside.specs.Input.{EndsReading, LimitsLines};

use crate::Source;
use item_list::Bytes;
use std::alloc::{AllocError, Global};
use text_words::line_count;
use thiserror::Error;

/// The maximal number of bytes that one call asks for.
const MAX_AT_ONCE: usize = 4_096;

/// The maximal numbers of bytes and of lines of an input. A last piece without a line feed counts as a
/// line.
#[derive(Clone, Copy)]
pub struct InputLimits {
    pub bytes: usize,
    pub lines: usize,
}

/// Why an input wasn't read.
#[derive(Clone, Copy, Debug, PartialEq, Eq, Error)]
pub enum InputFault {
    /// The source failed.
    #[error("read fault")]
    ReadFault,
    /// The input has more bytes or lines than the limits allow.
    #[error("input too long")]
    TooLong,
    /// Out of memory.
    #[error("out of memory")]
    NoMemory,
}

impl From<AllocError> for InputFault {
    ghost use Rattle.std.specs.Prelude.{◌≡◌};
    ghost use Rattle.fsc_outside.specs.declared.input.InputFault.TheVariants.{NoMemory};

    ghost from_gives = { λ _ fault. fault ≡ NoMemory };

    fn from(_: AllocError) -> InputFault {
        InputFault::NoMemory
    }
}

/// Reads a source to its end, and returns the text. Reading stops at the first byte beyond the limit, so
/// it makes at most one call more than the limit has bytes. Its errors are
/// - `ReadFault` if a call failed,
/// - `TooLong` at the first byte beyond the limit, or at the end of a text with too many lines,
/// - `NoMemory`, possibly at any piece.
pub fn read_all<S: Source>(
    alloc: Global,
    source: &mut S,
    limits: InputLimits,
) -> Result<Bytes, InputFault>
    requires { limits.bytes < usize.MAX }
    ensures { EndsReading limits (λ calls. S.after_calls source.old calls source.new) (S.state source.old)
        (S.state source.new) result }
{
    let mut text = Vec::new(alloc);
    'reading: while text.len() <= limits.bytes {
        let mut piece = [0; MAX_AT_ONCE];
        let room = (limits.bytes + 1 - text.len()).min(MAX_AT_ONCE);
        let room = &mut piece[..room];
        let count = match source.read(room) {
            Ok(count) => count,
            Err(_) => return Err(InputFault::ReadFault),
        };
        if count == 0 {
            return within_lines(text, limits.lines);
        }
        text.extend_from_slice(&room[..count])?;
    }
    Err(InputFault::TooLong)
}

// The text, or `TooLong` if it has more than `most` lines.
fn within_lines(text: Vec<u8>, most: usize) -> Result<Bytes, InputFault>
    ensures { LimitsLines most text.items result }
{
    if line_count(&text) > most {
        return Err(InputFault::TooLong);
    }
    Ok(Bytes::from_vec(text))
}
