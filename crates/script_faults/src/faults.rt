//! Faults of a line of a script.

use crate::word_kinds::WordKind;
use thiserror::Error;

// The bytes that some editors write at the beginning of a text.
pub(crate) const BYTE_ORDER_MARK: [u8; 3] = [0xef, 0xbb, 0xbf];

/// Why a line is at fault. Its text is read after the line: `"mkdri" is no command`.
#[derive(Clone, Copy, Debug, PartialEq, Eq, Error)]
pub enum LineFault {
    /// No line feed ended it.
    #[error("is not ended by a line feed")]
    NotEnded,
    #[error("begins with a byte order mark")]
    ByteOrderMark,
    #[error("has a carriage return")]
    CarriageReturn,
    #[error("has a tab, where one space separates two words")]
    Tab,
    /// A space is at the beginning, at the end, or after another.
    #[error("has a space too many")]
    SpareSpace,
    #[error("is no command")]
    NoCommand,
    #[error("has too few words")]
    TooFewWords,
    #[error("has too many words")]
    TooManyWords,
    /// The first word that is not of the required kind, by its number among those after the name, from 1.
    #[error("has a word, number {number} after it, that is no {kind}")]
    NoSuchWord { number: usize, kind: WordKind },
    /// It is a command before the first caller.
    #[error("comes before the first caller")]
    NoCallerYet,
    #[error("names a ninth caller")]
    NinthCaller,
}

/// A line at fault, by its number from 1.
#[derive(Clone, Copy, Debug, PartialEq, Eq)]
pub struct FaultyLine {
    pub line: u32,
    pub fault: LineFault,
}
