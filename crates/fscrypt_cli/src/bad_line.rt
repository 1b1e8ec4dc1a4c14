//! What is printed for a line at fault: its first word alone, since the words after it may be secrets, why
//! it is at fault, and the remedy.

use crate::commands::form_of_name;
use crate::help::remark;
use script_faults::{FaultyLine, LineFault, WordKind, line_fault_after};
use std::alloc::{AllocError, Global};
use text_words::{next_line, nth_word};

// The maximal number of characters that are printed of a word.
const MAX_PRINTED: usize = 60;

/// The maximal number of lines at fault that are printed in one run.
pub(crate) const MAX_LINES_PRINTED: usize = 20;

// More bytes than any input that is read has, and few enough that each line has a number.
const MAX_NUMBERED_BYTES: usize = 4_294_967_295;

const LISTED: &str = "fsc --help lists the commands";

// It is printed for a long log after a script too, so it contains both remedies.
const NO_MEMORY_FOR_FAULT: &str =
    "there was no memory to find why it is at fault; try the script alone, or with more memory free";

const COMMENT: &str = "a comment is a line of its own";

// For a line of too many words: how one of them begins, and the remedy.
static SPARE_WORDS: [(&str, &str); 3] = [
    ("#", COMMENT),
    ("pass:", "write a space in a passphrase as %20"),
    ("/", "write a space in a path as %20"),
];

// What is printed for a line at fault.
#[derive(Drop)]
struct ReportedLine {
    word: String,
    fault: LineFault,
    remedy: &'static str,
}

/// Prints up to `most` lines at fault of a text on standard error; `line` is the number of the first. If
/// the text wasn't stored, or there is no memory to read it, only that number is known.
pub(crate) fn show_lines(rt: &HostRuntime, text: Option<&[u8]>, line: u32, most: usize) {
    let is_printed = match text {
        Some(text) => print_lines(rt, text, most),
        None => false,
    };
    if !is_printed {
        let _ = eprintln!(rt; "fsc: line {line}: {NO_MEMORY_FOR_FAULT}");
    }
}

// Prints each line at fault, up to `most` of them. Returns false if there is no memory to find the first.
// After a line at fault a caller counts as begun, so that no command is printed only because no caller
// precedes it.
fn print_lines(rt: &HostRuntime, text: &[u8], most: usize) -> bool {
    let mut reached = Reached {
        rest: text,
        lines: 0,
        callers: 0,
    };
    for number in 0..most {
        let Some(found) = reached.next_fault(rt.alloc()) else {
            return number > 0;
        };
        let line = reached.pass(found.line);
        let Ok(word) = shown(rt.alloc(), line) else {
            return number > 0;
        };
        let told = ReportedLine {
            word,
            fault: found.fault,
            remedy: remedy(line, found.fault),
        };
        print_line(rt, found.line, &told);
    }
    if most > 1 {
        remark(rt, "further lines are not looked at");
    }
    true
}

// How far a text was read: the rest, the number of lines before it, and how many callers begin in them.
#[derive(Drop)]
struct Reached<'t> {
    rest: &'t [u8],
    lines: u32,
    callers: usize,
}

impl<'t> Reached<'t> {
    // Returns the next line at fault, if there is one and memory to find it.
    fn next_fault(&self, alloc: Global) -> Option<FaultyLine> {
        let room = MAX_NUMBERED_BYTES - self.lines as usize;
        if self.rest.len() > room || self.callers > self.lines as usize {
            return None;
        }
        line_fault_after(alloc, self.lines, self.callers, self.rest).ok()?
    }

    // Continues after the line of this number, which is at fault, and returns it.
    fn pass(&mut self, number: u32) -> &'t [u8] {
        let mut passed = self.rest;
        for _ in self.lines..number {
            let line = next_line(self.rest);
            passed = line.bytes;
            if first_word(passed) == b"caller".as_slice() {
                self.callers = self.callers.saturating_add(1);
            }
            self.rest = line.rest;
        }
        self.lines = number;
        if self.callers == 0 {
            self.callers = 1;
        }
        passed
    }
}

// Prints what is known of the line of this number.
fn print_line(rt: &HostRuntime, line: u32, told: &ReportedLine) {
    let word = told.word.as_str();
    let fault = told.fault;
    let remedy = told.remedy;
    let _ = eprintln!(rt; "fsc: line {line}: \"{word}\" {fault}; {remedy}");
}

/// Whether all of these are hexadecimal digits.
pub(crate) fn is_hexadecimal(digits: &[u8]) -> bool {
    digits.iter().all(|byte| byte.is_ascii_hexdigit())
}

/// Returns the text before the first character that is not in the range from `!` to `~`.
pub(crate) fn first_word(line: &[u8]) -> &[u8] {
    match line.split(|byte| !byte.is_ascii_graphic()).next() {
        Some(word) => word,
        None => line,
    }
}

/// Returns the first word of a text, cut to 60 characters.
pub(crate) fn shown(alloc: Global, text: &[u8]) -> Result<String, AllocError> {
    let mut word = String::new(alloc);
    for byte in first_word(text).iter().take(MAX_PRINTED) {
        word.push(char::from(*byte))?;
    }
    Ok(word)
}

// Returns the remedy for a line that is at fault.
fn remedy(line: &[u8], fault: LineFault) -> &'static str {
    match fault {
        LineFault::NotEnded => "end the last line by a line feed",
        LineFault::ByteOrderMark => "save the script without it",
        LineFault::CarriageReturn => "save the script with line feeds alone",
        LineFault::NoSuchWord { number, kind } => match nth_word(line, number) {
            Some(word) => remedy_of_word(word, kind),
            None => LISTED,
        },
        LineFault::TooFewWords => form_of(line),
        LineFault::TooManyWords => remedy_of_words(line),
        LineFault::NoCallerYet => "begin with caller UID",
        LineFault::NinthCaller => "a script has at most eight callers",
        _ => LISTED,
    }
}

// Returns the remedy for a word that isn't of this kind.
fn remedy_of_word(word: &[u8], kind: WordKind) -> &'static str {
    if word.starts_with(b"#") {
        return COMMENT;
    }
    if word.iter().any(|byte| !byte.is_ascii_graphic()) {
        return "write a byte outside of ! to ~ as %XX";
    }
    match digits_of(word, kind) {
        Some(digits) => remedy_of_digits(digits),
        None => remedy_of_spelling(word, kind),
    }
}

// Returns the part of a word of this kind that is to be digits which spell bytes, if it has one.
fn digits_of(word: &[u8], kind: WordKind) -> Option<&[u8]> {
    match kind {
        WordKind::AddedBytes
        | WordKind::WrittenBytes
        | WordKind::PutBytes
        | WordKind::PolicyBytes => Some(word),
        WordKind::Key | WordKind::Secret | WordKind::NewSecret => {
            word.strip_prefix(b"raw:").or(word.strip_prefix(b"id:"))
        }
        _ => None,
    }
}

// Returns the remedy for digits that spell no bytes.
fn remedy_of_digits(digits: &[u8]) -> &'static str {
    if digits.starts_with(b"0x") {
        return "write the digits without 0x";
    }
    if is_hexadecimal(digits) && digits.len() % 2 == 1 {
        return "their number is odd: a byte is two digits";
    }
    LISTED
}

// Returns the remedy for a word of this kind that has no such digits.
fn remedy_of_spelling(word: &[u8], kind: WordKind) -> &'static str {
    match kind {
        WordKind::Path | WordKind::Target | WordKind::Secret | WordKind::NewSecret
            if word.contains(&b'%') => {
            "two hexadecimal digits follow each %, and % itself is %25"
        }
        WordKind::Number | WordKind::FilledLength | WordKind::Byte =>
            "write it without leading zeros or a sign",
        _ => LISTED,
    }
}

// Returns the remedy for a line of more words than its command takes.
fn remedy_of_words(line: &[u8]) -> &'static str {
    for &(start, remedy) in &SPARE_WORDS {
        if has_word(line, start.as_bytes()) {
            return remedy;
        }
    }
    form_of(line)
}

// Returns the words of the line's command.
fn form_of(line: &[u8]) -> &'static str {
    let name = first_word(line);
    if name == b"caller".as_slice() {
        return "caller UID";
    }
    match form_of_name(name) {
        Some(form) => form,
        None => LISTED,
    }
}

// Whether the line has a word that begins so.
fn has_word(line: &[u8], start: &[u8]) -> bool {
    line.split(|byte| *byte == b' ')
        .any(|word| word.starts_with(start))
}
