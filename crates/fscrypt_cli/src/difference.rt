//! What is printed for a refused log with its place: what the log has there, and what a run has.

use crate::help::remark;
use fsc_tool::Difference;
use item_list::Bytes;
use std::alloc::{AllocError, Global};

// The maximal number of characters that are printed of a line.
const MAX_PRINTED_OF_LINE: usize = 400;

/// Prints on standard error what the log has at the place of its refusal, and what a run has there.
pub(crate) fn print_difference(rt: &HostRuntime, found: &Difference) {
    if found.is_last {
        remark(rt, "that is after the last entry of the log");
    }
    print_line(rt, "the log has", found.in_log.as_ref(), None);
    print_line(rt, "a run has", found.in_run.as_ref(), found.command);
    report_equal_lines(rt, found);
    if ends_in_carriage_return(found.in_log.as_ref()) {
        remark(
            rt,
            "the log's line ends in a carriage return: save the log with line feeds alone",
        );
    }
}

// Prints why the log is refused if both lines look the same.
fn report_equal_lines(rt: &HostRuntime, found: &Difference) {
    let (Some(own), Some(other)) = (&found.in_log, &found.in_run) else {
        return;
    };
    let own = own.as_slice();
    let other = other.as_slice();
    if own == other {
        remark(rt, "no line feed ends the log's line");
    } else if shown_part(own) == shown_part(other) {
        remark(rt, "they differ after what is shown of them");
    }
}

// Returns the beginning of a line that is printed.
fn shown_part(line: &[u8]) -> &[u8] {
    match line.get(..MAX_PRINTED_OF_LINE) {
        Some(part) => part,
        None => line,
    }
}

// Prints which side has which line, and for a call the line of the script with its command.
fn print_line(rt: &HostRuntime, who: &str, line: Option<&Bytes>, command: Option<u32>) {
    let Some(line) = line else {
        let _ = eprintln!(rt; "fsc: {who}: nothing more");
        return;
    };
    let Ok(text) = printable(rt.alloc(), line.as_slice()) else {
        return;
    };
    let _ = match command {
        Some(number) => eprintln!(rt; "fsc: {who}: {text} (line {number} of the script)"),
        None => eprintln!(rt; "fsc: {who}: {text}"),
    };
}

// Returns the printed part of the line, with a question mark for each byte outside of printable ASCII.
fn printable(alloc: Global, line: &[u8]) -> Result<String, AllocError> {
    let mut text = String::new(alloc);
    for byte in shown_part(line) {
        let is_shown = byte.is_ascii_graphic() || *byte == b' ';
        text.push(if is_shown { char::from(*byte) } else { '?' })?;
    }
    Ok(text)
}

fn ends_in_carriage_return(line: Option<&Bytes>) -> bool {
    match line {
        Some(line) => line.as_slice().last() == Some(&b'\r'),
        None => false,
    }
}
