//! The help text of the program, and after a status the remedy.

use crate::asked::Asked;
use crate::bad_line::{MAX_LINES_PRINTED, first_word, show_lines};
use crate::commands::GROUPS;
use crate::image_cause::show_image_line;
use fsc_tool::Status;
use script_faults::is_usable;
use std::alloc::{AllocError, Global};
use text_words::{line_count, next_line};

/// The version of the product, and the kit that it is proved with.
pub(crate) const VERSION: &str = "\
fsc 0.3.0
proved with rattle-kit-13f, logic dac8208d650f15bf
";

const BEFORE_COMMANDS: &str = "\
fsc replays a script over an encrypted directory tree in memory, and prints a
log of it.

    fsc replay [--serial] [--seed HEX64]
    fsc replay-linked [--serial] --seed HEX64
    fsc gen NUMBER [--summary]
    fsc dump --seed HEX64
    fsc inspect [raw:HEX]
    fsc check [--strict] --seed HEX64
    fsc --help | --version

The script comes from standard input. Its callers run in threads, and the log
has the order in which their calls were answered. With --serial they take turns
instead. Without --seed the seed comes from the machine.

replay-linked runs a script on two mounts, and prints both logs. Its callers
run in threads too, or with --serial in turns.
Callers of an even number work on mount 0, the others on mount 1, where
protector-link stores links to protectors of mount 0, which they follow.

gen writes the script that a number gives, from 0 to 4294967295. With --summary
it runs that script in turns and writes entries, refused, busy and sha256.

dump runs a script in turns, and writes the image of what is then on the disk.
inspect reads an image and lists its tree: with a raw key of 32 to 64 bytes in
plain where that key encrypts it, else by the texts that represent names.

check reads a script, a line --- and a log, and reports whether a run of the
script with the seed can have printed the log: if not, from which place on, and
what a run has there. With --strict no call may have been out of memory.

A script has a section for each of up to eight callers, which begins with
`caller UID`, and in it a command a line. One space separates words. A line
that begins with # is a comment.
";

// The column of a command's meaning, if its words leave space for it.
const WIDTH_OF_FORMS: usize = 34;

const AFTER_COMMANDS: &str = "
HANDLE, OFFSET, LENGTH, BYTE, START and VERSION are decimal numbers. HEX is two
hexadecimal digits a byte. KEYREF is `id:` and 32 digits, or `raw:` and 64 to
128 of them, an even number. A key has 32 to 64 bytes; add-key takes a word of 1
to 128, and the mount refuses the other lengths.
PATH is `/`, or `/` before each part; a part `*k` is name k, from 0, of the
caller's last listing. In a path, a target and a passphrase %XX is a byte by two
hexadecimal digits, as %20 for a space and %25 for %.
LABEL, by which POLICY, PROTECTOR and ADDED are named, is 1 to 32 of a-z, 0-9, _
and -. RECORD is `policy/LABEL` or `protector/LABEL`.
PAD is what names are padded to: 4, 8, 16 or 32 bytes. UNIT is how contents are
cut: 0 for a block, or 9, 10, 11 or 12 for 512, 1024, 2048 or 4096 bytes.
SECRET is `raw:` and 64 digits, or `pass:` and a passphrase; a NEWSECRET has the
costs of stretching before its passphrase: `pass:PASSES:KIB:LANES:`.

A command of a session makes one call to four, and ends with a note after the
log's entries, which says how it ended.

Callers that take turns run the first command of each section in order, then the
second of each section that has one, and so on. Callers count from 0.

Exit statuses: 0 done, 1 the log is refused, 2 usage, 3 a line at fault, 4 the
input failed, 5 the output failed, 6 no seed, 7 the input is too long, 8 no
memory.

Documents: docs/FORMATS.md (scripts, logs, images), docs/ANSWERS.md (replies and
statuses), docs/LINUX.md (what differs from Linux), docs/fsc.1.

Example, where SEED is 64 hexadecimal digits:

    fsc replay --serial --seed SEED < examples/two-callers.fsc
";

const NO_PARTING_LINE: &str = "no line --- is between the script and its log";

const REFUSED: &str = "no run continues its log this way: entries are counted from 0, one a line";

/// Returns what `--help` prints: the forms, each command, and the pages to read next.
pub(crate) fn help_text(alloc: Global) -> Result<String, AllocError> {
    let mut text = String::new(alloc);
    push_help(&mut text)?;
    Ok(text)
}

fn push_help(text: &mut String) -> Result<(), AllocError> {
    text.push_str(BEFORE_COMMANDS)?;
    for group in GROUPS.iter() {
        push_group(text, group.title, group.lines)?;
    }
    text.push_str(AFTER_COMMANDS)
}

// Appends the group's title, and the words of each of its commands with what it does.
fn push_group(text: &mut String, title: &str, lines: &[(&str, &str)]) -> Result<(), AllocError> {
    let mut listed = false;
    for &(form, meaning) in lines.iter() {
        if is_usable(first_word(form.as_bytes())) {
            if !listed {
                push_all(text, &["\n", title, ":\n"])?;
                listed = true;
            }
            push_all(text, &["    ", form, " "])?;
            for _ in form.len()..WIDTH_OF_FORMS {
                text.push(' ')?;
            }
            push_all(text, &[meaning, "\n"])?;
        }
    }
    Ok(())
}

fn push_all(text: &mut String, pieces: &[&str]) -> Result<(), AllocError> {
    for piece in pieces.iter() {
        text.push_str(piece)?;
    }
    Ok(())
}

/// Prints a remark on standard error.
pub(crate) fn remark(rt: &HostRuntime, text: &str) {
    let _ = eprintln!(rt; "fsc: {text}");
}

/// Prints on standard error the remedy for a status of a form. `text` is what the source gave, or `None` if
/// it wasn't stored.
pub(crate) fn advise(rt: &HostRuntime, asked: Asked, status: Status, text: Option<&[u8]>) {
    match status {
        Status::Done => {}
        Status::Refused { .. } => remark(rt, REFUSED),
        Status::BadLine { line } => advise_on_line(rt, asked, line, text),
        Status::Usage => remark(rt, "a word of the command line is no text"),
        Status::ReadFault => report_input(rt, asked),
        Status::WriteFault => report_output(rt, asked),
        Status::SeedFault => remark(rt, "the machine gave no seed: give one by --seed HEX64"),
        Status::TooLong => remark(rt, asked.most()),
        Status::NoMemory => remark(rt, "run it again where more memory is free"),
    }
}

// Prints the remedy for the line of this number.
fn advise_on_line(rt: &HostRuntime, asked: Asked, line: u32, text: Option<&[u8]>) {
    match asked {
        Asked::Listing => show_image_line(rt, text, line),
        Asked::Verdict => {
            let is_parted = is_parted(text);
            if !is_parted {
                remark(rt, NO_PARTING_LINE);
            }
            if !is_after_line(text, line) {
                let most = if is_parted { MAX_LINES_PRINTED } else { 1 };
                show_lines(rt, text.map(|text| script_part(text)), line, most);
            }
        }
        _ => show_lines(rt, text, line, MAX_LINES_PRINTED),
    }
}

// Returns the lines before the line `---`, or the whole text if there is none. A last `---` without a line
// feed is no such line.
fn script_part(text: &[u8]) -> &[u8] {
    let mut rest = text;
    for _ in 0..text.len() {
        let line = next_line(rest);
        if line.ended && line.bytes == b"---".as_slice() {
            return match text.get(..text.len().saturating_sub(rest.len())) {
                Some(part) => part,
                None => text,
            };
        }
        rest = line.rest;
    }
    text
}

// Whether a line `---` ends the script's part of the text, unless the text isn't known.
fn is_parted(text: Option<&[u8]>) -> bool {
    match text {
        Some(text) => script_part(text).len() < text.len(),
        None => true,
    }
}

// Whether the line of this number is after the text's last one, if the text is known. A last piece without
// a line feed counts as a line, as it does when the text is read.
fn is_after_line(text: Option<&[u8]>, line: u32) -> bool {
    match text {
        Some(text) => line_count(text) < line as usize,
        None => false,
    }
}

// Prints the remedy if standard input failed.
fn report_input(rt: &HostRuntime, asked: Asked) {
    let input = match asked.input() {
        Some(input) => input.name,
        None => "script",
    };
    let _ = eprintln!(rt; "fsc: standard input failed: give the {input} by < FILE");
}

// Prints the remedy if the output failed.
fn report_output(rt: &HostRuntime, asked: Asked) {
    let output = asked.output();
    let _ = eprintln!(rt;
        "fsc: what was written is a beginning of the {output}; free some space and run it again"
    );
}
