//! Finds the first line at fault of a text, and the cause.

ghost use Rattle.std.specs.Prelude.{◌≡◌, ◌<◌, ◌≤◌, ◌^◌, ◌+◌, IfOk, length, if◌then◌else◌};
ghost use Rattle.std.specs.Result.{result_err};
ghost use Rattle.script_faults.specs.GrammarFaults as grammar;
ghost use Rattle.script_faults.specs.LineFaults as spec;
ghost use Rattle.script_faults.specs.LineFaults.{fault_from, first_fault};
ghost use Rattle.script_lang.specs.Sections as sections;
ghost use Rattle.text_words.specs.Lines.{pieces_of};

use crate::faults::{BYTE_ORDER_MARK, FaultyLine, LineFault};
use crate::word_kinds::{WordKind, kinds_of};
use script_lang::{CommandName, MAX_CALLERS, Statement, Words, read_statement};
use std::alloc::{AllocError, Global};
use text_words::next_line;

/// Returns the first line at fault of a text of fewer than 2^32 bytes, and the cause; `None` exactly when
/// the text is a script. The line is the one that `read_script` returns. The one error is out of memory,
/// which is possible for any text.
pub fn line_fault(alloc: Global, text: &[u8]) -> Result<Option<FaultyLine>, AllocError>
    requires { length text.now < 2 ^ 32 }
    ensures value { IfOk result (λ found. found ≡ first_fault text.now) }
{
    line_fault_after(alloc, 0, 0, text)
}

/// Returns the first line at fault of a text after `lines` lines, among which `before` callers begin, and
/// the cause. So a caller continues after a line that it was given. The one error is out of memory, which
/// is possible for any text.
pub fn line_fault_after(
    alloc: Global,
    lines: u32,
    before: usize,
    text: &[u8],
) -> Result<Option<FaultyLine>, AllocError>
    requires few { before ≤ lines }
    requires short { lines + length text.now < 2 ^ 32 }
    ensures value { IfOk result (λ found.
        found ≡ fault_from (lines + 1) before (pieces_of text.now)) }
{
    let mut rest = text;
    let mut number = lines;
    let mut callers = before;
    'lines: while !rest.is_empty() {
        let line = next_line(rest);
        number += 1;
        if !line.ended {
            return Ok(Some(FaultyLine {
                line: number,
                fault: LineFault::NotEnded,
            }));
        }
        match pass_line(alloc, callers, line.bytes)? {
            Ok(after) => callers = after,
            Err(fault) => {
                return Ok(Some(FaultyLine {
                    line: number,
                    fault,
                }));
            }
        }
        rest = line.rest;
    }
    Ok(None)
}

// The number of callers before the next line, or why this one is at fault.
fn pass_line(
    alloc: Global,
    callers: usize,
    line: &[u8],
) -> Result<Result<usize, LineFault>, AllocError>
    requires { callers < 2 ^ 32 }
    ensures fault { IfOk result (λ passed. result_err passed ≡ spec.fault_after callers line.now) }
    ensures callers { IfOk result (λ passed.
        IfOk passed (λ after. after ≡ spec.callers_with callers line.now)) }
{
    let said = read_statement(alloc, line)?;
    match fault_of_statement(alloc, callers, line, &said)? {
        Some(fault) => Ok(Err(fault)),
        None => Ok(Ok(callers_with(callers, &said))),
    }
}

// The number of callers before the next line.
fn callers_with(callers: usize, said: &Option<Statement>) -> usize
    requires { callers < 2 ^ 32 }
    ensures { result ≡ (if sections.is_caller said.now then callers + 1 else callers) }
{
    match said {
        Some(Statement::Caller(_)) => callers + 1,
        _ => callers,
    }
}

// Why a line of this statement is at fault after that many callers.
fn fault_of_statement(
    alloc: Global,
    callers: usize,
    line: &[u8],
    said: &Option<Statement>,
) -> Result<Option<LineFault>, AllocError>
    ensures { IfOk result (λ fault. fault ≡ spec.fault_of_statement callers line.now said.now) }
{
    match said {
        None => Ok(Some(grammar_fault(alloc, line)?)),
        Some(Statement::Nothing) => Ok(None),
        Some(Statement::Caller(_)) => {
            if callers < MAX_CALLERS {
                return Ok(None);
            }
            Ok(Some(LineFault::NinthCaller))
        }
        Some(Statement::Order(_)) => {
            if callers == 0 {
                return Ok(Some(LineFault::NoCallerYet));
            }
            Ok(None)
        }
    }
}

// Why a line outside the grammar is outside it.
fn grammar_fault(alloc: Global, line: &[u8]) -> Result<LineFault, AllocError>
    ensures { IfOk result (λ fault. fault ≡ grammar.grammar_fault line.now) }
{
    match spelling_fault(line) {
        Some(fault) => Ok(fault),
        None => fault_of_words(alloc, &mut Words::new(line)),
    }
}

// Bytes that no line of a command may have.
fn spelling_fault(line: &[u8]) -> Option<LineFault>
    ensures { result ≡ grammar.spelling_fault line.now }
{
    if line.starts_with(&BYTE_ORDER_MARK) {
        return Some(LineFault::ByteOrderMark);
    }
    if line.contains(&b'\r') {
        return Some(LineFault::CarriageReturn);
    }
    if line.contains(&b'\t') {
        return Some(LineFault::Tab);
    }
    None
}

// The fault of the words of a line.
fn fault_of_words(alloc: Global, words: &mut Words<'_>) -> Result<LineFault, AllocError>
    ensures { IfOk result (λ fault. fault ≡ grammar.fault_of_words words.old) }
{
    match words.next() {
        Some(name) => named_fault(alloc, name, words),
        None => Ok(LineFault::NoCommand),
    }
}

// The fault of a name and the words after it.
fn named_fault(alloc: Global, name: &[u8], words: &mut Words<'_>) -> Result<LineFault, AllocError>
    ensures { IfOk result (λ fault. fault ≡ grammar.named_fault name.now words.old) }
{
    if name == b"caller".as_slice() {
        return words_fault(alloc, &[WordKind::Number], words);
    }
    match CommandName::read(name) {
        Some(known) => words_fault(alloc, kinds_of(known), words),
        None => Ok(word_fault(LineFault::NoCommand, name)),
    }
}

// The fault of words that must be of these kinds.
fn words_fault(
    alloc: Global,
    kinds: &[WordKind],
    words: &mut Words<'_>,
) -> Result<LineFault, AllocError>
    ensures { IfOk result (λ fault. fault ≡ grammar.words_fault 1 kinds.now words.old) }
{
    let mut left = kinds;
    let mut place: usize = 0;
    'kinds: while let [wanted, more @ ..] = left {
        place += 1;
        let Some(word) = words.next() else {
            return Ok(LineFault::TooFewWords);
        };
        if !wanted.is_met(alloc, word)? {
            let fault = LineFault::NoSuchWord {
                number: place,
                kind: *wanted,
            };
            return Ok(word_fault(fault, word));
        }
        left = more;
    }
    match words.next() {
        Some(word) => Ok(word_fault(LineFault::TooManyWords, word)),
        None => Ok(LineFault::TooManyWords),
    }
}

// The fault of a word that is empty, or else `otherwise`.
fn word_fault(otherwise: LineFault, word: &[u8]) -> LineFault
    ensures { result ≡ grammar.word_fault otherwise word.now }
{
    if word.is_empty() {
        return LineFault::SpareSpace;
    }
    otherwise
}
