//! The statement of one line of a script, independent of the other lines.

ghost use Rattle.std.specs.Prelude.{◌≡◌, ◌==◌, ◌||◌, IfOk, length, slice_index};
ghost use Rattle.script_lang.specs.Forms.{word, whole};
ghost use Rattle.script_words.specs.Numbers.{number_of};
ghost use Rattle.script_lang.specs.Statements.{statement_of_name, statement_of, statement_of_words};

use crate::verb::Verb;
use crate::verbs::read_verb;
use crate::words::Words;
use std::alloc::{AllocError, Global};
use text_words::decimal_value;

/// The statement of a line.
#[derive(Drop)]
pub enum Statement {
    /// The line is empty, or a comment.
    Nothing,
    /// The commands from here on are this user's.
    Caller(u32),
    /// The caller makes this command.
    Order(Verb),
}

/// Returns the statement of a line, or `None` if the line on its own is outside the grammar.
pub fn read_statement(alloc: Global, line: &[u8]) -> Result<Option<Statement>, AllocError>
    ensures { IfOk result (λ said. said ≡ statement_of line.now) }
{
    if is_blank_or_comment(line) {
        return Ok(Some(Statement::Nothing));
    }
    read_words(alloc, &mut Words::new(line))
}

// Whether a line is empty, or a comment.
pub(crate) fn is_blank_or_comment(line: &[u8]) -> bool
    ensures { result ≡ (length line.now == 0 || slice_index line.now 0 == 35) }
{
    line.is_empty() || line[0] == b'#'
}

// The statement of a line's words.
fn read_words(alloc: Global, words: &mut Words<'_>) -> Result<Option<Statement>, AllocError>
    ensures { IfOk result (λ said. said ≡ statement_of_words words.old) }
{
    match words.next() {
        Some(name) => read_named(alloc, name, words),
        None => Ok(None),
    }
}

// The statement of a name and the words after it.
fn read_named(
    alloc: Global,
    name: &[u8],
    words: &mut Words<'_>,
) -> Result<Option<Statement>, AllocError>
    ensures { IfOk result (λ said. said ≡ statement_of_name name.now words.old) }
{
    if name == b"caller".as_slice() {
        return Ok(read_uid(words).map(Statement::Caller));
    }
    let verb = read_verb(alloc, name, words)?;
    Ok(verb.map(Statement::Order))
}

// The number that is the only word.
pub(crate) fn read_uid(words: &mut Words<'_>) -> Option<u32>
    ensures { result ≡ whole (word number_of) words.old }
{
    let word = words.next()?;
    let uid = decimal_value(word)?;
    if words.is_empty() { Some(uid) } else { None }
}
