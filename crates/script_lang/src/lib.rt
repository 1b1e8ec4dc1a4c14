//! The language of scripts: the commands of callers, line by line, read and written exactly.
#![tactic(auto)]

mod argument_words;
mod commands;
mod file_forms;
mod limits;
mod names;
mod reader;
mod script_laws;
mod session_forms;
mod settings_writer;
mod statements;
mod verb;
mod verb_writer;
mod verbs;
mod wiping;
mod words;
mod writer;

pub use commands::{Command, CommandList, Script, Section};
pub use limits::{
    MAX_ADDED_BYTES, MAX_CALLERS, MAX_FILLED_BYTES, MAX_PUT_BYTES, MAX_WRITTEN_BYTES, POLICY_BYTES,
};
pub use names::CommandName;
pub use reader::{ScriptFault, read_script};
pub use script_laws::{
    distinct_scripts_have_distinct_texts, spelled_scripts_are_the_writable_ones,
    what_is_written_is_a_script,
};
pub use script_words::{
    AllowedCosts, KeyRef, NewSecret, Record, ScriptPart, ScriptPath, Secret, read_path,
};
pub use statements::{Statement, read_statement};
pub use verb::{Options, Settings, Verb};
pub use wiping::wipe_script;
pub use words::Words;
pub use writer::write_script;
