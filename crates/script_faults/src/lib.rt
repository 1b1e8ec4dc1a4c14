//! The first line of a text at fault, and the cause.
#![tactic(auto)]

mod fault_laws;
mod faults;
mod faulty_lines;
mod usable;
mod word_kinds;

pub use fault_laws::{faults_are_where_reading_ends, kinds_are_those_of_the_grammar};
pub use faults::{FaultyLine, LineFault};
pub use faulty_lines::{line_fault, line_fault_after};
pub use usable::is_usable;
pub use word_kinds::WordKind;
