//! The tool: arguments, a source, a sink, a seed source and two mounts in; a status and a text out.
#![tactic(auto)]

mod checking;
mod difference;
mod dump;
mod form;
mod gen_runs;
mod inspect;
mod laws;
mod limits;
mod linked;
mod linked_apart;
mod one_mount;
mod replay;
mod seed;
mod splitting;
mod status;
mod streams;
mod summary;
mod top;
mod writing;

pub use difference::Difference;
pub use laws::{
    dumps_are_listed, logs_are_split_from_scripts, printed_logs_are_certified,
    printed_logs_are_not_refused, runs_carry_nonces,
};
pub use limits::{MAX_CERTIFICATE_BYTES, MAX_INPUT_BYTES, MAX_INPUT_LINES};
pub use linked_turns::Mounts;
pub use status::Status;
pub use streams::Streams;
pub use top::{tool, tool_serial};
