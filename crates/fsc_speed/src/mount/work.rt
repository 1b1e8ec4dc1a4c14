//! The calls that the kernels make.
use crate::directories::id_of_key;
use crate::mount::calls::{
    OnPath, add_key, call, list, read, rename, set_policy, status, top_path, write,
};
use mount_model::{Call, Op};
use std::alloc::{AllocError, Global};

/// One call, for a number.
#[derive(Clone, Copy)]
pub(crate) enum Step {
    /// On the name with the number.
    Name(OnPath),
    /// A name is looked up, another one for each of the first numbers.
    LookUp,
    /// All that is cached for speed alone is dropped.
    DropCaches,
    /// The name with the number becomes another one.
    MoveThere,
    /// It becomes its own again.
    MoveBack,
    /// Names of the directory are listed, from the number on.
    List,
    /// The first block of the first open file is read.
    Read,
    /// That many bytes are written into it, from the number on.
    Write(usize),
    /// The status of the key is returned.
    Status,
}

/// What a mount has before a run.
#[derive(Clone, Copy)]
pub(crate) struct Before {
    /// Whether the directory is encrypted.
    pub(crate) is_encrypted: bool,
    /// How many files it has.
    pub(crate) files: u32,
    /// The calls for each of the files that are used.
    pub(crate) then: &'static [Step],
    /// The number of files that are used.
    pub(crate) used: u32,
}

impl Before {
    /// Returns the encrypted directory with that many files, of which none is used.
    pub(crate) fn files(files: u32) -> Before {
        Before {
            is_encrypted: true,
            files,
            then: &[],
            used: 0,
        }
    }
}

/// The measured calls.
#[derive(Clone, Copy)]
pub(crate) enum Run {
    /// The calls of these steps, which are made before, for each of that many numbers from the first on.
    Steps(&'static [Step], u32, u32),
    /// The first file is opened, and what was opened is closed.
    OpenClose,
    /// The status of the key, each time by a new call, as a caller in turns makes one for each.
    StatusAgain,
}

/// Adds the calls that prepare a mount.
pub(crate) fn push_before(
    calls: &mut Vec<Call>,
    alloc: Global,
    before: &Before,
) -> Result<(), AllocError> {
    calls.push(OnPath::Mkdir.call(top_path(alloc)?))?;
    if before.is_encrypted {
        calls.push(add_key(alloc)?)?;
        calls.push(set_policy(alloc)?)?;
    }
    push_files(calls, alloc, before)
}

// Adds those that make the files, and those that use them.
fn push_files(calls: &mut Vec<Call>, alloc: Global, before: &Before) -> Result<(), AllocError> {
    let create = [Step::Name(OnPath::Create)];
    push_steps(calls, alloc, &create, 0, before.files, before.files)?;
    push_steps(calls, alloc, before.then, 0, before.used, before.files)
}

/// Adds the calls of these steps for `numbers` numbers from the first on, beside `names` names.
pub(crate) fn push_steps(
    calls: &mut Vec<Call>,
    alloc: Global,
    steps: &[Step],
    first: u32,
    numbers: u32,
    names: u32,
) -> Result<(), AllocError> {
    for number in first..first.saturating_add(numbers) {
        for step in steps {
            calls.push(step_call(alloc, *step, number, names)?)?;
        }
    }
    Ok(())
}

// The call of the step for the number, beside `names` names.
fn step_call(alloc: Global, step: Step, number: u32, names: u32) -> Result<Call, AllocError> {
    match step {
        Step::Name(asked) => asked.numbered(alloc, number),
        Step::LookUp => OnPath::Stat.numbered(alloc, another(number, names)),
        Step::DropCaches => Ok(call(Op::DropCaches)),
        Step::MoveThere => rename(alloc, number, names.wrapping_add(number)),
        Step::MoveBack => rename(alloc, names.wrapping_add(number), number),
        Step::List => list(alloc, number),
        Step::Read => Ok(read(0)),
        Step::Write(len) => write(alloc, number, len),
        Step::Status => Ok(status(id_of_key())),
    }
}

// Another one of that many names for each of the first numbers.
fn another(number: u32, names: u32) -> u32 {
    match names {
        0 => 0,
        _ => number.wrapping_mul(2654435761) % names,
    }
}
