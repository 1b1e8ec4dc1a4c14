//! The kernels of a mount whose names contain no number, and the calls of their runs.
use crate::mount::calls::OnPath;
use crate::mount::kernel::MountKernel;
use crate::mount::work::{Before, Run, Step};

/// Each directory is made, and removed.
pub(crate) const DIRS: &[Step] = &[Step::Name(OnPath::Mkdir), Step::Name(OnPath::Rmdir)];

/// The same with files.
pub(crate) const FILES: &[Step] = &[Step::Name(OnPath::Create), Step::Name(OnPath::Unlink)];

/// Names are looked up.
pub(crate) const LOOK_UP: &[Step] = &[Step::LookUp];

/// The number of names of a run.
pub(crate) const RUN_NAMES: u32 = 64;

/// The maximum number of names of a directory, and of open files.
pub(crate) const MOST: u32 = 4096;

// The number of names if a kernel's name contains none.
const FEW: u32 = 128;

// More names than a mount caches.
const ROUND_NAMES: u32 = 320;

// The first name that is listed: in the middle.
const PAGE_START: u32 = 2048;

// Names of a run and the calls on them.
const MAKE_DIRS: Run = Run::Steps(DIRS, FEW, RUN_NAMES);

const MAKE_FILES: Run = Run::Steps(FILES, FEW, RUN_NAMES);

const LOOK_WARM: Run = Run::Steps(LOOK_UP, 0, RUN_NAMES);

// One after the other, so that none is cached.
const LOOK_ROUND: Run = Run::Steps(&[Step::Name(OnPath::Stat)], 0, ROUND_NAMES);

const LOOK_COLD: Run = Run::Steps(&[Step::DropCaches, Step::LookUp], 0, RUN_NAMES);

const MOVE: Run = Run::Steps(&[Step::MoveThere, Step::MoveBack], 0, RUN_NAMES / 2);

const LIST: Run = Run::Steps(&[Step::List], PAGE_START, 1);

const READ: Run = Run::Steps(&[Step::Read], 0, 1);

const WRITE_BLOCK: Run = Run::Steps(&[Step::Write(4096)], 0, 1);

const WRITE_ONE: Run = Run::Steps(&[Step::Write(1)], 1000, 1);

const TELL_STATUS: Run = Run::Steps(&[Step::Status], 0, 1);

/// All files are open, and need the key.
pub(crate) const ALL_OPEN: Before = Before {
    is_encrypted: true,
    files: MOST,
    then: &[Step::Name(OnPath::Open)],
    used: MOST,
};

/// One file, which is open and has a block.
pub(crate) const ONE_BLOCK: Before = Before {
    is_encrypted: true,
    files: 1,
    then: &[Step::Name(OnPath::Open), Step::Write(4096)],
    used: 1,
};

// Files of which none is open.
const ONE: Before = Before {
    is_encrypted: true,
    files: 1,
    then: &[],
    used: 0,
};

const BUT_ONE: Before = Before {
    is_encrypted: true,
    files: FEW - 1,
    then: &[],
    used: 0,
};

const SOME: Before = Before {
    is_encrypted: true,
    files: FEW,
    then: &[],
    used: 0,
};

const ROUND: Before = Before {
    is_encrypted: true,
    files: ROUND_NAMES,
    then: &[],
    used: 0,
};

const FULL: Before = Before {
    is_encrypted: true,
    files: MOST,
    then: &[],
    used: 0,
};

const FULL_PLAIN: Before = Before {
    is_encrypted: false,
    files: MOST,
    then: &[],
    used: 0,
};

/// The kernels with their names.
pub(crate) static KERNELS: [(&str, MountKernel); 14] = [
    ("mkdir", MountKernel::Alone(BUT_ONE, MAKE_DIRS)),
    ("unlink", MountKernel::Alone(BUT_ONE, MAKE_FILES)),
    ("stat-warm", MountKernel::Alone(SOME, LOOK_WARM)),
    ("stat-round", MountKernel::Alone(ROUND, LOOK_ROUND)),
    ("stat-cold", MountKernel::Alone(SOME, LOOK_COLD)),
    ("rename", MountKernel::Alone(SOME, MOVE)),
    ("list-plain", MountKernel::Alone(FULL_PLAIN, LIST)),
    ("list-encrypted", MountKernel::Alone(FULL, LIST)),
    ("read-4096", MountKernel::Alone(ONE_BLOCK, READ)),
    ("write-4096", MountKernel::Alone(ONE_BLOCK, WRITE_BLOCK)),
    ("write-1", MountKernel::Alone(ONE_BLOCK, WRITE_ONE)),
    ("open-close", MountKernel::Alone(ONE, Run::OpenClose)),
    ("status-4096", MountKernel::Alone(ALL_OPEN, TELL_STATUS)),
    (
        "status-again",
        MountKernel::Alone(ALL_OPEN, Run::StatusAgain),
    ),
];
