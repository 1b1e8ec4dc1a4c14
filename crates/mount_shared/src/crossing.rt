//! A mount may be given to another thread.

use crate::mount::Mount;

fn may_be_sent<T: Send>(_: &T) {}

fn mounts_cross(mount: &Mount) {
    may_be_sent(mount);
}
