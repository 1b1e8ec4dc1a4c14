//! A pending read may be passed to another thread.

use crate::pending::Pending;
use file_disk::PendingRead;

fn may_be_sent<T: Send>(_: &T) {}

fn lent_reads_cross(lent: &Pending, read: &PendingRead) {
    may_be_sent(lent);
    may_be_sent(read);
}
