//! Which of two machines is which mount.

use crate::linked_commands::wanting;
use crate::runs::log_of;
use crate::texts::same_bytes;
use fsc_tool::Status;

const DROPS: &str = "caller 0\ndrop-caches\ndrop-caches\ncaller 1\ndrop-caches\ndrop-caches\n";

const DROPS_LOGS: &[u8] = b"mount 0\n\
    0 0 0 drop-caches = refused no-memory\n\
    1 0 0 drop-caches = ok\n\
    mount 1\n\
    0 1 1 drop-caches = ok\n\
    1 1 1 drop-caches = refused no-memory\n";

// Both machines have the same laws, so no clause states which of them is which mount.
#[test]
fn the_odd_machine_is_mount_1(rt: HostRuntime) {
    let (even, odd) = (wanting(0), wanting(1));
    let (status, got) = log_of(&rt, rt.alloc(), "replay-linked", DROPS, even, odd);
    assert!(rt; status == Status::Done);
    same_bytes(&rt, got.as_slice(), DROPS_LOGS, "the logs");
}
