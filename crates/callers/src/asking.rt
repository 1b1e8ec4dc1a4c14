//! A caller of `mount_shared`.

ghost use Rattle.std.specs.Prelude.{[], ◌∷◌, IfOk};
ghost use Rattle.call_history.specs.Entries.{entry};
ghost use Rattle.mount_model.specs.Fits.{Fits};
ghost use Rattle.mount_model.specs.Lawful.{IsLawful};

use mount_model::{Call, MountPort, Reply};
use mount_shared::{Mount, SerialMount};
use std::alloc::{AllocError, Global};

/// Makes two calls on a new mount that has no other callers, both as caller 0, and returns their replies.
/// The only error is out of memory.
pub fn ask_new_mount(
    alloc: Global,
    first: &Call,
    second: &Call,
) -> Result<(Reply, Reply), AllocError>
    requires first { Fits first.now }
    requires second { Fits second.now }
    ensures lawful { IfOk result (λ r. IsLawful (entry 0 first.now r.0 ∷ entry 0 second.now r.1 ∷ [])) }
{
    let mount = Mount::new(alloc)?;
    let mut port = SerialMount::new(mount).port(0, 2);
    let answer = port.call(first);
    let next = port.call(second);
    Ok((answer.reply, next.reply))
}
