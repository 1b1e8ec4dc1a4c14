//! Laws of logs that are checked and of dumps that are listed, each a function whose contract is the law.

ghost use Rattle.fsc_tool.specs.CheckLaws.{LogsAreSplitFromScripts, PrintedLogsAreCertified};
ghost use Rattle.fsc_tool.specs.CheckLaws.{PrintedLogsAreNotRefused};
ghost use Rattle.fsc_tool.specs.DumpLaws.{DumpsAreListed, DumpsAreListedWhole, RunsCarryNonces};

use fsc_outside::Source;
use listing_laws::{mount_images_are_images, mount_images_are_short, mount_images_list_mounts};

/// The text after a script and a line `---` is read as the log of that script.
pub fn logs_are_split_from_scripts()
    ensures { LogsAreSplitFromScripts }
{}

/// The log of a run of the one-thread mount is never refused after its script, if no two different raw keys
/// that were added share an identifier. A strict check doesn't refuse it either, if nothing in the run was
/// out of memory.
pub fn printed_logs_are_not_refused()
    ensures { PrintedLogsAreNotRefused }
{}

/// For such a log after its script, the status of the whole input is `Done` or `NoMemory`, if the script is
/// within its limits.
pub fn printed_logs_are_certified()
    ensures { PrintedLogsAreCertified }
{}

/// Each nonce that a call of a script's run passes has 16 bytes.
pub fn runs_carry_nonces()
    ensures { RunsCarryNonces }
{}

/// The listing of a dump's text is what the mount, as the script's history leaves it, shows to a user with
/// the given raw key or with none. If the source's bytes are known, the whole listing is written, unless
/// the sink fails or there is no memory. Both hold if no two different raw keys of the script's history
/// share an identifier, and no other of them shares one with the listing's raw key.
pub fn dumps_are_listed<S: Source>()
    ensures listing { DumpsAreListed S.after_calls }
    ensures whole { DumpsAreListedWhole S.after_calls }
{
    mount_images_are_images();
    mount_images_are_short();
    mount_images_list_mounts();
}
