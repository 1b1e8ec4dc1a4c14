//! The last part of a session's work that stores a record.

ghost use Rattle.std.specs.Prelude.{◌≤◌, length};
ghost use Rattle.mount_limits.specs.declared.TheConstants.{MAX_CARRIED_BYTES};
ghost use Rattle.protector_meta.specs.PolicyText.{policy_text};
ghost use Rattle.protector_meta.specs.ProtectorText.{protector_text};
ghost use Rattle.fsc_commands.specs.Opening.{storing};
ghost use Rattle.fsc_commands.specs.Work.{WorkResult};
ghost use Rattle.fsc_commands.specs.Callers.{MayAsk};

use crate::work::{Caller, Work};
use item_list::Bytes;
use mount_model::{MountPort, Op};
use protector_meta::{PolicyFile, Protector};
use reply_text::Outcome;
use script_lang::Record;
use session_records::{ExpectedReply, Stop, record_name, stored_policy, stored_protector};
use short_bytes::Label;

impl<'a, S> Work<'a, S> {
    // Stores a record in place of the expected version; 0 means none.
    pub(crate) fn store_record<P: MountPort>(
        &self,
        caller: &mut Caller<P>,
        stored: Record,
        expected: u32,
        text: Bytes,
    ) -> Result<Option<Outcome>, Stop>
        requires ready { MayAsk P.who P.calls_left 1 self.now.turn caller.old }
        requires few { length text ≤ MAX_CARRIED_BYTES }
        ensures { WorkResult P.after_calls P.who P.calls_left caller.old caller.new 1
            (storing self.now.turn.caller self.now.turn.uid stored expected text) result }
    {
        let op = Op::MetaStore {
            name: record_name(self.alloc, &stored)?,
            expected,
            bytes: text,
        };
        self.finish(caller, op, ExpectedReply::Stored)
    }

    // The same for a policy's record.
    pub(crate) fn store_policy<P: MountPort>(
        &self,
        caller: &mut Caller<P>,
        label: &Label,
        expected: u32,
        policy: &PolicyFile,
    ) -> Result<Option<Outcome>, Stop>
        requires ready { MayAsk P.who P.calls_left 1 self.now.turn caller.old }
        ensures { WorkResult P.after_calls P.who P.calls_left caller.old caller.new 1
            (storing self.now.turn.caller self.now.turn.uid (Record.Policy label.now) expected
            (policy_text policy.now)) result }
    {
        let text = stored_policy(self.alloc, policy)?;
        self.store_record(caller, Record::Policy(*label), expected, text)
    }

    // The same for a protector's record.
    pub(crate) fn store_protector<P: MountPort>(
        &self,
        caller: &mut Caller<P>,
        label: &Label,
        expected: u32,
        protector: &Protector,
    ) -> Result<Option<Outcome>, Stop>
        requires ready { MayAsk P.who P.calls_left 1 self.now.turn caller.old }
        ensures { WorkResult P.after_calls P.who P.calls_left caller.old caller.new 1
            (storing self.now.turn.caller self.now.turn.uid (Record.Protector label.now) expected
            (protector_text protector.now)) result }
    {
        let text = stored_protector(self.alloc, protector)?;
        self.store_record(caller, Record::Protector(*label), expected, text)
    }
}
