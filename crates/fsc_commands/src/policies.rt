//! A session's work with existing policies.

ghost use Rattle.std.specs.Prelude.{◌≡◌};
ghost use Rattle.fsc_commands.specs.PolicySteps as spec;
ghost use Rattle.fsc_commands.specs.PolicySteps.{key_steps};
ghost use Rattle.fsc_commands.specs.Work.{WorkResult};
ghost use Rattle.fsc_commands.specs.Callers.{MayAsk};
ghost use Rattle.fsc_commands.specs.declared.TheConstants.{MAX_CALLS};

use crate::work::{Caller, Work};
use mount_model::{MountPort, Op};
use policy_ctx::KeyId;
use reply_text::Outcome;
use session_records::{ExpectedReply, Stop};
use short_bytes::Label;

// What a caller asks of the key of a policy.
#[derive(Clone, Copy)]
pub(crate) enum AskedOfKey {
    // To remove the caller's claim to it.
    Removal,
    // Whether it is there.
    Status,
}

impl<'a, S> Work<'a, S> {
    // Makes the call that asks this of the key of a policy.
    pub(crate) fn ask_of_key<P: MountPort>(
        &self,
        caller: &mut Caller<P>,
        policy: &Label,
        asked: AskedOfKey,
    ) -> Result<Option<Outcome>, Stop>
        requires ready { MayAsk P.who P.calls_left MAX_CALLS self.now.turn caller.old }
        ensures { WorkResult P.after_calls P.who P.calls_left caller.old caller.new MAX_CALLS
            (key_steps asked self.now.turn.caller self.now.turn.uid policy.now) result }
    {
        let loaded = self.load_policy(caller, policy)?;
        self.finish(
            caller,
            key_op(asked, loaded.policy.id),
            expected_key_reply(asked),
        )
    }
}

// Returns the call for a key.
fn key_op(asked: AskedOfKey, id: KeyId) -> Op
    ensures { result ≡ spec.key_op asked id }
{
    match asked {
        AskedOfKey::Removal => Op::RemoveKey { id },
        AskedOfKey::Status => Op::KeyStatus { id },
    }
}

// Returns the reply that is expected.
fn expected_key_reply(asked: AskedOfKey) -> ExpectedReply
    ensures { result ≡ spec.expected_key_reply asked }
{
    match asked {
        AskedOfKey::Removal => ExpectedReply::Removed,
        AskedOfKey::Status => ExpectedReply::Status,
    }
}
