//! Directories that a session encrypts under a policy's record.

ghost use Rattle.fsc_commands.specs.PolicySteps.{encrypt_steps};
ghost use Rattle.fsc_commands.specs.Steps.{names_in};
ghost use Rattle.fsc_commands.specs.Work.{WorkResult};
ghost use Rattle.fsc_commands.specs.Callers.{MayAsk};
ghost use Rattle.fsc_commands.specs.declared.TheConstants.{MAX_CALLS};

use crate::stars::resolved_path;
use crate::work::{Caller, Work};
use mount_model::{MountPort, Op};
use policy_ctx::encode_policy;
use reply_text::Outcome;
use script_lang::{ScriptPath, Settings};
use session_records::{ExpectedReply, Stop, derived_nonce, node_policy};
use short_bytes::Label;

impl<'a, S> Work<'a, S> {
    // Sets the policy on an empty directory, with a derived nonce.
    pub(crate) fn encrypt<P: MountPort>(
        &self,
        caller: &mut Caller<P>,
        path: &ScriptPath,
        policy: &Label,
        settings: Option<Settings>,
    ) -> Result<Option<Outcome>, Stop>
        requires ready { MayAsk P.who P.calls_left MAX_CALLS self.now.turn caller.old }
        ensures { WorkResult P.after_calls P.who P.calls_left caller.old caller.new MAX_CALLS
            (encrypt_steps self.now.seed.now self.now.turn.caller self.now.turn.uid self.now.turn.number
            (names_in caller.old.entries.now) path.now policy.now settings) result }
    {
        let meant = resolved_path(self.alloc, caller.entries, path)?;
        let loaded = self.load_policy(caller, policy)?;
        let op = Op::SetPolicy {
            path: meant,
            policy: encode_policy(&node_policy(&loaded.policy, settings)),
            nonce: derived_nonce(self.seed, self.turn),
        };
        self.finish(caller, op, ExpectedReply::Done)
    }
}
