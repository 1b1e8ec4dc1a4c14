//! A session's work that changes a policy's record.

ghost use Rattle.fsc_commands.specs.PolicySteps.{policy_drop_steps, migrate_steps};
ghost use Rattle.fsc_commands.specs.Work.{WorkResult};
ghost use Rattle.fsc_commands.specs.Callers.{MayAsk};
ghost use Rattle.fsc_commands.specs.declared.TheConstants.{MAX_CALLS};

use crate::work::{Caller, Work};
use mount_model::MountPort;
use reply_text::Outcome;
use session_records::{Stop, policy_without, with_options};
use short_bytes::Label;

impl<'a, S> Work<'a, S> {
    // Removes a protector from those that open a policy.
    pub(crate) fn policy_drop<P: MountPort>(
        &self,
        caller: &mut Caller<P>,
        policy: &Label,
        protector: &Label,
    ) -> Result<Option<Outcome>, Stop>
        requires ready { MayAsk P.who P.calls_left MAX_CALLS self.now.turn caller.old }
        ensures { WorkResult P.after_calls P.who P.calls_left caller.old caller.new MAX_CALLS
            (policy_drop_steps self.now.turn.caller self.now.turn.uid policy.now protector.now) result }
    {
        let loaded = self.load_policy(caller, policy)?;
        let changed = policy_without(loaded.policy, protector)?;
        self.store_policy(caller, policy, loaded.version, &changed)
    }

    // Gives a policy of version 1 the usual options.
    pub(crate) fn migrate<P: MountPort>(
        &self,
        caller: &mut Caller<P>,
        policy: &Label,
    ) -> Result<Option<Outcome>, Stop>
        requires ready { MayAsk P.who P.calls_left MAX_CALLS self.now.turn caller.old }
        ensures { WorkResult P.after_calls P.who P.calls_left caller.old caller.new MAX_CALLS
            (migrate_steps self.now.turn.caller self.now.turn.uid policy.now) result }
    {
        let loaded = self.load_policy(caller, policy)?;
        let changed = with_options(loaded.policy)?;
        self.store_policy(caller, policy, loaded.version, &changed)
    }
}
