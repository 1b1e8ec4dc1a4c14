//! A session's work that makes a policy for a protector.

ghost use Rattle.script_words.specs.Secrets.{IsSecret};
ghost use Rattle.fsc_commands.specs.PolicyKeySteps.{policy_new_steps};
ghost use Rattle.fsc_commands.specs.Work.{WorkResult};
ghost use Rattle.fsc_commands.specs.Callers.{MayAsk};
ghost use Rattle.fsc_commands.specs.declared.TheConstants.{MAX_CALLS};

use crate::work::{Caller, Opener, Work};
use argon_kdf::Stretch;
use byte_words::wipe;
use mount_model::MountPort;
use reply_text::Outcome;
use script_lang::Options as SaidOptions;
use session_records::{Stop, new_policy};
use short_bytes::Label;

impl<'a, S: Stretch> Work<'a, S> {
    // Makes a policy that a protector opens. Wipes the keys of both.
    pub(crate) fn policy_new<P: MountPort>(
        &self,
        caller: &mut Caller<P>,
        policy: &Label,
        opener: Opener,
        options: Option<SaidOptions>,
    ) -> Result<Option<Outcome>, Stop>
        requires stretches { S.ready self.now.stretches.now }
        requires ready { MayAsk P.who P.calls_left MAX_CALLS self.now.turn caller.old }
        requires secret { IsSecret opener.secret.now }
        ensures { WorkResult P.after_calls P.who P.calls_left caller.old caller.new MAX_CALLS
            (policy_new_steps self.now.seed.now self.now.turn.caller self.now.turn.uid self.now.turn.number
            policy.now opener.entry.protector.now opener.entry.secret.now options) result }
    {
        let mut opened = self.open_protector(caller, opener)?;
        let drawn = new_policy(
            self.alloc,
            self.seed,
            self.turn,
            policy,
            opener.protector,
            options,
            &opened.key,
        );
        wipe(&mut opened.key);
        let drawn = drawn?;
        self.store_policy(caller, policy, 0, &drawn)
    }
}
