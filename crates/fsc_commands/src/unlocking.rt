//! A session's work that adds the key of a policy: it is opened through a protector, and the protector with
//! a secret.

ghost use Rattle.std.specs.Prelude.{◌≡◌};
ghost use Rattle.fsc_keys.specs.Keys.{key_id_of};
ghost use Rattle.mount_model.specs.declared.call.Op.TheVariants.{AddKey};
ghost use Rattle.script_words.specs.Secrets.{IsSecret};
ghost use Rattle.session_records.specs.declared.outcomes.ExpectedReply.TheVariants as wanted;
ghost use Rattle.fsc_commands.specs.CommandSteps.{last_call};
ghost use Rattle.fsc_commands.specs.PolicyKeySteps.{unlock_steps, unlock_through};
ghost use Rattle.fsc_commands.specs.Work.{WorkResult};
ghost use Rattle.fsc_commands.specs.Callers.{MayAsk};
ghost use Rattle.fsc_commands.specs.declared.TheConstants.{MAX_CALLS};

use crate::work::{Caller, Opener, Work};
use argon_kdf::Stretch;
use byte_words::wipe;
use item_list::Bytes;
use mount_model::{MountPort, Op};
use reply_text::Outcome;
use session_records::{ExpectedReply, OpenedPolicy, Stop};
use short_bytes::Label;

impl<'a, S: Stretch> Work<'a, S> {
    // Adds the key of a policy that a protector opens. Wipes both keys.
    pub(crate) fn unlock<P: MountPort>(
        &self,
        caller: &mut Caller<P>,
        policy: &Label,
        opener: Opener,
    ) -> Result<Option<Outcome>, Stop>
        requires stretches { S.ready self.now.stretches.now }
        requires ready { MayAsk P.who P.calls_left MAX_CALLS self.now.turn caller.old }
        requires secret { IsSecret opener.secret.now }
        ensures { WorkResult P.after_calls P.who P.calls_left caller.old caller.new MAX_CALLS
            (unlock_steps self.now.turn.caller self.now.turn.uid policy.now opener.entry.protector.now
            opener.entry.secret.now) result }
    {
        let mut opened = self.open_protector(caller, opener)?;
        let ended = self.unlock_through(caller, policy, opener.protector, &opened.key);
        wipe(&mut opened.key);
        ended
    }
}

impl<'a, S> Work<'a, S> {
    // The same through a protector with this key.
    fn unlock_through<P: MountPort>(
        &self,
        caller: &mut Caller<P>,
        policy: &Label,
        protector: &Label,
        key: &[u8; 32],
    ) -> Result<Option<Outcome>, Stop>
        requires ready { MayAsk P.who P.calls_left 2 self.now.turn caller.old }
        ensures { WorkResult P.after_calls P.who P.calls_left caller.old caller.new 2
            (unlock_through self.now.turn.caller self.now.turn.uid policy.now protector.now key.now) result }
    {
        let mut opened = self.open_policy(caller, policy, protector, key)?;
        let ended = self.add_key(caller, &opened);
        opened.key.wipe();
        ended
    }

    // Adds the key of a policy. It is the one with the identifier that the policy's record contains.
    fn add_key<P: MountPort>(
        &self,
        caller: &mut Caller<P>,
        opened: &OpenedPolicy,
    ) -> Result<Option<Outcome>, Stop>
        requires ready { MayAsk P.who P.calls_left 1 self.now.turn caller.old }
        requires identified { key_id_of opened.now.key ≡ opened.now.loaded.policy.id }
        ensures { WorkResult P.after_calls P.who P.calls_left caller.old caller.new 1
            (last_call self.now.turn.caller self.now.turn.uid (AddKey opened.now.key) wanted.Added) result }
    {
        let raw = Bytes::from_vec(Vec::from_slice(self.alloc, opened.key.bytes())?);
        self.finish(caller, Op::AddKey { raw }, ExpectedReply::Added)
    }
}
