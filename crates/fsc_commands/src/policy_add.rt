//! A session's work by which a further protector opens a policy.

ghost use Rattle.std.specs.Prelude.{◌≡◌, length, Ok};
ghost use Rattle.fsc_keys.specs.declared.raw_key.TheConstants.{MAX_RAW_KEY_BYTES};
ghost use Rattle.script_words.specs.Secrets.{IsSecret};
ghost use Rattle.session_records.specs.PolicyRecords.{wrap_space_for};
ghost use Rattle.fsc_commands.specs.PolicyKeySteps as spec;
ghost use Rattle.fsc_commands.specs.PolicyKeySteps.{policy_add_steps};
ghost use Rattle.fsc_commands.specs.Work.{WorkResult};
ghost use Rattle.fsc_commands.specs.Callers.{MayAsk};
ghost use Rattle.fsc_commands.specs.declared.TheConstants.{MAX_CALLS};

use crate::work::{Caller, Opener, Work};
use argon_kdf::Stretch;
use byte_words::wipe;
use fsc_keys::RawKey;
use mount_model::MountPort;
use reply_text::Outcome;
use session_records::{LoadedPolicy, Stop, policy_with_wrap, wrap_space_for};
use short_bytes::Label;

impl<'a, S: Stretch> Work<'a, S> {
    // Lets a further protector open a policy, whose key comes through another one. Wipes all keys.
    pub(crate) fn policy_add<P: MountPort>(
        &self,
        caller: &mut Caller<P>,
        policy: &Label,
        opener: Opener,
        added: Opener,
    ) -> Result<Option<Outcome>, Stop>
        requires stretches { S.ready self.now.stretches.now }
        requires ready { MayAsk P.who P.calls_left MAX_CALLS self.now.turn caller.old }
        requires secret { IsSecret opener.secret.now }
        requires added_secret { IsSecret added.secret.now }
        ensures { WorkResult P.after_calls P.who P.calls_left caller.old caller.new MAX_CALLS
            (policy_add_steps self.now.seed.now self.now.turn.caller self.now.turn.uid self.now.turn.number
            policy.now opener.entry.protector.now opener.entry.secret.now added.entry.protector.now
            added.entry.secret.now) result }
    {
        let mut opened = self.open_protector(caller, opener)?;
        let ended = self.add_through(caller, policy, opener.protector, &opened.key, added);
        wipe(&mut opened.key);
        ended
    }

    // The same through a protector with this key. The further protector isn't loaded if there is no free
    // slot for it.
    fn add_through<P: MountPort>(
        &self,
        caller: &mut Caller<P>,
        policy: &Label,
        protector: &Label,
        key: &[u8; 32],
        added: Opener,
    ) -> Result<Option<Outcome>, Stop>
        requires stretches { S.ready self.now.stretches.now }
        requires ready { MayAsk P.who P.calls_left 3 self.now.turn caller.old }
        requires secret { IsSecret added.secret.now }
        ensures { WorkResult P.after_calls P.who P.calls_left caller.old caller.new 3
            (spec.add_through self.now.seed.now self.now.turn.caller self.now.turn.uid self.now.turn.number
            policy.now protector.now key.now added.entry.protector.now added.entry.secret.now) result }
    {
        let mut opened = self.open_policy(caller, policy, protector, key)?;
        match wrap_space_for(added.protector, &opened.loaded.policy.wraps) {
            Ok(()) => {
                let ended = self.add_to(caller, policy, opened.loaded, &opened.key, added);
                opened.key.wipe();
                ended
            }
            Err(outcome) => {
                opened.key.wipe();
                Err(Stop::Ended(outcome))
            }
        }
    }

    // Lets a further protector open a policy with this key, which has a free slot for it.
    fn add_to<P: MountPort>(
        &self,
        caller: &mut Caller<P>,
        policy: &Label,
        loaded: LoadedPolicy,
        policy_key: &RawKey,
        added: Opener,
    ) -> Result<Option<Outcome>, Stop>
        requires stretches { S.ready self.now.stretches.now }
        requires ready { MayAsk P.who P.calls_left 2 self.now.turn caller.old }
        requires secret { IsSecret added.secret.now }
        requires room { wrap_space_for added.protector.now loaded.policy.wraps ≡ Ok tt }
        requires whole { length policy_key.now ≡ MAX_RAW_KEY_BYTES }
        ensures { WorkResult P.after_calls P.who P.calls_left caller.old caller.new 2
            (spec.add_to self.now.seed.now self.now.turn.caller self.now.turn.uid self.now.turn.number
            policy.now loaded policy_key.now added.entry.protector.now added.entry.secret.now) result }
    {
        let version = loaded.version;
        let mut opened = self.open_protector(caller, added)?;
        let widened = policy_with_wrap(
            self.seed,
            self.turn,
            loaded.policy,
            policy_key,
            added.protector,
            &opened.key,
        );
        wipe(&mut opened.key);
        let widened = widened?;
        self.store_policy(caller, policy, version, &widened)
    }
}
