//! A session's work that gives a protector another secret.

ghost use Rattle.script_words.specs.Secrets.{IsSecret};
ghost use Rattle.script_words.specs.NewSecrets.{IsNewSecret};
ghost use Rattle.fsc_commands.specs.ProtectorSteps.{protector_change_steps};
ghost use Rattle.fsc_commands.specs.Work.{WorkResult};
ghost use Rattle.fsc_commands.specs.Callers.{MayAsk};
ghost use Rattle.fsc_commands.specs.declared.TheConstants.{MAX_CALLS};

use crate::work::{Caller, Opener, Work};
use argon_kdf::Stretch;
use byte_words::wipe;
use mount_model::MountPort;
use reply_text::Outcome;
use script_lang::NewSecret;
use session_records::{Stop, protector_with_secret};

impl<'a, S: Stretch> Work<'a, S> {
    // Gives a protector another secret; its key stays. Wipes the key.
    pub(crate) fn protector_change<P: MountPort>(
        &self,
        caller: &mut Caller<P>,
        opener: Opener,
        new: &NewSecret,
    ) -> Result<Option<Outcome>, Stop>
        requires stretches { S.ready self.now.stretches.now }
        requires ready { MayAsk P.who P.calls_left MAX_CALLS self.now.turn caller.old }
        requires secret { IsSecret opener.secret.now }
        requires new_secret { IsNewSecret new.now }
        ensures { WorkResult P.after_calls P.who P.calls_left caller.old caller.new MAX_CALLS
            (protector_change_steps self.now.seed.now self.now.turn.caller self.now.turn.uid
            self.now.turn.number opener.entry.protector.now opener.entry.secret.now new.now) result }
    {
        let mut opened = self.open_protector(caller, opener)?;
        let version = opened.loaded.version;
        let rewrapped = protector_with_secret(
            self.alloc,
            self.stretches,
            self.seed,
            self.turn,
            &opened,
            new,
        );
        wipe(&mut opened.key);
        let rewrapped = rewrapped?;
        self.store_protector(caller, opener.protector, version, &rewrapped)
    }
}
