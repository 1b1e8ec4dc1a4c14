//! A session's work that makes protectors.

ghost use Rattle.script_words.specs.NewSecrets.{IsNewSecret};
ghost use Rattle.fsc_commands.specs.ProtectorSteps.{protector_steps};
ghost use Rattle.fsc_commands.specs.Work.{WorkResult};
ghost use Rattle.fsc_commands.specs.Callers.{MayAsk};
ghost use Rattle.fsc_commands.specs.declared.TheConstants.{MAX_CALLS};

use crate::work::{Caller, Work};
use argon_kdf::Stretch;
use mount_model::MountPort;
use reply_text::Outcome;
use script_lang::NewSecret;
use session_records::{Stop, new_protector};
use short_bytes::Label;

impl<'a, S: Stretch> Work<'a, S> {
    // Makes a protector that a new secret opens.
    pub(crate) fn protector<P: MountPort>(
        &self,
        caller: &mut Caller<P>,
        label: &Label,
        new: &NewSecret,
    ) -> Result<Option<Outcome>, Stop>
        requires stretches { S.ready self.now.stretches.now }
        requires ready { MayAsk P.who P.calls_left MAX_CALLS self.now.turn caller.old }
        requires secret { IsNewSecret new.now }
        ensures { WorkResult P.after_calls P.who P.calls_left caller.old caller.new MAX_CALLS
            (protector_steps self.now.seed.now self.now.turn.caller self.now.turn.uid self.now.turn.number
            label.now new.now) result }
    {
        let made = new_protector(self.alloc, self.stretches, self.seed, self.turn, label, new)?;
        self.store_protector(caller, label, 0, &made)
    }
}
