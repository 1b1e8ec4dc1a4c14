//! A session's work that links a protector of another mount.

ghost use Rattle.fsc_commands.specs.ProtectorSteps.{protector_link_steps};
ghost use Rattle.fsc_commands.specs.Work.{WorkResult};
ghost use Rattle.fsc_commands.specs.Callers.{MayAsk};
ghost use Rattle.fsc_commands.specs.declared.TheConstants.{MAX_CALLS};

use crate::work::{Caller, Work};
use mount_model::MountPort;
use protector_meta::encode_link;
use reply_text::Outcome;
use script_lang::Record;
use session_records::Stop;
use short_bytes::Label;

impl<'a, S> Work<'a, S> {
    // Stores the link to a protector that is on another mount, under the protector's name.
    pub(crate) fn protector_link<P: MountPort>(
        &self,
        caller: &mut Caller<P>,
        label: &Label,
    ) -> Result<Option<Outcome>, Stop>
        requires ready { MayAsk P.who P.calls_left MAX_CALLS self.now.turn caller.old }
        ensures { WorkResult P.after_calls P.who P.calls_left caller.old caller.new MAX_CALLS
            (protector_link_steps self.now.turn.caller self.now.turn.uid label.now) result }
    {
        let text = encode_link(self.alloc, label)?;
        self.store_record(caller, Record::Protector(*label), 0, text)
    }
}
