//! The pieces of a session's work that open a record: a call, and what a secret makes of its reply.

ghost use Rattle.std.specs.Prelude.{◌≡◌, length, IfOk};
ghost use Rattle.fsc_keys.specs.Keys.{key_id_of};
ghost use Rattle.fsc_keys.specs.declared.raw_key.TheConstants.{MAX_RAW_KEY_BYTES};
ghost use Rattle.script_words.specs.Secrets.{IsSecret};
ghost use Rattle.fsc_commands.specs.Opening.{opening_protector, opening_policy};
ghost use Rattle.fsc_commands.specs.Work.{WorkedPart};
ghost use Rattle.fsc_commands.specs.Callers.{MayAsk};

use crate::work::{Caller, Opener, Work};
use argon_kdf::Stretch;
use byte_words::wipe;
use mount_model::{MountPort, Op};
use script_lang::Record;
use session_records::{
    OpenedPolicy, OpenedProtector, Stop, opened_policy, record_name, unwrapped_protector,
};
use short_bytes::Label;

impl<'a, S: Stretch> Work<'a, S> {
    // Loads a protector, and opens it with its secret. Wipes its key if there is no memory for the entry.
    pub(crate) fn open_protector<P: MountPort>(
        &self,
        caller: &mut Caller<P>,
        opener: Opener,
    ) -> Result<OpenedProtector, Stop>
        requires stretches { S.ready self.now.stretches.now }
        requires ready { MayAsk P.who P.calls_left 1 self.now.turn caller.old }
        requires secret { IsSecret opener.secret.now }
        ensures { WorkedPart P.after_calls P.who P.calls_left caller.old caller.new 1
            (opening_protector self.now.turn.caller self.now.turn.uid opener.entry.protector.now
            opener.entry.secret.now) result }
    {
        let name = record_name(self.alloc, &Record::Protector(*opener.protector))?;
        let placed = self.ask_for(caller, Op::MetaLoad { name })?;
        let mut got = unwrapped_protector(
            self.alloc,
            self.stretches,
            opener.protector,
            opener.secret,
            &placed.1.reply,
        );
        match caller.entries.push(placed) {
            Ok(()) => got,
            Err(error) => {
                if let Ok(opened) = &mut got {
                    wipe(&mut opened.key);
                }
                Err(error.into())
            }
        }
    }
}

impl<'a, S> Work<'a, S> {
    // Loads the policy of this label, and opens it through the protector of another label, with its key.
    // The policy's key has 64 bytes, and the identifier that the record contains. It is wiped if there is
    // no memory for the entry.
    pub(crate) fn open_policy<P: MountPort>(
        &self,
        caller: &mut Caller<P>,
        label: &Label,
        protector: &Label,
        key: &[u8; 32],
    ) -> Result<OpenedPolicy, Stop>
        requires ready { MayAsk P.who P.calls_left 1 self.now.turn caller.old }
        ensures opened { WorkedPart P.after_calls P.who P.calls_left caller.old caller.new 1
            (opening_policy self.now.turn.caller self.now.turn.uid label.now protector.now key.now) result }
        ensures identified { IfOk result (λ opened. key_id_of opened.key ≡ opened.loaded.policy.id) }
        ensures whole { IfOk result (λ opened. length opened.key ≡ MAX_RAW_KEY_BYTES) }
    {
        let name = record_name(self.alloc, &Record::Policy(*label))?;
        let placed = self.ask_for(caller, Op::MetaLoad { name })?;
        let mut got = opened_policy(self.alloc, label, protector, key, &placed.1.reply);
        match caller.entries.push(placed) {
            Ok(()) => got,
            Err(error) => {
                if let Ok(opened) = &mut got {
                    opened.key.wipe();
                }
                Err(error.into())
            }
        }
    }
}
