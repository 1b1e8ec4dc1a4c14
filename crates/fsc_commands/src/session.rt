//! A session's work, command by command.

ghost use Rattle.std.specs.Prelude.{◌≡◌};
ghost use Rattle.script_lang.specs.CommandTasks.{IsAskable};
ghost use Rattle.fsc_commands.specs.Commands.{command_steps, plain_op};
ghost use Rattle.fsc_commands.specs.CommandGroups.{OpensProtector};
ghost use Rattle.fsc_commands.specs.Steps.{names_in};
ghost use Rattle.fsc_commands.specs.Work.{WorkResult};
ghost use Rattle.fsc_commands.specs.Callers.{MayAsk};
ghost use Rattle.fsc_commands.specs.declared.TheConstants.{MAX_CALLS};

use crate::policies::AskedOfKey;
use crate::work::{Caller, Opener, Work};
use argon_kdf::Stretch;
use mount_model::MountPort;
use reply_text::Outcome;
use script_lang::Verb;
use session_records::Stop;

impl<'a, S: Stretch> Work<'a, S> {
    // Runs a session's work, or lets the turn pass.
    pub(crate) fn run_session<P: MountPort>(
        &self,
        caller: &mut Caller<P>,
        verb: &Verb,
    ) -> Result<Option<Outcome>, Stop>
        requires stretches { S.ready self.now.stretches.now }
        requires ready { MayAsk P.who P.calls_left MAX_CALLS self.now.turn caller.old }
        requires asked { IsAskable verb.now }
        requires session { plain_op self.now.seed.now self.now.turn.caller self.now.turn.uid
            self.now.turn.number (names_in caller.old.entries.now) verb.now ≡ None }
        ensures { WorkResult P.after_calls P.who P.calls_left caller.old caller.new MAX_CALLS
            (command_steps self.now.seed.now self.now.turn.caller self.now.turn.uid self.now.turn.number
            (names_in caller.old.entries.now) verb.now) result }
    {
        match verb {
            Verb::Protector { protector, secret } => self.protector(caller, protector, secret),
            Verb::ProtectorLink(label) => self.protector_link(caller, label),
            Verb::PolicyDrop { policy, protector } => self.policy_drop(caller, policy, protector),
            Verb::Lock(policy) => self.ask_of_key(caller, policy, AskedOfKey::Removal),
            Verb::Status(policy) => self.ask_of_key(caller, policy, AskedOfKey::Status),
            Verb::Encrypt {
                path,
                policy,
                settings,
            } => self.encrypt(caller, path, policy, *settings),
            Verb::Migrate(policy) => self.migrate(caller, policy),
            Verb::Pause => Ok(None),
            Verb::ProtectorChange { .. }
            | Verb::PolicyNew { .. }
            | Verb::PolicyAdd { .. }
            | Verb::Unlock { .. } => self.run_opening(caller, verb),
            // (a single call, which is no session's work)
            _ => unreachable!(),
        }
    }

    // Runs the work that opens a protector, and a policy through it.
    fn run_opening<P: MountPort>(
        &self,
        caller: &mut Caller<P>,
        verb: &Verb,
    ) -> Result<Option<Outcome>, Stop>
        requires stretches { S.ready self.now.stretches.now }
        requires ready { MayAsk P.who P.calls_left MAX_CALLS self.now.turn caller.old }
        requires asked { IsAskable verb.now }
        requires opening { OpensProtector verb.now }
        ensures { WorkResult P.after_calls P.who P.calls_left caller.old caller.new MAX_CALLS
            (command_steps self.now.seed.now self.now.turn.caller self.now.turn.uid self.now.turn.number
            (names_in caller.old.entries.now) verb.now) result }
    {
        match verb {
            Verb::ProtectorChange {
                protector,
                secret,
                new_secret,
            } => self.protector_change(caller, Opener { protector, secret }, new_secret),
            Verb::PolicyNew {
                policy,
                protector,
                secret,
                options,
            } => self.policy_new(caller, policy, Opener { protector, secret }, *options),
            Verb::PolicyAdd {
                policy,
                protector,
                secret,
                added,
                added_secret,
            } => {
                let opener = Opener { protector, secret };
                let added = Opener {
                    protector: added,
                    secret: added_secret,
                };
                self.policy_add(caller, policy, opener, added)
            }
            Verb::Unlock {
                policy,
                protector,
                secret,
            } => self.unlock(caller, policy, Opener { protector, secret }),
            _ => unreachable!(),
        }
    }
}
