//! The session commands of several words.

ghost use Rattle.script_lang.specs.Forms.{Takes};
ghost use Rattle.script_lang.specs.Sessions as forms;

use crate::verb::Verb;
use crate::words::{Unread, Words};
use short_bytes::Label;
use std::alloc::Global;

pub(crate) fn protector(alloc: Global, words: &mut Words<'_>) -> Result<Verb, Unread>
    ensures { Takes result (forms.protector words.old) words.new }
{
    Ok(Verb::Protector {
        protector: words.label()?,
        secret: words.new_secret(alloc)?,
    })
}

pub(crate) fn protector_change(alloc: Global, words: &mut Words<'_>) -> Result<Verb, Unread>
    ensures { Takes result (forms.protector_change words.old) words.new }
{
    Ok(Verb::ProtectorChange {
        protector: words.label()?,
        secret: words.secret(alloc)?,
        new_secret: words.new_secret(alloc)?,
    })
}

pub(crate) fn policy_new(alloc: Global, words: &mut Words<'_>) -> Result<Verb, Unread>
    ensures { Takes result (forms.policy_new words.old) words.new }
{
    Ok(Verb::PolicyNew {
        policy: words.label()?,
        protector: words.label()?,
        secret: words.secret(alloc)?,
        options: words.optional_options()?,
    })
}

pub(crate) fn policy_add(alloc: Global, words: &mut Words<'_>) -> Result<Verb, Unread>
    ensures { Takes result (forms.policy_add words.old) words.new }
{
    let policy = words.label()?;
    let protector = words.label()?;
    policy_add_form(alloc, policy, protector, words)
}

// The same, once its policy and protector are read.
fn policy_add_form(
    alloc: Global,
    policy: Label,
    protector: Label,
    words: &mut Words<'_>,
) -> Result<Verb, Unread>
    ensures { Takes result (forms.policy_add_form policy protector words.old) words.new }
{
    Ok(Verb::PolicyAdd {
        policy,
        protector,
        secret: words.secret(alloc)?,
        added: words.label()?,
        added_secret: words.secret(alloc)?,
    })
}

pub(crate) fn policy_drop(words: &mut Words<'_>) -> Result<Verb, Unread>
    ensures { Takes result (forms.policy_drop words.old) words.new }
{
    Ok(Verb::PolicyDrop {
        policy: words.label()?,
        protector: words.label()?,
    })
}

pub(crate) fn unlock(alloc: Global, words: &mut Words<'_>) -> Result<Verb, Unread>
    ensures { Takes result (forms.unlock words.old) words.new }
{
    Ok(Verb::Unlock {
        policy: words.label()?,
        protector: words.label()?,
        secret: words.secret(alloc)?,
    })
}

pub(crate) fn encrypt(alloc: Global, words: &mut Words<'_>) -> Result<Verb, Unread>
    ensures { Takes result (forms.encrypt words.old) words.new }
{
    Ok(Verb::Encrypt {
        path: words.path(alloc)?,
        policy: words.label()?,
        settings: words.optional_settings()?,
    })
}
