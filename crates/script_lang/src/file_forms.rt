//! The commands of several words that make one call.

ghost use Rattle.script_lang.specs.Forms.{Takes};
ghost use Rattle.script_lang.specs.NumberVerbs as number_forms;
ghost use Rattle.script_lang.specs.Verbs as forms;

use crate::verb::Verb;
use crate::words::{Unread, Words};
use std::alloc::Global;

pub(crate) fn set_policy(alloc: Global, words: &mut Words<'_>) -> Result<Verb, Unread>
    ensures { Takes result (forms.set_policy words.old) words.new }
{
    Ok(Verb::SetPolicy {
        path: words.path(alloc)?,
        key: words.key()?,
        settings: words.settings()?,
    })
}

pub(crate) fn set_policy_bytes(alloc: Global, words: &mut Words<'_>) -> Result<Verb, Unread>
    ensures { Takes result (forms.set_policy_bytes words.old) words.new }
{
    Ok(Verb::SetPolicyBytes {
        path: words.path(alloc)?,
        policy: words.policy_bytes()?,
    })
}

pub(crate) fn symlink(alloc: Global, words: &mut Words<'_>) -> Result<Verb, Unread>
    ensures { Takes result (forms.symlink words.old) words.new }
{
    Ok(Verb::Symlink {
        path: words.path(alloc)?,
        target: words.target(alloc)?,
    })
}

pub(crate) fn rename(alloc: Global, words: &mut Words<'_>) -> Result<Verb, Unread>
    ensures { Takes result (forms.rename words.old) words.new }
{
    Ok(Verb::Rename {
        old_path: words.path(alloc)?,
        new_path: words.path(alloc)?,
    })
}

pub(crate) fn list(alloc: Global, words: &mut Words<'_>) -> Result<Verb, Unread>
    ensures { Takes result (forms.list words.old) words.new }
{
    Ok(Verb::List {
        path: words.path(alloc)?,
        start: words.optional_number()?,
    })
}

pub(crate) fn read(words: &mut Words<'_>) -> Result<Verb, Unread>
    ensures { Takes result (number_forms.read words.old) words.new }
{
    Ok(Verb::Read {
        handle: words.number()?,
        offset: words.number()?,
        len: words.number()?,
    })
}

pub(crate) fn write(alloc: Global, words: &mut Words<'_>) -> Result<Verb, Unread>
    ensures { Takes result (number_forms.write words.old) words.new }
{
    Ok(Verb::Write {
        handle: words.number()?,
        offset: words.number()?,
        bytes: words.written_bytes(alloc)?,
    })
}

pub(crate) fn fill(words: &mut Words<'_>) -> Result<Verb, Unread>
    ensures { Takes result (number_forms.fill words.old) words.new }
{
    Ok(Verb::Fill {
        handle: words.number()?,
        offset: words.number()?,
        len: words.filled_len()?,
        byte: words.byte()?,
    })
}

pub(crate) fn meta_put_form(alloc: Global, words: &mut Words<'_>) -> Result<Verb, Unread>
    ensures { Takes result (number_forms.meta_put_form words.old) words.new }
{
    Ok(Verb::MetaPut {
        record: words.record()?,
        expected: words.number()?,
        bytes: words.put_bytes(alloc)?,
    })
}
