//! The shown form of a caller's calls, split into that of the calls on either mount.

ghost use Rattle.std.specs.Prelude.{◌≡◌, ◌++◌, IfOk, OnOk};
ghost use Rattle.mount_links.specs.ShownParts.{logged_load};
ghost use Rattle.mount_links.specs.Linked as spec;

use crate::name_buffer::NameBuffer;
use crate::step::LinkStep;
use call_history::Entry;
use item_list::Items;
use mount_model::{Call, Op, Refusal, Reply};
use reply_text::{LoggedCall, to_logged};
use short_bytes::Label;
use std::alloc::{AllocError, Global};

/// The shown form of calls, and their replies, each with its place.
pub type LoggedList = Items<(u64, Entry<LoggedCall, Reply>)>;

/// The shown form of a caller's calls on two mounts.
#[derive(Drop)]
pub struct LoggedOnBoth {
    pub own: LoggedList,
    pub far: LoggedList,
}

/// Returns the shown form of the calls on the caller's own mount and on the far one, by that of the
/// caller's calls, and the step of each of them. The one error is out of memory.
pub fn split(
    alloc: Global,
    entries: LoggedList,
    steps: Vec<LinkStep>,
) -> Result<LoggedOnBoth, AllocError>
    ensures own { IfOk result (λ both. both.own ≡ spec.own_parts logged_load steps.items entries) }
    ensures far { IfOk result (λ both. both.far ≡ spec.far_parts steps.items entries) }
{
    let mut both = LoggedOnBoth {
        own: LoggedList::new(alloc),
        far: LoggedList::new(alloc),
    };
    'calls: for (step, placed) in steps.into_iter().zip(entries.into_vec()) {
        put_parts(alloc, &mut both, placed, step)?;
    }
    Ok(both)
}

// Appends the parts of a call.
fn put_parts(
    alloc: Global,
    both: &mut LoggedOnBoth,
    placed: (u64, Entry<LoggedCall, Reply>),
    step: LinkStep,
) -> Result<(), AllocError>
    ensures own { OnOk result (both.new.own ≡ both.old.own ++ spec.own_part logged_load step placed) }
    ensures far { OnOk result (both.new.far ≡ both.old.far ++ spec.far_part step placed) }
{
    match step {
        LinkStep::Alone => both.own.push(placed)?,
        LinkStep::Followed {
            label,
            first,
            there,
        } => {
            let look = look_before(alloc, &label, &placed.1, first)?;
            both.own.push((placed.0, look))?;
            both.far.push((there, placed.1))?;
        }
        LinkStep::Looked {
            label,
            place,
            first,
        } => {
            let look = look_before(alloc, &label, &placed.1, first)?;
            both.own.push((place, look))?;
            both.own.push(placed)?;
        }
        LinkStep::NotMade { label } => {
            let refused = Reply::Refused(Refusal::NoMemory);
            let look = look_before(alloc, &label, &placed.1, refused)?;
            both.own.push((placed.0, look))?;
        }
    }
    Ok(())
}

// The shown form of loading a protector's record before the call.
fn look_before(
    alloc: Global,
    label: &Label,
    entry: &Entry<LoggedCall, Reply>,
    reply: Reply,
) -> Result<Entry<LoggedCall, Reply>, AllocError>
    ensures { IfOk result (λ look. look ≡ spec.look_before logged_load label.now entry.now reply) }
{
    let name = NameBuffer::new(alloc)?.name(label);
    let load = Call {
        uid: entry.call.uid,
        op: Op::MetaLoad { name },
    };
    Ok(Entry {
        who: entry.who,
        call: to_logged(alloc, &load)?,
        reply,
    })
}
