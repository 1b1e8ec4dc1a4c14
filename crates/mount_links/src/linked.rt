//! A caller's call made on two mounts.

ghost use Rattle.std.specs.Prelude.{◌≡◌, ◌+◌, ◌<◌, ◌≤◌, [], ◌∷◌};
ghost use Rattle.call_history.specs.Entries.{entry};
ghost use Rattle.mount_model.specs.Fits.{Fits};
ghost use Rattle.mount_links.specs.LinkCalls.{AfterOneCall, load_call};
ghost use Rattle.mount_links.specs.LinkSteps as spec;
ghost use Rattle.mount_links.specs.declared.step.LinkStep.TheVariants.{Followed};
ghost use Rattle.mount_links.specs.declared.asked.Asked.TheVariants.{Load, Other, Store};

use crate::asked::{Asked, asked_of, is_link, is_out_of_memory};
use crate::name_buffer::NameBuffer;
use crate::step::LinkStep;
use mount_model::{Call, MountPort, Op, Placed};
use short_bytes::Label;

// The place and the reply of a caller's call, and its step on the two mounts.
#[derive(Drop)]
pub(crate) struct Linked {
    pub(crate) placed: Placed,
    pub(crate) step: LinkStep,
}

// Makes the call. The buffer `room` is for a name.
pub(crate) fn made<P: MountPort, Q: MountPort>(
    own: &mut P,
    far: &mut Q,
    call: &Call,
    room: NameBuffer,
) -> Linked
    requires same { P.who own.old ≡ Q.who far.old }
    requires left { 2 ≤ P.calls_left own.old }
    requires far_left { 1 ≤ Q.calls_left far.old }
    requires fits { Fits call.now }
    ensures after_calls { AfterOneCall (P.after_calls own.old) (Q.after_calls far.old) result.step
        (result.placed.place, entry (P.who own.old) call.now result.placed.reply) own.new far.new }
    ensures caller { P.who own.new ≡ P.who own.old }
    ensures far_caller { Q.who far.new ≡ Q.who far.old }
    ensures left { P.calls_left own.old ≤ P.calls_left own.new + 2 }
    ensures far_left { Q.calls_left far.old ≤ Q.calls_left far.new + 1 }
    ensures from { P.floor own.old ≤ result.placed.place }
    ensures below { result.placed.place < P.floor own.new }
{
    match asked_of(&call.op) {
        Asked::Load(label) => load(own, far, call, label),
        Asked::Store(label) => store(own, far, call, label, room),
        Asked::Other => alone(own, far, call),
    }
}

// Makes a call that concerns no link on the own mount, as it is.
fn alone<P: MountPort, Q: MountPort>(own: &mut P, far: &mut Q, call: &Call) -> Linked
    requires asked { spec.asked_of call.now.op ≡ Other }
    requires left { 2 ≤ P.calls_left own.old }
    requires fits { Fits call.now }
    ensures after_calls { AfterOneCall (P.after_calls own.old) (Q.after_calls far.old) result.step
        (result.placed.place, entry (P.who own.old) call.now result.placed.reply) own.new far.new }
    ensures caller { P.who own.new ≡ P.who own.old }
    ensures far { far.new ≡ far.old }
    ensures left { P.calls_left own.old ≤ P.calls_left own.new + 2 }
    ensures from { P.floor own.old ≤ result.placed.place }
    ensures below { result.placed.place < P.floor own.new }
{
    Linked {
        placed: own.call(call),
        step: LinkStep::Alone,
    }
}

// Loads the record of the protector, on the far mount if it is a link on the own one.
fn load<P: MountPort, Q: MountPort>(own: &mut P, far: &mut Q, call: &Call, label: Label) -> Linked
    requires same { P.who own.old ≡ Q.who far.old }
    requires asked { spec.asked_of call.now.op ≡ Load label }
    requires loads { load_call label call.now ≡ call.now }
    requires left { 2 ≤ P.calls_left own.old }
    requires far_left { 1 ≤ Q.calls_left far.old }
    requires fits { Fits call.now }
    ensures after_calls { AfterOneCall (P.after_calls own.old) (Q.after_calls far.old) result.step
        (result.placed.place, entry (P.who own.old) call.now result.placed.reply) own.new far.new }
    ensures caller { P.who own.new ≡ P.who own.old }
    ensures far_caller { Q.who far.new ≡ Q.who far.old }
    ensures left { P.calls_left own.old ≤ P.calls_left own.new + 2 }
    ensures far_left { Q.calls_left far.old ≤ Q.calls_left far.new + 1 }
    ensures from { P.floor own.old ≤ result.placed.place }
    ensures below { result.placed.place < P.floor own.new }
{
    let first = own.call(call);
    if !is_link(&label, &first.reply) {
        return Linked {
            placed: first,
            step: LinkStep::Alone,
        };
    }
    let loaded = far.call(call);
    followed(label, first, loaded)
}

// Stores the record of the protector, on the far mount if it is a link on the own one.
fn store<P: MountPort, Q: MountPort>(
    own: &mut P,
    far: &mut Q,
    call: &Call,
    label: Label,
    room: NameBuffer,
) -> Linked
    requires same { P.who own.old ≡ Q.who far.old }
    requires asked { spec.asked_of call.now.op ≡ Store label }
    requires left { 2 ≤ P.calls_left own.old }
    requires far_left { 1 ≤ Q.calls_left far.old }
    requires fits { Fits call.now }
    ensures after_calls { AfterOneCall (P.after_calls own.old) (Q.after_calls far.old) result.step
        (result.placed.place, entry (P.who own.old) call.now result.placed.reply) own.new far.new }
    ensures caller { P.who own.new ≡ P.who own.old }
    ensures far_caller { Q.who far.new ≡ Q.who far.old }
    ensures left { P.calls_left own.old ≤ P.calls_left own.new + 2 }
    ensures far_left { Q.calls_left far.old ≤ Q.calls_left far.new + 1 }
    ensures from { P.floor own.old ≤ result.placed.place }
    ensures below { result.placed.place < P.floor own.new }
{
    let first = look(own, call, &label, room);
    if is_link(&label, &first.reply) {
        let stored = far.call(call);
        return followed(label, first, stored);
    }
    if is_out_of_memory(&first.reply) {
        return Linked {
            placed: first,
            step: LinkStep::NotMade { label },
        };
    }
    let placed = own.call(call);
    Linked {
        placed,
        step: LinkStep::Looked {
            label,
            place: first.place,
            first: first.reply,
        },
    }
}

// The result of a call that was made on the far mount, after the link was loaded.
fn followed(label: Label, link: Placed, there: Placed) -> Linked
    ensures place { result.placed.place ≡ link.place }
    ensures reply { result.placed.reply ≡ there.reply }
    ensures step { result.step ≡ Followed label link.reply there.place }
{
    Linked {
        placed: Placed {
            place: link.place,
            reply: there.reply,
        },
        step: LinkStep::Followed {
            label,
            first: link.reply,
            there: there.place,
        },
    }
}

// Loads the protector's record on the own mount, for the user of the call.
fn look<P: MountPort>(own: &mut P, call: &Call, label: &Label, room: NameBuffer) -> Placed
    requires left { 2 ≤ P.calls_left own.old }
    ensures after_calls { P.after_calls own.old
        ((result.place, entry (P.who own.old) (load_call label.now call.now) result.reply) ∷ []) own.new }
    ensures caller { P.who own.new ≡ P.who own.old }
    ensures one_fewer { P.calls_left own.new + 1 ≡ P.calls_left own.old }
    ensures from { P.floor own.old ≤ result.place }
    ensures below { result.place < P.floor own.new }
{
    let load = Call {
        uid: call.uid,
        op: Op::MetaLoad {
            name: room.name(label),
        },
    };
    own.call(&load)
}
