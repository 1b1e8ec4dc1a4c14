//! The port of a caller on two mounts.

ghost use Rattle.std.specs.Prelude.{◌≡◌, ◌*◌, ◌≤◌, [], IfOk};
ghost use Rattle.std.specs.Vec.{vec_len};
ghost use Rattle.mount_links.specs.LinkCalls.{LinkAfterCalls, link_view};
ghost use Rattle.mount_links.specs.PortLaws.{LinkAfterCalls-none, LinkAfterCalls-on, LinkAfterCalls-caller};

use crate::linked::made;
use crate::name_buffer::NameBuffer;
use crate::step::LinkStep;
use mount_model::{Call, MountPort, Placed};
use std::alloc::{AllocError, Global};
use std::marker::Model;

/// A caller's port on two mounts. Calls are made on its own mount, and those on a protector's record that
/// is a link there on the far one. It records the step of each call. In clauses it is a `LinkView`.
#[derive(Drop)]
pub struct LinkPort<P: MountPort + Drop, Q: MountPort + Drop> {
    own: P,
    far: Q,
    left: u64,
    // With capacity for each call that is left.
    steps: Vec<LinkStep>,
    names: Vec<NameBuffer>,
}

impl<P: MountPort + Drop, Q: MountPort + Drop> Model for LinkPort<P, Q> {
    ghost use Rattle.std.specs.Prelude.{◌≡◌, ◌+◌, ◌*◌, ◌≤◌};
    ghost use Rattle.std.specs.Vec.{vec_capacity, vec_len};
    ghost use Rattle.mount_links.specs.LinkCalls.{LinkView, link_view};

    ghost Value = { LinkView P Q };

    ghost view = { λ port. link_view port.own port.far port.left port.steps.items };

    ghost invariant = { λ port. (P.who port.own ≡ Q.who port.far)
        × (2 * port.left ≤ P.calls_left port.own) × (port.left ≤ Q.calls_left port.far)
        × (vec_len port.steps + port.left ≤ vec_capacity port.steps) × (port.left ≤ vec_len port.names) };
}

impl<P: MountPort + Drop, Q: MountPort + Drop> LinkPort<P, Q> {
    /// Returns the port of a caller, with `left` calls, on its ports to its own mount and to the far one.
    /// The far port must have at least that many calls left, and the own one at least twice as many. All
    /// memory that its calls need is allocated here: if it is out of memory, no call was made.
    pub fn new(alloc: Global, own: P, far: Q, left: u64) -> Result<LinkPort<P, Q>, AllocError>
        requires same { P.who own ≡ Q.who far }
        requires own_left { 2 * left ≤ P.calls_left own }
        requires far_left { left ≤ Q.calls_left far }
        ensures { IfOk result (λ port. port ≡ link_view own far left []) }
    {
        let steps = Vec::with_capacity(alloc, left as usize)?;
        let names = name_rooms(alloc, left)?;
        Ok(LinkPort {
            own,
            far,
            left,
            steps,
            names,
        })
    }

    /// Returns the two ports, the caller's own first, and the step of each call.
    pub fn back(self) -> (P, Q, Vec<LinkStep>)
        ensures own { result.0 ≡ self.own }
        ensures far { result.1 ≡ self.far }
        ensures steps { result.2.items ≡ self.steps }
    {
        (self.own, self.far, self.steps)
    }
}

// Allocates `count` buffers for names.
fn name_rooms(alloc: Global, count: u64) -> Result<Vec<NameBuffer>, AllocError>
    ensures { IfOk result (λ rooms. count ≤ vec_len rooms) }
{
    let mut rooms = Vec::with_capacity(alloc, count as usize)?;
    for _ in 0..count {
        rooms.push(NameBuffer::new(alloc)?)?;
    }
    Ok(rooms)
}

/// After its calls each has its step, and the two ports are as after the calls that these steps make. Its
/// caller and its places are those of the port to the own mount.
impl<P: MountPort + Drop, Q: MountPort + Drop> MountPort for LinkPort<P, Q> {
    ghost who = { λ port. P.who port.own };

    ghost calls_left = { λ port. port.left };

    ghost floor = { λ port. P.floor port.own };

    ghost after_calls = { LinkAfterCalls P.after_calls Q.after_calls };

    fn caller(&self) -> u32 {
        self.own.caller()
    }

    fn left(&self) -> u64 {
        self.left
    }

    fn call(&mut self, call: &Call) -> Placed {
        let room = self.names.take_last();
        let made = made(&mut self.own, &mut self.far, call, room);
        self.left -= 1;
        self.steps.push_reserved(made.step);
        made.placed
    }

    ghost by_none = { LinkAfterCalls-none P.after_calls Q.after_calls P.by_none Q.by_none };

    ghost by_more = { LinkAfterCalls-on P.after_calls Q.after_calls P.by_more Q.by_more };

    ghost one_caller = { LinkAfterCalls-caller P.after_calls Q.after_calls P.who P.one_caller };
}
