//! The open handles of all callers.

ghost use Rattle.std.specs.Prelude.{◌≡◌, IsTrue, IfOk, IfErr, IfSome, OnOk, OnErr, false};
ghost use Rattle.mount_model.specs.OpenHandles.{is_handle, node_of, opens_of};
ghost use Rattle.mount_state.specs.Handles.{no_handles, with_handle, without, is_full, LosesOne};

use super::HandleFault;
use key_counts as counts;
use mount_model::Handle;
use mount_model::limits::{MAX_HANDLES, MAX_OPENS};
use std::alloc::{AllocError, Global};
use std::collections::BTreeMap;
use std::marker::Model;

/// The open handles, seen as the list of them in the order of their opening, and how many each caller
/// ever opened. A number is never given again.
///
/// A handle's node is found in a time that grows with the logarithm of how many are open.
pub struct HandleTable {
    live: Vec<Handle>,
    // The node of each, by its caller and number.
    index: BTreeMap<(u32, u32), u32>,
    opened: BTreeMap<u32, u32>,
}

// Written, and not derived, so that a crate that lets one go needn't prove how that is done.
impl Drop for HandleTable {
    fn drop(self) {
        let HandleTable {
            live: _,
            index: _,
            opened: _,
        } = self;
    }
}

impl Model for HandleTable {
    ghost use Rattle.std.specs.Prelude.{ℕ, refl};
    ghost use Rattle.std.specs.Coded.{code_by, coded×, coded_ℕ, coded_list};
    ghost use Rattle.std.specs.FinMap.{code};
    ghost use Rattle.mount_model.specs.contracts.handle.Handle as handle;
    ghost use Rattle.mount_model.specs.PlainMount.{HandleList};
    ghost use Rattle.number_map.specs.Numbered.{NumberedValues};
    ghost use Rattle.mount_state.specs.Handles.{Handles};
    ghost use Rattle.mount_state.specs.KeptHandles.{opened_in, IsIndexed};

    ghost Value = { Handles };

    ghost coded = { code_by (HandleList × NumberedValues ℕ)
        (coded× (coded_list handle.the_row.coded) (code coded_ℕ coded_ℕ))
        (λ handles. (handles.live, handles.opened))
        (λ pair. record { live = pair.0; opened = pair.1 })
        (λ _. refl) };

    ghost view = { λ t. record { live = t.live.items; opened = opened_in t.opened.entries } };

    ghost invariant = { λ t. IsIndexed t.live.items t.index (opened_in t.opened.entries) };
}

impl HandleTable {
    /// No handles. It takes no memory before the first one is opened.
    pub fn new(alloc: Global) -> HandleTable
        ensures { result ≡ no_handles }
    {
        HandleTable {
            live: Vec::new(alloc),
            index: BTreeMap::new(alloc),
            opened: BTreeMap::new(alloc),
        }
    }

    /// Opens a handle of the caller on the node. Returns its number: how many the caller opened before.
    /// `NoSpace` exactly when `MAX_HANDLES` are open or the caller opened `MAX_OPENS`. After a refusal
    /// all handles and counts are as before.
    pub fn open(&mut self, caller: u32, node: u32) -> Result<u32, HandleFault>
        ensures number { IfOk result (λ number. number ≡ opens_of self.old.opened caller) }
        ensures opened { OnOk result (self.new ≡ with_handle self.old caller node) }
        ensures kept { OnErr result (self.new ≡ self.old) }
        ensures full { IsTrue (is_full self.old caller) → result ≡ Err HandleFault.NoSpace }
        ensures no_space { IfErr result (λ fault.
            fault ≡ HandleFault.NoSpace → IsTrue (is_full self.old caller)) }
    {
        if self.is_full(caller) {
            return Err(HandleFault::NoSpace);
        }
        match self.add(caller, node) {
            Ok(number) => Ok(number),
            Err(_) => Err(HandleFault::NoMemory),
        }
    }

    /// Whether no further handle of the caller may be opened: `MAX_HANDLES` are open, or the caller
    /// opened `MAX_OPENS`.
    pub fn is_full(&self, caller: u32) -> bool
        ensures { result ≡ is_full self.now caller }
    {
        self.live.len() >= MAX_HANDLES || self.opens(caller) as usize >= MAX_OPENS
    }

    // How many handles the caller ever opened.
    fn opens(&self, caller: u32) -> u32
        ensures { result ≡ opens_of self.now.opened caller }
    {
        counts::count_of(&self.opened, &caller)
    }

    // Appends a new handle, and counts it.
    fn add(&mut self, caller: u32, node: u32) -> Result<u32, AllocError>
        requires { is_full self.old caller ≡ false }
        ensures number { IfOk result (λ number. number ≡ opens_of self.old.opened caller) }
        ensures opened { OnOk result (self.new ≡ with_handle self.old caller node) }
        ensures kept { OnErr result (self.new ≡ self.old) }
    {
        let number = self.opens(caller);
        self.live.reserve(1)?;
        if self.index.insert((caller, number), node).is_err() {
            return Err(AllocError);
        }
        if counts::one_more(&mut self.opened, caller).is_err() {
            self.index.remove(&(caller, number));
            return Err(AllocError);
        }
        let handle = Handle {
            caller,
            number,
            node,
        };
        match self.live.push(handle) {
            Ok(()) => Ok(number),
            Err(_) => unreachable!(),
        }
    }

    /// Returns the node of the caller's handle of this number, or `None` if it isn't open.
    pub fn node_of(&self, caller: u32, number: u32) -> Option<u32>
        ensures { result ≡ node_of self.now.live caller number }
    {
        self.index.get(&(caller, number)).copied()
    }

    /// Closes the caller's handle of this number, if it is open, and no other. Takes no memory.
    pub fn close(&mut self, caller: u32, number: u32)
        ensures left { self.new ≡ without self.old caller number }
        ensures one { IfSome (node_of self.old.live caller number) (LosesOne self.old.live self.new.live) }
    {
        self.index.remove(&(caller, number));
        self.live
            .retain(|handle| !is_handle(handle, caller, number));
    }

    /// The open handles in the order of their opening.
    pub fn live(&self) -> &[Handle]
        ensures { result.now ≡ self.now.live }
    {
        self.live.as_slice()
    }
}

// Whether it is the caller's handle of this number.
fn is_handle(handle: &Handle, caller: u32, number: u32) -> bool
    ensures { result ≡ is_handle caller number handle.now }
{
    handle.caller == caller && handle.number == number
}
