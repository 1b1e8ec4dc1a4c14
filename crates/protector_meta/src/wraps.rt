//! Wraps of a policy's key, and the list of them that a policy has.

ghost use Rattle.std.specs.Prelude.{◌≡◌, ◌<◌, ◌≤◌, ◌^◌, [], ◌∷◌, ◌++◌, length, IfOk, IfSome, IfNone};
ghost use Rattle.std.specs.Prelude.{IsOk, IsOkUnless, OnOk, OnErr, option_copied, slice_get};
ghost use Rattle.std.specs.Iterator.Adapters.{IterYieldsInOrder};
ghost use Rattle.std.specs.Slice.Iter.{iter_rest};
ghost use Rattle.protector_meta.specs.declared.wraps.TheConstants.{MAX_WRAPS};
ghost use Rattle.protector_meta.specs.declared.wraps.Wrap.{Wrap};
ghost use Rattle.protector_meta.specs.Wraps.{AreWraps, adding_fault, dropping_fault};
ghost use Rattle.protector_meta.specs.Wraps.{is_for, is_listed, wrap_for, wraps_without};

use short_bytes::Label;
use std::alloc::{AllocError, AllocFailed, Global};
use std::marker::Model;
use std::slice;
use thiserror::Error;

/// The maximal number of wraps of a policy.
pub const MAX_WRAPS: usize = 16;

/// The key of a policy, wrapped under the key of one protector.
#[derive(Clone, Copy, Debug, PartialEq, Eq)]
pub struct Wrap {
    /// The label of the protector.
    pub protector: Label,
    /// The iv under which the key was wrapped.
    pub iv: [u8; 16],
    /// The wrapped key.
    pub key: [u8; 64],
    /// The tag over the iv and the wrapped key.
    pub tag: [u8; 32],
}

/// Why a wrap wasn't added or dropped. After each of these errors the wraps are unchanged.
#[derive(Clone, Copy, Debug, PartialEq, Eq, Error)]
pub enum WrapFault {
    /// The protector has a wrap already.
    #[error("the protector is listed already")]
    Listed,
    /// There are `MAX_WRAPS` wraps.
    #[error("the policy has 16 protectors")]
    Full,
    /// The protector has no wrap.
    #[error("the protector isn't listed")]
    NotListed,
    /// There is no other wrap, and without one the policy's key could not be opened.
    #[error("the protector is the last one")]
    LastOne,
    /// Out of memory.
    #[error("out of memory")]
    NoMemory,
}

impl<T: Drop> From<AllocFailed<T>> for WrapFault {
    ghost use Rattle.std.specs.Prelude.{◌≡◌};
    ghost use Rattle.protector_meta.specs.declared.wraps.WrapFault.TheVariants.{NoMemory};

    ghost from_gives = { λ _ fault. fault ≡ NoMemory };

    fn from(_error: AllocFailed<T>) -> WrapFault {
        WrapFault::NoMemory
    }
}

/// 1 to `MAX_WRAPS` wraps for different protectors, in the order in which they were added. In clauses
/// it is the list of them.
#[derive(Drop)]
pub struct WrapList {
    wraps: Vec<Wrap>,
}

impl Model for WrapList {
    ghost use Rattle.std.specs.Prelude.{List};
    ghost use Rattle.protector_meta.specs.declared.wraps.Wrap.{Wrap};
    ghost use Rattle.protector_meta.specs.Wraps.{AreWraps};

    ghost Value = { List Wrap };

    ghost view = { λ list. list.wraps.items };

    ghost invariant = { λ list. AreWraps list.wraps.items };
}

impl WrapList {
    /// Returns the list of one wrap. The only error is out of memory.
    pub fn of(alloc: Global, first: Wrap) -> Result<WrapList, AllocError>
        ensures { IfOk result (λ wraps. wraps ≡ first ∷ []) }
    {
        let wraps = vec![in alloc; first; 1]?;
        Ok(WrapList { wraps })
    }

    /// Returns the number of wraps, 1 to `MAX_WRAPS`.
    pub fn len(&self) -> usize
        ensures length { result ≡ length self.now }
        ensures few { result ≤ MAX_WRAPS }
    {
        self.wraps.len()
    }

    /// Returns the wrap at the index, counted from 0, or `None` from the length on.
    pub fn get(&self, index: usize) -> Option<&Wrap>
        ensures { option_copied result ≡ slice_get self.now index }
    {
        self.wraps.get(index)
    }

    /// Returns the wrap for the protector of this label, or `None` if it isn't listed.
    pub fn find(&self, label: &Label) -> Option<&Wrap>
        ensures { option_copied result ≡ wrap_for label.now self.now }
    {
        wrap_for(&self.wraps, label)
    }

    /// Returns the wraps as a slice.
    pub fn as_slice(&self) -> &[Wrap]
        ensures value { result.now ≡ self.now }
        ensures wraps { AreWraps result.now }
    {
        self.wraps.as_slice()
    }

    /// Iterates over the wraps, the first one first.
    pub fn iter(&self) -> slice::Iter<'_, Wrap>
        ensures rest { iter_rest result ≡ self.now }
        ensures bound { length (iter_rest result) < 2 ^ 64 }
        ensures runs { IterYieldsInOrder Wrap }
    {
        self.wraps.iter()
    }

    /// Appends the wrap. Returns `Listed` if its protector has a wrap already, and otherwise `Full` if
    /// there are `MAX_WRAPS` wraps. Otherwise the only error is `NoMemory`. After an error the wraps are
    /// unchanged.
    pub fn add(&mut self, wrap: Wrap) -> Result<(), WrapFault>
        ensures added { OnOk result (self.new ≡ self.old ++ wrap ∷ []) }
        ensures kept { OnErr result (self.new ≡ self.old) }
        ensures refused { IfSome (adding_fault wrap.protector self.old) (λ fault. result ≡ Err fault) }
        ensures accepted { IfNone (adding_fault wrap.protector self.old)
            (IsOkUnless result WrapFault.NoMemory) }
    {
        if let Some(fault) = self.adding_fault(&wrap.protector) {
            return Err(fault);
        }
        self.wraps.push(wrap)?;
        Ok(())
    }

    /// Returns why no wrap for the protector of this label can be added: `Listed` if it has one already,
    /// otherwise `Full` if there are `MAX_WRAPS` wraps, and otherwise `None`.
    pub fn adding_fault(&self, label: &Label) -> Option<WrapFault>
        ensures { result ≡ adding_fault label.now self.now }
    {
        if is_listed(&self.wraps, label) {
            return Some(WrapFault::Listed);
        }
        if self.wraps.len() >= MAX_WRAPS {
            return Some(WrapFault::Full);
        }
        None
    }

    /// Removes the wrap for the protector of this label. Returns `NotListed` if there is no such wrap,
    /// and otherwise `LastOne` if there is no other wrap. Allocates nothing. After an error the wraps are
    /// unchanged.
    pub fn remove(&mut self, label: &Label) -> Result<(), WrapFault>
        ensures removed { OnOk result (self.new ≡ wraps_without label.now self.old) }
        ensures kept { OnErr result (self.new ≡ self.old) }
        ensures refused { IfSome (dropping_fault label.now self.old) (λ fault. result ≡ Err fault) }
        ensures accepted { IfNone (dropping_fault label.now self.old) (IsOk result) }
    {
        if !is_listed(&self.wraps, label) {
            return Err(WrapFault::NotListed);
        }
        if self.wraps.len() == 1 {
            return Err(WrapFault::LastOne);
        }
        remove_from(&mut self.wraps, label);
        Ok(())
    }
}

// Whether the wrap is for the protector of this label.
fn is_for(label: &Label, wrap: &Wrap) -> bool
    ensures { result ≡ is_for label.now wrap.now }
{
    wrap.protector.bytes() == label.bytes()
}

fn is_listed(wraps: &[Wrap], label: &Label) -> bool
    ensures { result ≡ is_listed label.now wraps.now }
{
    wraps.iter().any(|wrap| is_for(label, wrap))
}

fn wrap_for<'a>(wraps: &'a [Wrap], label: &Label) -> Option<&'a Wrap>
    ensures { option_copied result ≡ wrap_for label.now wraps.now }
{
    wraps.iter().find(|wrap| is_for(label, wrap))
}

fn remove_from(wraps: &mut Vec<Wrap>, label: &Label)
    ensures { wraps.new.items ≡ wraps_without label.now wraps.old.items }
{
    wraps.retain(|wrap| !is_for(label, wrap));
}
