//! The calls of one caller of a mount, each in its turn.
ghost use Rattle.std.specs.Prelude.{◌≡◌};
ghost use Rattle.mount_model.specs.Fits.{Fits};

use crate::directories::id_of_key;
use crate::mount::asking::{ReplyValue, reply_value};
use crate::mount::calls::{OnPath, read, status};
use crate::mount::table::{ALL_OPEN, ONE_BLOCK};
use crate::mount::work::push_before;
use mount_model::{Call, KeyId};
use mount_shared::MountMachine;
use std::alloc::{AllocError, Global};
use std::sync::Wait;
use turn_lock::{Pass, Shared};

/// The object of the calls.
#[derive(Clone, Copy)]
pub(crate) enum Subject {
    /// The status of a key that 4,096 open files need.
    Status,
    /// A block of a file that the caller opened.
    Read,
}

/// The calls of each caller: `calls` on the subject.
#[derive(Clone, Copy)]
pub(crate) struct Asking {
    pub(crate) alloc: Global,
    pub(crate) subject: Subject,
    pub(crate) calls: u32,
}

impl Asking {
    /// Makes the calls that prepare the mount. Returns how many of them were refused.
    pub(crate) fn prepare<W: Wait, M: MountMachine>(
        &self,
        rt: &W,
        shared: &Shared<M>,
        pass: &mut Pass<M>,
    ) -> Result<u64, AllocError>
        requires { pass.old.table ≡ shared.now.table }
        ensures { pass.new.table ≡ pass.old.table }
    {
        let before = match self.subject {
            Subject::Status => &ALL_OPEN,
            Subject::Read => &ONE_BLOCK,
        };
        let mut calls = Vec::new(self.alloc);
        push_before(&mut calls, self.alloc, before)?;
        Ok(ask_each(rt, shared, pass, calls.as_slice()))
    }

    // A call of the caller's own. Inlined, as the bare calls are.
    #[inline(always)]
    fn call(&self, handle: u32, id: KeyId) -> Call
        ensures { Fits result }
    {
        match self.subject {
            Subject::Status => status(id),
            Subject::Read => read(handle),
        }
    }

    /// Makes the calls of one caller, which first opens the file that it reads. Returns how many were
    /// refused.
    pub(crate) fn ask_often<W: Wait, M: MountMachine>(
        &self,
        rt: &W,
        shared: &Shared<M>,
        pass: &mut Pass<M>,
    ) -> Result<u64, AllocError>
        requires { pass.old.table ≡ shared.now.table }
        ensures { (pass.new.table ≡ pass.old.table) × (pass.new.who ≡ pass.old.who)
            × (pass.new.high ≡ pass.old.high) }
    {
        let after_calls = match self.subject {
            Subject::Status => ReplyValue::Opened(0),
            Subject::Read => open_first(rt, self.alloc, shared, pass)?,
        };
        match after_calls {
            ReplyValue::Opened(handle) => Ok(self.ask_with(rt, shared, pass, handle)),
            _ => Ok(u64::from(self.calls)),
        }
    }

    // The same with the handle.
    fn ask_with<W: Wait, M: MountMachine>(
        &self,
        rt: &W,
        shared: &Shared<M>,
        pass: &mut Pass<M>,
        handle: u32,
    ) -> u64
        requires { pass.old.table ≡ shared.now.table }
        ensures { (pass.new.table ≡ pass.old.table) × (pass.new.who ≡ pass.old.who)
            × (pass.new.high ≡ pass.old.high) }
    {
        let id = id_of_key();
        let mut refused = 0u64;
        for _ in 0..self.calls {
            if let ReplyValue::Refused = ask_fitting(rt, shared, pass, &self.call(handle, id)) {
                refused = refused.saturating_add(1);
            }
        }
        refused
    }
}

// Opens the first file.
fn open_first<W: Wait, M: MountMachine>(
    rt: &W,
    alloc: Global,
    shared: &Shared<M>,
    pass: &mut Pass<M>,
) -> Result<ReplyValue, AllocError>
    requires { pass.old.table ≡ shared.now.table }
    ensures { (pass.new.table ≡ pass.old.table) × (pass.new.who ≡ pass.old.who)
        × (pass.new.high ≡ pass.old.high) }
{
    let open = OnPath::Open.numbered(alloc, 0)?;
    Ok(ask(rt, shared, pass, &open))
}

// Makes each of these calls. Returns how many of them were refused.
fn ask_each<W: Wait, M: MountMachine>(
    rt: &W,
    shared: &Shared<M>,
    pass: &mut Pass<M>,
    calls: &[Call],
) -> u64
    requires { pass.old.table ≡ shared.now.table }
    ensures { pass.new.table ≡ pass.old.table }
{
    let mut refused = 0u64;
    for call in calls {
        if let ReplyValue::Refused = ask(rt, shared, pass, call) {
            refused = refused.saturating_add(1);
        }
    }
    refused
}

// The examined part of the reply to the pass's caller. A call that may not be made counts as refused, and
// so does a call when none is left.
fn ask<W: Wait, M: MountMachine>(
    rt: &W,
    shared: &Shared<M>,
    pass: &mut Pass<M>,
    call: &Call,
) -> ReplyValue
    requires { pass.old.table ≡ shared.now.table }
    ensures { (pass.new.table ≡ pass.old.table) × (pass.new.who ≡ pass.old.who)
        × (pass.new.high ≡ pass.old.high) }
{
    if !call.fits() {
        return ReplyValue::Refused;
    }
    ask_fitting(rt, shared, pass, call)
}

// The same of a call that may be asked. Inlined, as the bare calls are, so that the turn alone is measured.
#[inline(always)]
fn ask_fitting<W: Wait, M: MountMachine>(
    rt: &W,
    shared: &Shared<M>,
    pass: &mut Pass<M>,
    call: &Call,
) -> ReplyValue
    requires belongs { pass.old.table ≡ shared.now.table }
    requires fits { Fits call.now }
    ensures { (pass.new.table ≡ pass.old.table) × (pass.new.who ≡ pass.old.who)
        × (pass.new.high ≡ pass.old.high) }
{
    match shared.call(rt, pass, call) {
        Ok(at) => reply_value(&at.reply),
        Err(_) => ReplyValue::Refused,
    }
}
