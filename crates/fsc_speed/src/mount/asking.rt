//! A mount that one thread calls, as caller 0.
ghost use Rattle.std.specs.Prelude.{All};
ghost use Rattle.mount_model.specs.Fits.{Fits};

use crate::directories::id_of_key;
use crate::mount::calls::{OnPath, call, status};
use crate::mount::work::{Before, Run, push_before, push_steps};
use mount_model::{Call, Op, Reply};
use mount_shared::Mount;
use std::alloc::{AllocError, Global};

/// The mount, and how many of its calls were refused.
#[derive(Drop)]
struct Asked {
    mount: Mount,
    refused: u64,
}

/// Makes the calls before, and then those of a run `count` times. Returns how many of all calls were
/// refused.
pub(crate) fn run_alone(
    alloc: Global,
    before: &Before,
    run: Run,
    count: u32,
) -> Result<u64, AllocError> {
    let mount = Mount::new(alloc)?;
    let mut asked = Asked { mount, refused: 0 };
    asked.prepare(alloc, before)?;
    asked.repeat(alloc, run, before.files, count)?;
    Ok(asked.refused)
}

/// The part of a reply that is examined.
#[derive(Clone, Copy)]
pub(crate) enum ReplyValue {
    /// A file was opened, under this handle.
    Opened(u32),
    /// Nothing was done.
    Refused,
    Other,
}

/// Returns that part of this reply.
pub(crate) fn reply_value(reply: &Reply) -> ReplyValue {
    match reply {
        Reply::Opened(handle) => ReplyValue::Opened(*handle),
        Reply::Refused(_) => ReplyValue::Refused,
        _ => ReplyValue::Other,
    }
}

impl Asked {
    fn prepare(&mut self, alloc: Global, before: &Before) -> Result<(), AllocError> {
        let mut calls = Vec::new(alloc);
        push_before(&mut calls, alloc, before)?;
        self.ask_often(calls.as_slice(), 1);
        Ok(())
    }

    // Makes the run `count` times, beside `names` names.
    fn repeat(
        &mut self,
        alloc: Global,
        run: Run,
        names: u32,
        count: u32,
    ) -> Result<(), AllocError> {
        match run {
            Run::Steps(steps, first, numbers) => {
                let mut calls = Vec::new(alloc);
                push_steps(&mut calls, alloc, steps, first, numbers, names)?;
                self.ask_often(calls.as_slice(), count);
            }
            Run::OpenClose => self.open_often(&OnPath::Open.numbered(alloc, 0)?, count),
            Run::StatusAgain => self.ask_status_again(count),
        }
        Ok(())
    }

    // Makes the calls `count` times. If one of them may not be made, none is, and all count as refused.
    fn ask_often(&mut self, calls: &[Call], count: u32) {
        if calls.iter().all(|call| call.fits()) {
            for _ in 0..count {
                self.ask_each(calls);
            }
        } else {
            let all = u64::from(count).saturating_mul(calls.len() as u64);
            self.refused = self.refused.saturating_add(all);
        }
    }

    fn ask_each(&mut self, calls: &[Call])
        requires { All Fits calls.now }
    {
        for call in calls {
            self.ask(call);
        }
    }

    // Opens `count` times, and closes what was opened.
    fn open_often(&mut self, open: &Call, count: u32) {
        if !open.fits() {
            return;
        }
        for _ in 0..count {
            if let ReplyValue::Opened(handle) = self.ask(open) {
                self.ask(&call(Op::Close { handle }));
            }
        }
    }

    // Asks for the status of the key `count` times.
    fn ask_status_again(&mut self, count: u32) {
        let id = id_of_key();
        for _ in 0..count {
            self.ask(&status(id));
        }
    }

    fn ask(&mut self, call: &Call) -> ReplyValue
        requires { Fits call.now }
    {
        let after_calls = reply_value(&self.mount.answer(0, call).finish());
        if let ReplyValue::Refused = after_calls {
            self.refused = self.refused.saturating_add(1);
        }
        after_calls
    }
}
