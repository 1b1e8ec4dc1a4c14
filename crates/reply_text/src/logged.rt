//! The part of a call that is retained for its line in the log.

ghost use Rattle.std.specs.Prelude.{◌≡◌, IfOk};
ghost use Rattle.reply_text.specs.Logged.{logged_call};

use crate::calls::put_call;
use item_list::Bytes;
use mount_model::Call;
use std::alloc::{AllocError, Global};

/// The form of a call in a log: its user and its text. The text has only the length of a raw key and the
/// number of written bytes, and no nonce.
pub struct LoggedCall {
    pub uid: u32,
    pub words: Bytes,
}

// Written, not derived, so that a crate that drops one needn't prove how that is done.
impl Drop for LoggedCall {
    fn drop(self) {
        let LoggedCall { uid: _, words: _ } = self;
    }
}

/// Returns the form of the call in a log.
pub fn to_logged(alloc: Global, call: &Call) -> Result<LoggedCall, AllocError>
    ensures { IfOk result (λ shown. shown ≡ logged_call call.now) }
{
    let mut words = Vec::new(alloc);
    put_call(&mut words, &call.op)?;
    Ok(LoggedCall {
        uid: call.uid,
        words: Bytes::from_vec(words),
    })
}
