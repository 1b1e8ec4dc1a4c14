//! What may cross threads: each of the crate's types, if the machine may.

use crate::machine::{At, Machine, PassExhausted};
use crate::pass::Pass;
use crate::shared::Shared;

fn may_be_sent<T: Send>(_: &T) {}

fn may_be_shared<T: Sync>(_: &T) {}

// A shared machine may be used by many threads and a pass may be sent to one, if the machine may be sent.
// Nothing is required of its calls, of its pending results and of its replies.
fn machines_cross<M: Machine + Send>(shared: &Shared<M>, pass: &Pass<M>) {
    may_be_shared(shared);
    may_be_sent(shared);
    may_be_sent(pass);
}

fn answers_cross<R: Send>(answer: &Result<At<R>, PassExhausted>) {
    may_be_sent(answer);
}
