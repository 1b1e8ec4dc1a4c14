//! Ways to stretch a password, as values: on one thread, or by lanes at the same time.

ghost use Rattle.std.specs.Prelude.{◌≡◌, ◌≤◌, [], length, OnOk, OnErr, Ok};
ghost use Rattle.argon_kdf.specs.CostLimits.{checked_costs};
ghost use Rattle.argon_kdf.specs.Argon2id.{argon2id_tag};

use crate::limits::{MAX_TEXT_BYTES, MIN_SALT_BYTES};
use crate::{Costs, Texts, argon2id, argon2id_lanes};
use std::alloc::{AllocError, Global};
use std::thread::Threads;

/// A way to stretch a password, with the threads that it uses, if any.
pub trait Stretch {
    // Whether it may be called.
    ghost ready: { Self → Type 0 };

    /// Writes the 32-byte tag that Argon2id makes of a password and a salt (RFC 9106, section 3.2), with no
    /// secret and no further bytes.
    ///
    /// The salt has 8 to 1,024 bytes, the password at most 1,024. The only error is out of memory; the tag
    /// is unchanged then.
    fn stretch(
        &self,
        alloc: Global,
        costs: &Costs,
        password: &[u8],
        salt: &[u8],
        tag: &mut [u8; 32],
    ) -> Result<(), AllocError>
        requires ready { ready self.now }
        requires costs { checked_costs costs.now ≡ Ok tt }
        requires password { length password.now ≤ MAX_TEXT_BYTES }
        requires salt_least { MIN_SALT_BYTES ≤ length salt.now }
        requires salt { length salt.now ≤ MAX_TEXT_BYTES }
        ensures tag { OnOk result (tag.new ≡ argon2id_tag costs.now password.now salt.now [] []) }
        ensures kept { OnErr result (tag.new ≡ tag.old) };
}

/// Stretches on the caller's thread, as [`argon2id`] does.
#[derive(Clone, Copy)]
pub struct PlainStretch;

impl Stretch for PlainStretch {
    ghost use Rattle.std.specs.Prelude.{⊤};

    ghost ready = { λ _. ⊤ };

    fn stretch(
        &self,
        alloc: Global,
        costs: &Costs,
        password: &[u8],
        salt: &[u8],
        tag: &mut [u8; 32],
    ) -> Result<(), AllocError> {
        argon2id(alloc, costs, Texts::without_secret(password, salt), tag)
    }
}

/// Stretches in at most one of these threads a lane, as [`argon2id_lanes`] does.
#[derive(Drop)]
pub struct LaneStretch<'a, R> {
    pub threads: &'a R,
}

impl<'a, R: Threads + Sync> Stretch for LaneStretch<'a, R> {
    ghost use Rattle.std.specs.Thread.{IsSync};

    ghost ready = { λ _. IsSync R.row };

    fn stretch(
        &self,
        alloc: Global,
        costs: &Costs,
        password: &[u8],
        salt: &[u8],
        tag: &mut [u8; 32],
    ) -> Result<(), AllocError> {
        let texts = Texts::without_secret(password, salt);
        argon2id_lanes(self.threads, alloc, costs, texts, tag)
    }
}
