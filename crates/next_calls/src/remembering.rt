//! A way to stretch passphrases that caches the last tags.

ghost use Rattle.std.specs.Prelude.{◌≡◌, [], length, IsTrue, IsFalse};
ghost use Rattle.argon_kdf.specs.Argon2id.{argon2id_tag};

use argon_kdf::{Costs, Stretch};
use byte_words::{is_same, wipe};
use std::alloc::{AllocError, Global};
use std::cell::RefCell;
use std::marker::Model;

// A password and a salt with the tag that Argon2id makes of them.
#[derive(Drop)]
struct Stretched {
    costs: Costs,
    password: Vec<u8>,
    salt: Vec<u8>,
    tag: Vec<u8>,
    ghost right: { tag.items ≡ argon2id_tag costs password.items salt.items [] [] },
    ghost sized: { length tag.items ≡ 32 },
}

/// A way to stretch passphrases that caches the last two tags that it made, with their inputs. Inputs
/// whose tag is cached are not stretched again. Two are enough for a command that is run again and again,
/// since none opens more than two protectors.
#[derive(Drop)]
pub struct Remembering<'a, S: Stretch> {
    way: &'a S,
    last: RefCell<Option<Stretched>>,
    before: RefCell<Option<Stretched>>,
}

impl<'a, S: Stretch> Model for Remembering<'a, S> {
    ghost Value = { S };

    ghost view = { λ r. r.way.now };
}

impl<'a, S: Stretch> Remembering<'a, S> {
    /// Returns a cache without tags, which stretches in this way.
    pub fn new(way: &'a S) -> Remembering<'a, S>
        ensures { result ≡ way.now }
    {
        Remembering {
            way,
            last: RefCell::new(None),
            before: RefCell::new(None),
        }
    }

    /// Wipes the cached passwords and tags, and drops them.
    pub fn forget(self) {
        replace_kept(&self.last, None);
        replace_kept(&self.before, None);
    }

    // Caches a tag in place of the one before the last, if there is memory for its inputs.
    fn keep(&self, alloc: Global, costs: &Costs, password: &[u8], salt: &[u8], tag: &[u8; 32])
        requires { tag.now ≡ argon2id_tag costs.now password.now salt.now [] [] }
    {
        if let Ok(stretched) = stretched_of(alloc, costs, password, salt, tag) {
            if let Ok(former) = self.last.try_replace(Some(stretched)) {
                replace_kept(&self.before, former);
            }
        }
    }
}

impl<'a, S: Stretch> Stretch for Remembering<'a, S> {
    ghost ready = { λ way. S.ready way };

    fn stretch(
        &self,
        alloc: Global,
        costs: &Costs,
        password: &[u8],
        salt: &[u8],
        tag: &mut [u8; 32],
    ) -> Result<(), AllocError> {
        if recalls(&self.last, costs, password, salt, tag) {
            return Ok(());
        }
        if recalls(&self.before, costs, password, salt, tag) {
            return Ok(());
        }
        self.way.stretch(alloc, costs, password, salt, tag)?;
        self.keep(alloc, costs, password, salt, tag);
        Ok(())
    }
}

// Writes the cached tag and returns true, if one is cached for this password and salt at these costs.
fn recalls(
    kept: &RefCell<Option<Stretched>>,
    costs: &Costs,
    password: &[u8],
    salt: &[u8],
    tag: &mut [u8; 32],
) -> bool
    ensures recalled { IsTrue result → tag.new ≡ argon2id_tag costs.now password.now salt.now [] [] }
    ensures kept { IsFalse result → tag.new ≡ tag.old }
{
    let Ok(kept) = kept.try_borrow() else {
        return false;
    };
    let Some(stretched) = &*kept else {
        return false;
    };
    // Passwords are compared last, and whole if they have the same length: no exit depends on their bytes.
    if stretched.costs == *costs
        && stretched.salt.as_slice() == salt
        && stretched.password.len() == password.len()
        && is_same(stretched.password.as_slice(), password)
    {
        tag.copy_from_slice(stretched.tag.as_slice());
        return true;
    }
    false
}

// The cache's entry for a stretch. If there is no memory for all of it, the tag is wiped if it was copied
// by then.
fn stretched_of(
    alloc: Global,
    costs: &Costs,
    password: &[u8],
    salt: &[u8],
    tag: &[u8; 32],
) -> Result<Stretched, AllocError>
    requires { tag.now ≡ argon2id_tag costs.now password.now salt.now [] [] }
{
    let salt = Vec::from_slice(alloc, salt)?;
    let mut tag = Vec::from_slice(alloc, tag)?;
    match Vec::from_slice(alloc, password) {
        Ok(password) => Ok(Stretched {
            costs: *costs,
            password,
            salt,
            tag,
        }),
        Err(_) => {
            wipe(tag.as_mut_slice());
            Err(AllocError)
        }
    }
}

// Stores this, and wipes what was stored before.
fn replace_kept(kept: &RefCell<Option<Stretched>>, next: Option<Stretched>) {
    match kept.try_replace(next) {
        Ok(former) => wipe_stretched(former),
        Err(next) => wipe_stretched(next),
    }
}

// Wipes the password and its tag.
fn wipe_stretched(stretched: Option<Stretched>) {
    if let Some(
        Stretched {
            mut password,
            mut tag,
            ..
        },
    ) = stretched
    {
        wipe(password.as_mut_slice());
        wipe(tag.as_mut_slice());
    }
}
