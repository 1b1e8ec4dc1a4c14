//! What commands are run with; the methods are in the modules of their work.

use crate::EntryList;
use script_lang::Secret;
use session_records::Turn;
use short_bytes::Label;
use std::alloc::Global;

// What a command is run with: the seed of what it derives, how it stretches passphrases, and whose turn it
// is.
#[derive(Drop)]
pub(crate) struct Work<'a, S> {
    pub(crate) alloc: Global,
    pub(crate) stretches: &'a S,
    pub(crate) seed: &'a [u8; 32],
    pub(crate) turn: Turn,
}

// The caller of a command: its port, and the list of what a log shows of its calls, to which each new one
// is added.
#[derive(Drop)]
pub(crate) struct Caller<'a, P> {
    pub(crate) port: &'a mut P,
    pub(crate) entries: &'a mut EntryList,
}

// A protector, and the secret that opens it.
#[derive(Clone, Copy)]
pub(crate) struct Opener<'a> {
    pub(crate) protector: &'a Label,
    pub(crate) secret: &'a Secret,
}
