//! The kernels whose names contain no length.
use crate::stretching::{self, ONE_PASS, THREE_PASSES};
use crate::{ciphers, hashes, names, sealing};
use argon_kdf::{LaneStretch, PlainStretch};
use policy_ctx::Unit;
use std::alloc::{AllocError, Global};
use std::marker::Brand;
use std::sync::Wait;
use std::sync::ledger::Blank;
use std::thread::Threads;

/// A kernel that is given by its name alone.
#[derive(Clone, Copy)]
pub(crate) enum Fixed {
    Plain(Plain),
    Stretch(Stretching),
    ReadScript,
    EntryLine,
}

/// Kernels that take no memory.
#[derive(Clone, Copy)]
pub(crate) enum Plain {
    AesBlock,
    AesBlockBack,
    Hkdf64,
    Sha512Of192,
    FileKey,
    ModeKey,
    EncryptName,
    NoKeyText,
    Seal(Unit),
}

/// How passwords are stretched.
#[derive(Clone, Copy)]
pub(crate) enum Stretching {
    Blake2b,
    Argon2idOnePass,
    Argon2idThreePasses,
    Argon2idLanes,
}

/// The kernels with their names.
pub(crate) static FIXED: [(&str, Fixed); 16] = [
    ("aes-block", Fixed::Plain(Plain::AesBlock)),
    ("aes-block-back", Fixed::Plain(Plain::AesBlockBack)),
    ("hkdf-64", Fixed::Plain(Plain::Hkdf64)),
    ("sha512-192", Fixed::Plain(Plain::Sha512Of192)),
    ("file-key", Fixed::Plain(Plain::FileKey)),
    ("mode-key", Fixed::Plain(Plain::ModeKey)),
    ("encrypt-name-32", Fixed::Plain(Plain::EncryptName)),
    ("nokey-255", Fixed::Plain(Plain::NoKeyText)),
    ("blake2b-64m", Fixed::Stretch(Stretching::Blake2b)),
    (
        "argon2id-1-65536-1",
        Fixed::Stretch(Stretching::Argon2idOnePass),
    ),
    (
        "argon2id-3-65536-4",
        Fixed::Stretch(Stretching::Argon2idThreePasses),
    ),
    (
        "argon2id-lanes-3-65536-4",
        Fixed::Stretch(Stretching::Argon2idLanes),
    ),
    ("seal-512", Fixed::Plain(Plain::Seal(Unit::U512))),
    ("seal-4096", Fixed::Plain(Plain::Seal(Unit::U4096))),
    ("read-script", Fixed::ReadScript),
    ("entry-line", Fixed::EntryLine),
];

impl Plain {
    /// Runs the kernel `count` times, and returns a hash of the result.
    pub(crate) fn run(self, count: u32) -> [u8; 32] {
        match self {
            Plain::AesBlock => ciphers::aes_block(count),
            Plain::AesBlockBack => ciphers::aes_block_back(count),
            Plain::Hkdf64 => hashes::hkdf_64(count),
            Plain::Sha512Of192 => hashes::sha512_192(count),
            Plain::FileKey => names::derive_file_keys(count),
            Plain::ModeKey => names::derive_mode_keys(count),
            Plain::EncryptName => names::encrypt_names::<Brand>(Blank::new(1), count),
            Plain::NoKeyText => names::show_names(count),
            Plain::Seal(unit) => sealing::seal_blocks(unit, count),
        }
    }
}

impl Stretching {
    /// Runs the kernel `count` times, and returns a hash of the result.
    pub(crate) fn run<R: Threads + Wait + Sync>(
        self,
        rt: &R,
        alloc: Global,
        count: u32,
    ) -> Result<[u8; 32], AllocError> {
        let (plain, lanes) = (PlainStretch, LaneStretch { threads: rt });
        match self {
            Stretching::Blake2b => stretching::blake2b(alloc, stretching::message_len(), count),
            Stretching::Argon2idOnePass => stretching::argon2id_tags(
                &plain, alloc, &ONE_PASS, count,
            ),
            Stretching::Argon2idThreePasses => {
                stretching::argon2id_tags(&plain, alloc, &THREE_PASSES, count)
            }
            Stretching::Argon2idLanes => {
                stretching::argon2id_tags(&lanes, alloc, &THREE_PASSES, count)
            }
        }
    }
}
