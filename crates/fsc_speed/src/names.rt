//! The kernels of keys and names. Each run works on the result of the run before.
ghost use Rattle.std.specs.Prelude.{◌≡◌, ◌<◌, replicate};
ghost use Rattle.std.specs.Fn.{iterate};
ghost use Rattle.sha2.specs.Sha256.{sha256};
ghost use Rattle.fsc_speed.specs.Runs.{next_iv, next_nonce, next_raw, next_stored_name};

use fsc_keys::{FileKey, KeyKind, PreparedKey, RawKey, mode_key};
use name_crypt::{Aes256, Plain, Steps, StoredName, encrypt_name_with, nokey_text};
use policy_ctx::Pad;
use sha2::{Digest, Sha256};
use std::sync::ledger::{Blank, Ledger};

const RAW: [u8; 64] = [0x5a; 64];

const KEY: [u8; 32] = [0x5a; 32];

const NAME: [u8; 32] = [0x61; 32];

/// Derives the names key of a nonce repeatedly, from a key that is prepared once.
#[tactic(auto, using(crate::proofs::Repeating::iterate_more))]
pub(crate) fn derive_file_keys(count: u32) -> [u8; 32]
    ensures { result ≡ sha256 (iterate (next_nonce RAW) count (replicate 16 0)) }
{
    let Ok(raw) = RawKey::read(&RAW) else {
        unreachable!();
    };
    let key = PreparedKey::new(raw);
    let mut nonce = [0; 16];
    for _ in 0..count {
        nonce = nonce_after(&key, &nonce);
    }
    Sha256::digest(&nonce)
}

fn nonce_after(key: &PreparedKey, nonce: &[u8; 16]) -> [u8; 16]
    ensures { result ≡ next_nonce key.now nonce.now }
{
    let FileKey::Names(key) = key.file_key(KeyKind::Names, nonce) else {
        unreachable!();
    };
    let mut next = [0; 16];
    next.copy_from_slice(&key[..16]);
    next
}

/// Derives the mode key for contents of a raw key, repeatedly: each result is the next raw key.
#[tactic(auto, using(crate::proofs::Repeating::iterate_more))]
pub(crate) fn derive_mode_keys(count: u32) -> [u8; 32]
    ensures { result ≡ sha256 (iterate next_raw count (replicate 64 90)) }
{
    let mut raw = RAW;
    for _ in 0..count {
        raw = raw_after(&raw);
    }
    Sha256::digest(&raw)
}

fn raw_after(bytes: &[u8; 64]) -> [u8; 64]
    ensures { result ≡ next_raw bytes.now }
{
    let Ok(raw) = RawKey::read(bytes) else {
        unreachable!();
    };
    let FileKey::Contents(key) = mode_key(&raw, KeyKind::Contents) else {
        unreachable!();
    };
    key
}

/// Encrypts a name of 32 bytes at padding 32 repeatedly, with the round keys made once.
#[tactic(auto, using(crate::proofs::Repeating::iterate_more))]
pub(crate) fn encrypt_names<L: Ledger>(blank: Blank, count: u32) -> [u8; 32]
    requires name { blank.name ≡ L.name }
    requires parts { blank.parts ≡ L.parts }
    requires some { 0 < L.parts }
    ensures { result ≡ sha256 (iterate (next_iv KEY NAME) count (replicate 16 0)) }
{
    let mut steps = Steps::<L>::new(blank);
    let key = Aes256::new(&KEY);
    let Ok(name) = Plain::read(&NAME) else {
        unreachable!();
    };
    let mut iv = [0; 16];
    for _ in 0..count {
        iv = iv_after(&key, iv, &name, &mut steps);
    }
    Sha256::digest(&iv)
}

fn iv_after<L: Ledger>(key: &Aes256, iv: [u8; 16], name: &Plain, steps: &mut Steps<L>) -> [u8; 16]
    ensures { result ≡ next_iv key.now name.now iv }
{
    let stored = encrypt_name_with(key, iv, Pad::P32, name, steps);
    let mut next = [0; 16];
    next.copy_from_slice(&stored.bytes()[..16]);
    next
}

/// Makes the no-key text of a stored name of 255 bytes repeatedly.
#[tactic(auto, using(crate::proofs::Repeating::iterate_more))]
pub(crate) fn show_names(count: u32) -> [u8; 32]
    ensures { result ≡ sha256 (iterate next_stored_name count (replicate 255 165)) }
{
    let mut bytes = [0xa5; 255];
    for _ in 0..count {
        show_once(&mut bytes);
    }
    Sha256::digest(&bytes)
}

fn show_once(bytes: &mut [u8; 255])
    ensures { bytes.new ≡ next_stored_name bytes.old }
{
    let Ok(stored) = StoredName::read(&bytes[..]) else {
        unreachable!();
    };
    let text = nokey_text(&stored);
    bytes[..text.bytes().len()].copy_from_slice(text.bytes());
}
