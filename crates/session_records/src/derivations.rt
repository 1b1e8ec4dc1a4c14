//! Bytes derived from a seed: each caller, command and purpose has its own.

ghost use Rattle.std.specs.Prelude.{◌≡◌, ◌≤◌, length, take};
ghost use Rattle.session_records.specs.Derivations.{DerivationsAreDistinct, DerivedNoncesAreBytes};
ghost use Rattle.session_records.specs.Derivations.{drawn_bytes, hkdf_info};
ghost use Rattle.session_records.specs.Derivations.{purpose_number, caller_byte, derived_nonce};

use crate::turn::Turn;
use byte_words::wipe;
use hmac_kdf::hkdf512;

/// The beginning of each derivation's info, before the caller's byte.
const DRAW_INFO: [u8; 8] = *b"fsc draw";

/// How many purposes the numbering leaves for each command.
const PURPOSES: u128 = 16;

/// The number of bytes of a nonce.
pub const NONCE_BYTES: usize = 16;

/// What derived bytes are for.
#[derive(Clone, Copy, Debug, PartialEq, Eq)]
pub enum Purpose {
    /// The nonce or the key of what the command makes.
    NonceOrKey,
    /// The iv under which a key is wrapped.
    Iv,
    /// The salt of a passphrase.
    Salt,
}

/// Fills `out`, of at most 64 bytes, with the first of the 64 bytes that HKDF-SHA512 (RFC 5869) derives
/// from the seed. Callers count from 0 in their script, commands from 0 in their section.
#[tactic(auto, unfolding(crate::specs::Derivations::drawn_bytes))]
pub fn draw(seed: &[u8; 32], caller: u8, command: u64, purpose: Purpose, out: &mut [u8])
    requires { length out.old ≤ 64 }
    ensures { out.new ≡ take (length out.old) (drawn_bytes seed.now caller command purpose) }
{
    let mut bytes = [0; 64];
    hkdf512(&[], seed, &hkdf_info(caller, command, purpose), &mut bytes);
    out.copy_from_slice(&bytes[..out.len()]);
    wipe(&mut bytes);
}

/// Returns the nonce that a caller's command derives for what it makes.
#[tactic(auto, unfolding(crate::specs::Derivations::derived_nonce))]
pub fn derived_nonce(seed: &[u8; 32], turn: Turn) -> [u8; NONCE_BYTES]
    ensures { result ≡ derived_nonce seed.now turn.caller turn.number }
{
    let mut nonce = [0; NONCE_BYTES];
    draw(
        seed,
        caller_byte(turn.caller),
        turn.number as u64,
        Purpose::NonceOrKey,
        &mut nonce,
    );
    nonce
}

/// Does nothing. Its contract is the law that a derived nonce is 16 bytes.
pub fn derived_nonces_are_bytes()
    ensures { DerivedNoncesAreBytes }
{}

// The caller's byte in a derivation's info.
pub(crate) fn caller_byte(caller: u32) -> u8
    ensures { result ≡ caller_byte caller }
{
    (caller % 256) as u8
}

/// Does nothing. Its contract is the law that derivations for other callers, commands or purposes have
/// other infos, if the commands are below 2^32.
pub fn distinct_derivations()
    ensures { DerivationsAreDistinct }
{}

// The info of a derivation: `DRAW_INFO`, the caller's byte, and the command with the purpose.
fn hkdf_info(caller: u8, command: u64, purpose: Purpose) -> [u8; 17]
    ensures { result ≡ hkdf_info caller command purpose }
{
    let number = PURPOSES * u128::from(command) + purpose_number(purpose);
    let mut info = [0; 17];
    info[..8].copy_from_slice(&DRAW_INFO);
    info[8] = caller;
    info[9..].copy_from_slice(&number.to_le_bytes()[..8]);
    info
}

fn purpose_number(purpose: Purpose) -> u128
    ensures { result ≡ purpose_number purpose }
{
    match purpose {
        Purpose::NonceOrKey => 0,
        Purpose::Iv => 1,
        Purpose::Salt => 2,
    }
}
