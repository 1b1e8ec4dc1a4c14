//! The bytes that a command derives for the records that it makes: each length and purpose is given once.

ghost use Rattle.std.specs.Prelude.{◌≡◌, ◌≤◌, length};
ghost use Rattle.session_records.specs.Derivations.{first_drawn};

use crate::derivations::{Purpose, caller_byte, draw};
use crate::turn::Turn;

// The key of a protector that the command makes.
pub(crate) fn derived_key(seed: &[u8; 32], turn: Turn) -> [u8; 32]
    ensures { result ≡ first_drawn 32 seed.now turn.caller turn.number Purpose.NonceOrKey }
{
    let mut key = [0; 32];
    fill_drawn(seed, turn, Purpose::NonceOrKey, &mut key);
    key
}

// The key of a policy that the command makes.
pub(crate) fn derived_policy_key(seed: &[u8; 32], turn: Turn) -> [u8; 64]
    ensures { result ≡ first_drawn 64 seed.now turn.caller turn.number Purpose.NonceOrKey }
{
    let mut policy_key = [0; 64];
    fill_drawn(seed, turn, Purpose::NonceOrKey, &mut policy_key);
    policy_key
}

// The iv under which the command wraps a key.
pub(crate) fn derived_iv(seed: &[u8; 32], turn: Turn) -> [u8; 16]
    ensures { result ≡ first_drawn 16 seed.now turn.caller turn.number Purpose.Iv }
{
    let mut iv = [0; 16];
    fill_drawn(seed, turn, Purpose::Iv, &mut iv);
    iv
}

// The salt with which the command has a passphrase stretched.
pub(crate) fn derived_salt(seed: &[u8; 32], turn: Turn) -> [u8; 16]
    ensures { result ≡ first_drawn 16 seed.now turn.caller turn.number Purpose.Salt }
{
    let mut salt = [0; 16];
    fill_drawn(seed, turn, Purpose::Salt, &mut salt);
    salt
}

// Fills `out` with the first of the bytes that the command derives for this purpose.
#[tactic(auto, unfolding(crate::specs::Derivations::first_drawn))]
fn fill_drawn(seed: &[u8; 32], turn: Turn, purpose: Purpose, out: &mut [u8])
    requires { length out.old ≤ 64 }
    ensures { out.new ≡ first_drawn (length out.old) seed.now turn.caller turn.number purpose }
{
    draw(
        seed,
        caller_byte(turn.caller),
        turn.number as u64,
        purpose,
        out,
    );
}
