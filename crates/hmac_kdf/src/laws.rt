//! A law of what is derived: a function without work whose contract is the law.

ghost use Rattle.hmac_kdf.specs.DerivedBytes.{DerivesBytes};
ghost use Rattle.hmac_kdf.specs.Hmac.{hash_sha256, hash_sha512};

/// Digests, HMACs and derived keys are bytes: so each derived key is one.
pub fn derived_keys_are_bytes()
    ensures sha256 { DerivesBytes hash_sha256 }
    ensures sha512 { DerivesBytes hash_sha512 }
{}
