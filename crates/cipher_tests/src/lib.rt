//! Ciphers, hashes and key derivation, against their standards and other implementations. This crate has
//! only tests.
#![tactic(auto)]

#[cfg(test)]
mod aes;
#[cfg(test)]
mod argon2;
#[cfg(test)]
mod blake2;
#[cfg(test)]
mod block_vectors;
#[cfg(test)]
mod blocks;
#[cfg(test)]
mod compared;
#[cfg(test)]
mod counted;
#[cfg(test)]
mod cts;
#[cfg(test)]
mod hmac;
#[cfg(test)]
mod wraps;
#[cfg(test)]
mod xts;
