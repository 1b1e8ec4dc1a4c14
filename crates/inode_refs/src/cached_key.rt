//! A key as it is cached, with the round keys of one of names.

ghost use Rattle.std.specs.Prelude.{◌≡◌, option_copied, IfSome};
ghost use Rattle.byte_words.specs.Bytes.{AreBytes};
ghost use Rattle.fsc_keys.specs.Keys.{zeros_for};
ghost use Rattle.inode_refs.specs.Ciphers.{names_in};
ghost use Rattle.inode_refs.specs.CacheRules.{IsCipherIn};

use crate::node_key::NodeKey;
use aes_core::Aes256;
use byte_words::slice_is_bytes;
use fsc_keys::{FileKey, KeyId};
use std::marker::Model;

/// A node's key, with its round keys if it is one of names. In contracts it is the key.
#[derive(Drop)]
pub(crate) struct CachedKey {
    key: NodeKey,
    // That of the key's bytes. There is none for a key of contents.
    cipher: Option<Aes256>,
}

impl Model for CachedKey {
    ghost use Rattle.inode_refs.specs.declared.node_key.NodeKey.{NodeKey};
    ghost use Rattle.inode_refs.specs.CacheRules.{IsCipherIn};

    ghost Value = { NodeKey };

    ghost view = { λ c. c.key };

    ghost invariant = { λ c. IsCipherIn c.cipher c.key.key };
}

impl CachedKey {
    // Makes the round keys if the key is one of names.
    pub(crate) fn of(key: NodeKey) -> CachedKey
        ensures { result ≡ key }
    {
        let cipher = cipher_for(&key.key);
        CachedKey { key, cipher }
    }

    // The identifier of the master key that the key was derived from.
    pub(crate) fn id(&self) -> KeyId
        ensures { result ≡ self.now.id }
    {
        self.key.id
    }

    pub(crate) fn key(&self) -> &FileKey
        ensures { result.now ≡ self.now.key }
    {
        &self.key.key
    }

    // The cipher of a key of names.
    pub(crate) fn cipher(&self) -> Option<&Aes256>
        ensures value { option_copied result ≡ names_in self.now.key }
        ensures ranged { IfSome result (λ cipher. AreBytes cipher.now) }
    {
        match &self.cipher {
            Some(cipher) => Some(cipher),
            None => None,
        }
    }

    // Wipes the key and its round keys in place: they are then those of zeros.
    pub(crate) fn wipe(&mut self)
        ensures { self.new ≡ record self.old { key = zeros_for self.old.key } }
    {
        self.key.key.wipe();
        self.cipher = cipher_for(&self.key.key);
    }
}

// The cipher of a key of names.
fn cipher_for(key: &FileKey) -> Option<Aes256>
    ensures { IsCipherIn result key.now }
{
    match key {
        FileKey::Contents(_) => None,
        FileKey::Names(bytes) => {
            slice_is_bytes(bytes);
            Some(Aes256::new(bytes))
        }
    }
}
