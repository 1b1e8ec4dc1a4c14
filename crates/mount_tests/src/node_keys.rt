//! Keys that are cached with nodes.

use inode_refs::{FileKey, InodeCache, KeyId, NodeKey};
use std::alloc::Global;
use std::process::Abort;

fn names_key(number: u8) -> FileKey {
    FileKey::Names([number; 32])
}

fn has_key(cache: &InodeCache, node: u32, number: u8) -> bool {
    matches!(cache.key_of(node), Some(FileKey::Names(bytes)) if *bytes == [number; 32])
}

const FIRST: KeyId = KeyId([1; 16]);

const SECOND: KeyId = KeyId([2; 16]);

/// A step of a test: a change or a query of a cache.
#[derive(Clone, Copy)]
enum Step {
    /// The names key of this number is cached for the node, under the identifier.
    Keep(u32, KeyId, u8),
    /// The node's only pin is removed.
    Unpin(u32),
    /// The node's key is dropped.
    Drop(u32),
    /// Nodes without pins lose their keys under the identifier.
    Evict(KeyId),
    /// Nodes without pins lose their keys.
    EvictAll,
    /// The node has the names key of this number.
    Keyed(u32, u8),
    /// The node has no key.
    Bare(u32),
}

fn goes_so(cache: &mut InodeCache, alloc: Global, step: Step) -> bool {
    match step {
        Step::Keep(node, id, number) => { cache.keep(alloc, node, id, names_key(number)) == Ok(()) }
        Step::Unpin(node) => unpinned(cache, node),
        Step::Drop(node) => {
            cache.drop_key(node);
            true
        }
        Step::Evict(id) => {
            cache.evict_unpinned(&id);
            true
        }
        Step::EvictAll => {
            cache.evict_all_unpinned();
            true
        }
        Step::Keyed(node, number) => has_key(cache, node, number),
        Step::Bare(node) => cache.key_of(node).is_none(),
    }
}

// Whether the node had one pin, and has none after it was removed.
fn unpinned(cache: &mut InodeCache, node: u32) -> bool {
    if cache.pins(node) != 1 {
        return false;
    }
    cache.unpin(node);
    cache.pins(node) == 0
}

// Node 7 has a key and a pin, and the other nodes have none yet.
static KEEP_EVICT_AND_DROP: [Step; 14] = [
    Step::Keep(8, FIRST, 8),
    Step::Keep(9, SECOND, 9),
    Step::Evict(FIRST),
    Step::Keyed(7, 7),
    Step::Keyed(9, 9),
    Step::Bare(8),
    Step::Keep(9, SECOND, 10),
    Step::Keyed(9, 10),
    Step::Unpin(7),
    Step::Keyed(7, 7),
    Step::Drop(7),
    Step::Bare(7),
    Step::EvictAll,
    Step::Bare(9),
];

#[test]
fn a_key_stays_until_it_is_evicted_without_pins(rt: HostRuntime) {
    let mut cache = InodeCache::new(rt.alloc());
    pin_one(&rt, rt.alloc(), &mut cache);
    for (place, step) in KEEP_EVICT_AND_DROP.iter().enumerate() {
        assert!(rt; goes_so(&mut cache, rt.alloc(), *step), "step {place}");
    }
}

// Node 7 has a key and a pin.
fn pin_one<A: Abort>(rt: &A, alloc: Global, cache: &mut InodeCache) {
    if cache.pins(7) == 0 {
        let key = NodeKey {
            id: FIRST,
            key: names_key(7),
        };
        cache.pin(alloc, 7, Some(key)).expect(rt, "memory");
    }
}

// Whether the node's cipher encrypts a block of zeros to this block.
fn has_cipher(cache: &InodeCache, node: u32, block: u128) -> bool {
    match cache.cipher_of(node) {
        Some(cipher) => cipher.encrypt_block([0; 16]) == block.to_be_bytes(),
        None => false,
    }
}

// OpenSSL's AES-256 of a block of zeros under these keys.
#[test]
fn cipher_is_that_of_the_names_key(rt: HostRuntime) {
    let alloc = rt.alloc();
    let id = KeyId([1; 16]);
    let mut cache = InodeCache::new(alloc);
    for (number, want) in [
        (7, 0x0a4dee87e76ce0d47c6e1cdfc76d20a3_u128),
        (9, 0x3fb865a2e2740494ffff67a03e830ea3_u128),
    ] {
        assert!(rt; cache.keep(alloc, 7, id, names_key(number)) == Ok(()));
        assert!(rt; has_cipher(&cache, 7, want));
    }
    assert!(rt; cache.keep(alloc, 7, id, FileKey::Contents([7; 64])) == Ok(()));
    assert!(rt; cache.cipher_of(7).is_none() && cache.key_of(7).is_some());
}
