//! HMAC under way: a hasher that has taken the inner pad, and one that has taken the outer pad.

ghost use Rattle.std.specs.Prelude.{◌≡◌, ℕ, List, ◌++◌, length, ◌≤◌, ◌<◌, ◌^◌};
ghost use Rattle.hmac_kdf.specs.Hmac.{hash_of, hmac_with, xor_each, block_key};
ghost use Rattle.byte_words.specs.Xor.{zero_filled};

use crate::hash::BlockHash;
use byte_words::wipe;
use sha2::Digest;

const INNER_PAD: u8 = 0x36;

const OUTER_PAD: u8 = 0x5c;

// Returns the HMAC of the message `first ++ second`.
#[tactic(auto, unfolding(crate::specs::Hmac::hmac_with))]
pub(crate) fn mac<H, const B: usize, const N: usize>(
    key: &[u8],
    first: &[u8],
    second: &[u8],
) -> [u8; N]
where
    H: BlockHash<B, N>,
    requires digest_in_block { N ≤ B }
    requires small { B < 2 ^ 63 }
    ensures { result ≡ hmac_with (hash_of H.digest_bytes B N) key.now (first.now ++ second.now) }
{
    let mut keyed: Keyed<H> = Keyed::new::<B, N>(key);
    keyed.update::<B, N>(first);
    keyed.update::<B, N>(second);
    keyed.finish::<B, N>()
}

// Returns a key's block, each byte xored with one byte of padding. The key has at most `B` bytes.
fn padded_key<const B: usize>(key: &[u8], byte: u8) -> [u8; B]
    requires { length key.now ≤ B }
    ensures { result ≡ xor_each byte (zero_filled B key.now) }
{
    let mut pad = [byte; B];
    'bytes: for i in 0..key.len() {
        pad[i] = key[i] ^ byte;
    }
    pad
}

// Returns a hasher that has taken the key's block under this padding. Wipes the padded block. The key has
// at most `B` bytes.
fn padded_hasher<H, const B: usize, const N: usize>(key: &[u8], byte: u8) -> H
where
    H: BlockHash<B, N>,
    requires fits { length key.now ≤ B }
    requires small { B < 2 ^ 63 }
    ensures { H.holds result (xor_each byte (zero_filled B key.now)) }
{
    let mut pad: [u8; B] = padded_key::<B>(key, byte);
    let hasher = H::new_with_prefix(&pad[..]);
    wipe(&mut pad);
    hasher
}

/// The two hashers of an HMAC.
#[derive(Drop)]
pub(crate) struct Keyed<H> {
    inner: H,
    outer: H,
}

impl<H> Keyed<H> {
    // Returns an HMAC that has taken its key, and nothing of a message.
    pub(crate) fn new<const B: usize, const N: usize>(key: &[u8]) -> Keyed<H>
    where
        H: BlockHash<B, N>,
        requires digest_in_block { N ≤ B }
        requires small { B < 2 ^ 63 }
        ensures inner { H.holds result.inner
            (xor_each 0x36 (block_key (hash_of H.digest_bytes B N) key.now)) }
        ensures outer { H.holds result.outer
            (xor_each 0x5c (block_key (hash_of H.digest_bytes B N) key.now)) }
    {
        if key.len() > B {
            let mut digest: [u8; N] = H::digest(key);
            let keyed = Keyed::with_block_key::<B, N>(&digest);
            wipe(&mut digest);
            keyed
        } else {
            Keyed::with_block_key::<B, N>(key)
        }
    }

    // The same for a key of at most `B` bytes.
    fn with_block_key<const B: usize, const N: usize>(key: &[u8]) -> Keyed<H>
    where
        H: BlockHash<B, N>,
        requires fits { length key.now ≤ B }
        requires small { B < 2 ^ 63 }
        ensures inner { H.holds result.inner (xor_each 0x36 (zero_filled B key.now)) }
        ensures outer { H.holds result.outer (xor_each 0x5c (zero_filled B key.now)) }
    {
        Keyed {
            inner: padded_hasher::<H, B, N>(key, INNER_PAD),
            outer: padded_hasher::<H, B, N>(key, OUTER_PAD),
        }
    }

    // Takes the next piece of the message.
    pub(crate) fn update<const B: usize, const N: usize>(&mut self, piece: &[u8])
    where
        H: BlockHash<B, N>,
        ensures inner { (m : List ℕ) → H.holds self.old.inner m → H.holds self.new.inner (m ++ piece.now) }
        ensures outer { self.new.outer ≡ self.old.outer }
    {
        self.inner.update(piece);
    }

    // Returns the HMAC of the message.
    pub(crate) fn finish<const B: usize, const N: usize>(self) -> [u8; N]
    where
        H: BlockHash<B, N>,
        ensures { (m o : List ℕ) → H.holds self.inner m → H.holds self.outer o
            → result ≡ H.digest_bytes (o ++ H.digest_bytes m) }
    {
        let mut outer = self.outer;
        outer.update(self.inner.finalize());
        outer.finalize()
    }

    // Returns a second HMAC with the same key and message so far.
    pub(crate) fn copy<const B: usize, const N: usize>(&self) -> Keyed<H>
    where
        H: BlockHash<B, N>,
        ensures { result ≡ self.now }
    {
        Keyed {
            inner: copied::<H, B, N>(&self.inner),
            outer: copied::<H, B, N>(&self.outer),
        }
    }
}

// Returns a copy of a hasher. The copy is in the value, so memory can't run out.
fn copied<H, const B: usize, const N: usize>(hasher: &H) -> H
where
    H: BlockHash<B, N>,
    ensures { result ≡ hasher.now }
{
    match hasher.clone() {
        Ok(copy) => copy,
        Err(_) => unreachable!(),
    }
}
