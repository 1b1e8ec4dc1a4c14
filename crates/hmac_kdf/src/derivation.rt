//! HKDF: a short key extracted from the key material, and expanded to up to 255 digests.

ghost use Rattle.std.specs.Prelude.{◌≡◌, ◌++◌, ◌*◌, ◌<◌, ◌≤◌, ◌^◌, ◌-◌, ◌∷◌, [], ℕ, List, length, min};
ghost use Rattle.hmac_kdf.specs.Hmac.{block_key, hash_of, xor_each};
ghost use Rattle.hmac_kdf.specs.Hkdf.{expanded, extracted, hkdf_with};
ghost use lib.Seq.{paste};

use crate::hash::BlockHash;
use crate::keyed::{Keyed, mac};
use byte_words::wipe;

// HKDF: extracts, then expands into the whole of `out`.
#[tactic(auto, unfolding(crate::specs::Hkdf::hkdf_with))]
pub(crate) fn derive<H, const B: usize, const N: usize>(
    salt: &[u8],
    ikm: &[u8],
    info: &[u8],
    out: &mut [u8],
)
where
    H: BlockHash<B, N>,
    requires digest { 0 < N }
    requires digest_in_block { N ≤ B }
    requires small { B < 2 ^ 63 }
    requires fits { length out.old ≤ 255 * N }
    ensures { out.new ≡ hkdf_with (hash_of H.digest_bytes B N) salt.now ikm.now info.now (length out.old) }
{
    let mut key: [u8; N] = extract::<H, B, N>(salt, ikm);
    let keyed: Keyed<H> = Keyed::new::<B, N>(&key);
    wipe(&mut key);
    expand::<H, B, N>(&keyed, info, out);
}

// HKDF-Extract. An empty salt means none.
pub(crate) fn extract<H, const B: usize, const N: usize>(salt: &[u8], ikm: &[u8]) -> [u8; N]
where
    H: BlockHash<B, N>,
    requires digest_in_block { N ≤ B }
    requires small { B < 2 ^ 63 }
    ensures { result ≡ extracted (hash_of H.digest_bytes B N) salt.now ikm.now }
{
    mac::<H, B, N>(salt, ikm, &[])
}

// HKDF-Expand under the key that the two hashers have taken: the blocks T(1), T(2) and so on, the last of
// them cut at the end of `out`.
pub(crate) fn expand<H, const B: usize, const N: usize>(
    keyed: &Keyed<H>,
    info: &[u8],
    out: &mut [u8],
)
where
    H: BlockHash<B, N>,
    requires digest { 0 < N }
    requires digest_in_block { N ≤ B }
    requires small { B < 2 ^ 63 }
    requires fits { length out.old ≤ 255 * N }
    ensures { (key : List ℕ)
        → H.holds keyed.now.inner (xor_each 0x36 (block_key (hash_of H.digest_bytes B N) key))
        → H.holds keyed.now.outer (xor_each 0x5c (block_key (hash_of H.digest_bytes B N) key))
        → out.new ≡ expanded (hash_of H.digest_bytes B N) key info.now (length out.old) }
{
    let mut block = [0; N];
    let mut filled = 0;
    'pieces: for i in 0..out.len().div_ceil(N) {
        let mut next = next_block::<H, B, N>(keyed, &block[..filled], info, i as u8 + 1);
        write_at(out, i * N, &next);
        block = next;
        filled = N;
        wipe(&mut next);
    }
    wipe(&mut block);
}

// Returns T(i), from T(i-1) and the number i.
fn next_block<H, const B: usize, const N: usize>(
    keyed: &Keyed<H>,
    previous: &[u8],
    info: &[u8],
    number: u8,
) -> [u8; N]
where
    H: BlockHash<B, N>,
    ensures value { (inner outer : List ℕ) → H.holds keyed.now.inner inner → H.holds keyed.now.outer outer
        → result ≡ H.digest_bytes
        (outer ++ H.digest_bytes (inner ++ (previous.now ++ info.now ++ number ∷ []))) }
    ensures size { length result ≡ N }
{
    let mut mac = keyed.copy::<B, N>();
    mac.update::<B, N>(previous);
    mac.update::<B, N>(info);
    mac.update::<B, N>(&[number]);
    mac.finish::<B, N>()
}

// Writes the bytes at the place, as far as `out` has space.
fn write_at(out: &mut [u8], at: usize, bytes: &[u8])
    requires { at ≤ length out.old }
    ensures { out.new ≡ paste out.old at bytes.now (min (length bytes.now) (length out.old - at)) }
{
    let count = bytes.len().min(out.len() - at);
    out[at..at + count].copy_from_slice(&bytes[..count]);
}
