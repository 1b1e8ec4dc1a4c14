//! Claims of users on keys, and keys that stay while they have users.

use key_ring::{FileKey, KeyId, KeyKind, KeyRing, ModeKeys, RawKey};
use std::alloc::Global;
use std::process::Abort;
use user_claims::{ClaimFault, Claims};

fn key(number: u8) -> KeyId {
    KeyId([number; 16])
}

/// A query or change of claims, by the number of a key and a user, and the expected result. Users are
/// counted from a first one.
#[derive(Clone, Copy)]
enum Ask {
    /// The user claims the key.
    Claim(u8, u32, Result<(), ClaimFault>),
    /// The claim is removed; true if there was one.
    GiveUp(u8, u32, bool),
    /// All claims on the key are removed.
    Clear(u8),
    /// Whether the user has a claim on the key.
    Has(u8, u32, bool),
    /// The number of the user's claims.
    OfUser(u32, u32),
    /// The number of claims on the key.
    OnKey(u8, u32),
}

fn is_answered(claims: &mut Claims, first: u32, ask: Ask) -> bool {
    match ask {
        Ask::Claim(number, user, wanted) => {
            claims.claim(&key(number), first.wrapping_add(user)) == wanted
        }
        Ask::GiveUp(number, user, had) => {
            claims.unclaim(&key(number), first.wrapping_add(user)) == had
        }
        Ask::Clear(number) => {
            claims.clear(&key(number));
            true
        }
        Ask::Has(number, user, has) => { claims.has(&key(number), first.wrapping_add(user)) == has }
        Ask::OfUser(user, count) => claims.count_of_uid(first.wrapping_add(user)) == count,
        Ask::OnKey(number, count) => claims.count_of_id(&key(number)) == count,
    }
}

fn ask_each<A: Abort>(rt: &A, claims: &mut Claims, first: u32, asks: &[Ask]) {
    for (place, ask) in asks.iter().enumerate() {
        assert!(rt; is_answered(claims, first, *ask), "question {place}");
    }
}

// For a user with 64 claims, and for the next user.
static ASKS_OF_ONE_MORE: [Ask; 8] = [
    Ask::Claim(64, 0, Err(ClaimFault::Quota)),
    Ask::Claim(0, 0, Ok(())),
    Ask::OfUser(0, 64),
    Ask::Claim(64, 1, Ok(())),
    Ask::GiveUp(9, 0, true),
    Ask::GiveUp(9, 0, false),
    Ask::Claim(64, 0, Ok(())),
    Ask::OnKey(64, 2),
];

#[test]
fn a_user_has_at_most_64_claims(rt: HostRuntime) {
    for uid in [7, 0] {
        let mut claims = Claims::new(rt.alloc());
        for number in 0..64 {
            assert!(rt; claims.claim(&key(number), uid) == Ok(()));
        }
        ask_each(&rt, &mut claims, uid, &ASKS_OF_ONE_MORE);
    }
}

static ASKS_OF_EACH_USER: [Ask; 13] = [
    Ask::Claim(1, 1000, Ok(())),
    Ask::Claim(1, 1001, Ok(())),
    Ask::Claim(2, 1000, Ok(())),
    Ask::GiveUp(1, 1000, true),
    Ask::Has(1, 1000, false),
    Ask::Has(1, 1001, true),
    Ask::Has(2, 1000, true),
    Ask::Claim(1, 0, Ok(())),
    Ask::Clear(1),
    Ask::OnKey(1, 0),
    Ask::OfUser(1000, 1),
    Ask::OfUser(0, 0),
    Ask::OfUser(1001, 0),
];

#[test]
fn each_user_claims_for_itself(rt: HostRuntime) {
    let mut claims = Claims::new(rt.alloc());
    ask_each(&rt, &mut claims, 0, &ASKS_OF_EACH_USER);
}

// Whether the ring has this secret under the identifier.
fn has_secret(ring: &KeyRing, id: &KeyId, secret: &[u8]) -> bool {
    match ring.secret_of(id) {
        Some(raw) => raw.bytes() == secret,
        None => false,
    }
}

#[test]
fn a_key_stays_until_its_last_user_gives_it_up(rt: HostRuntime) {
    let alloc = rt.alloc();
    let mut ring = KeyRing::new(alloc);
    let first = RawKey::read(&[1; 32]).expect(&rt, "a key");
    let second = RawKey::read(&[2; 64]).expect(&rt, "a key");
    let id = add_for_two(&rt, alloc, &mut ring, &first);
    let other = ring.add(alloc, &second, 1000).expect(&rt, "an answer");
    assert!(rt; ring.claims().count_of_id(&id) == 2);
    give_up(&rt, &mut ring, &id);
    clear(&rt, &mut ring, &other);
}

// Both users claim the key; one does so twice.
fn add_for_two<A: Abort>(rt: &A, alloc: Global, ring: &mut KeyRing, raw: &RawKey) -> KeyId {
    let id = ring.add(alloc, raw, 1000).expect(rt, "an answer");
    for uid in [1001, 1000] {
        assert!(rt; ring.add(alloc, raw, uid) == Ok(id));
    }
    id
}

fn give_up<A: Abort>(rt: &A, ring: &mut KeyRing, id: &KeyId) {
    assert!(rt; ring.claims().has(id, 1000) && ring.take_claim(id, 1000) == 1);
    assert!(rt; has_secret(ring, id, &[1; 32]));
    assert!(rt; ring.claims().has(id, 1001) && ring.take_claim(id, 1001) == 0);
    assert!(rt; ring.secret_of(id).is_none());
}

fn clear<A: Abort>(rt: &A, ring: &mut KeyRing, other: &KeyId) {
    assert!(rt; has_secret(ring, other, &[2; 64]));
    ring.clear(other);
    assert!(rt; ring.secret_of(other).is_none() && !ring.claims().has(other, 1000));
}

fn is_names_key(key: Option<&FileKey>, wanted: &[u8; 32]) -> bool {
    matches!(key, Some(FileKey::Names(bytes)) if bytes == wanted)
}

#[test]
fn a_mode_key_stays_while_it_has_users(rt: HostRuntime) {
    let alloc = rt.alloc();
    let mut modes = ModeKeys::new(alloc);
    let id = KeyId([5; 16]);
    if modes.users_of(&id) == 0 {
        modes
            .hold(alloc, &id, KeyKind::Names, FileKey::Names([1; 32]), 2)
            .expect(&rt, "an answer");
    }
    if modes.users_of(&id) == 2 {
        modes
            .hold(alloc, &id, KeyKind::Contents, FileKey::Contents([2; 64]), 1)
            .expect(&rt, "an answer");
    }
    if modes.users_of(&id) == 3 {
        modes
            .hold(alloc, &id, KeyKind::Names, FileKey::Names([3; 32]), 1)
            .expect(&rt, "an answer");
    }
    assert!(rt; modes.users_of(&id) == 4);
    assert!(rt; is_names_key(modes.key_of(&id, KeyKind::Names), &[1; 32]));
    assert!(rt; modes.key_of(&id, KeyKind::Contents).is_some());
    assert!(rt; modes.key_of(&KeyId([6; 16]), KeyKind::Names).is_none());
}
