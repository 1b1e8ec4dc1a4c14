//! Records by their versions, and the calls on them.

use crate::on_a_mount::{Trial, try_on_a_mount};
use crate::reply_values::{is_refused, stored_version};
use meta_files::{MetaFiles, StoreFault};
use mount_model::Refusal;
use mount_records::{Bytes, MountState, Reply, meta_load, meta_store};
use std::alloc::{AllocError, Global};
use std::process::Abort;

/// The name of a record that is stored, its expected version before, the length of its text, and the
/// expected result.
type Store = (&'static [u8], u32, usize, Result<u32, StoreFault>);

fn store_each<A: Abort>(rt: &A, alloc: Global, files: &mut MetaFiles, stores: &[Store]) {
    for (name, version, length, wanted) in stores {
        let text = Vec::from_elem(alloc, b'x', *length).expect(rt, "memory");
        let stored = files.store(alloc, name, *version, &text);
        assert!(rt; stored == *wanted, "{length} bytes at version {version}");
    }
}

static STORES_BY_VERSION: [Store; 6] = [
    // a new record, one that changed meanwhile, the next version
    (b"a", 0, 0, Ok(1)),
    (b"a", 0, 3, Err(StoreFault::Changed { version: 1 })),
    (b"a", 1, 3, Ok(2)),
    (b"b", 1, 3, Err(StoreFault::Changed { version: 0 })),
    // the longest record, and one byte more, which is refused before a wrong version is
    (b"b", 0, 8_192, Ok(1)),
    (b"b", 0, 8_193, Err(StoreFault::TooBig)),
];

#[test]
fn records_are_stored_by_their_version(rt: HostRuntime) {
    let mut files = MetaFiles::new(rt.alloc());
    store_each(&rt, rt.alloc(), &mut files, &STORES_BY_VERSION);
    load_one(&rt, rt.alloc(), &files);
}

fn load_one<A: Abort>(rt: &A, alloc: Global, files: &MetaFiles) {
    let a = files.load(alloc, b"a").expect(rt, "an answer");
    assert!(rt;
        a.is_some_and(|(version, bytes)| version == 2 && bytes.as_slice() == b"xxx".as_slice())
    );
    assert!(rt; files.load(alloc, b"c").expect(rt, "an answer").is_none());
}

// One record more, also at a wrong version, and the eighth one again.
static STORES_BESIDE_1024: [Store; 3] = [
    (b"one more", 0, 0, Err(StoreFault::NoSpace)),
    (b"one more", 1, 0, Err(StoreFault::Changed { version: 0 })),
    (&[7, 0, 0, 0], 1, 4, Ok(2)),
];

#[test]
fn there_are_at_most_1024_records(rt: HostRuntime) {
    let mut files = MetaFiles::new(rt.alloc());
    for number in 0..1_024u32 {
        let stored = files.store(rt.alloc(), &number.to_le_bytes(), 0, b"");
        assert!(rt; stored == Ok(1));
    }
    store_each(&rt, rt.alloc(), &mut files, &STORES_BESIDE_1024);
}

fn bytes_of(alloc: Global, bytes: &[u8]) -> Result<Bytes, AllocError> {
    Ok(Bytes::from_vec(Vec::from_slice(alloc, bytes)?))
}

#[test]
fn a_record_that_changed_meanwhile_is_not_written(rt: HostRuntime) {
    try_on_a_mount(&rt, rt.alloc(), Trial::LoadAndStore);
}

// Whether the reply is the record of one byte 0, in its first version.
fn is_the_first(told: Reply) -> bool {
    match told {
        Reply::Held { version, bytes } => version == 1 && bytes.as_slice() == [0].as_slice(),
        _ => false,
    }
}

pub(crate) fn load_and_store<A: Abort>(rt: &A, alloc: Global, state: &mut MountState) {
    let name = bytes_of(alloc, b"policy/docs").expect(rt, "memory");
    assert!(rt; is_refused(meta_load(alloc, state, &name), Refusal::NotFound));
    store_first(rt, alloc, state, &name);
    store_again(rt, alloc, state, &name);
}

fn store_first<A: Abort>(rt: &A, alloc: Global, state: &mut MountState, name: &Bytes) {
    let first = stored(rt, alloc, state, (name, 0), &[0]);
    assert!(rt; stored_version(first) == Some(1));
    assert!(rt; is_the_first(meta_load(alloc, state, name)));
}

fn store_again<A: Abort>(rt: &A, alloc: Global, state: &mut MountState, name: &Bytes) {
    let second = stored(rt, alloc, state, (name, 1), &[1]);
    assert!(rt; stored_version(second) == Some(2));
    let stale = stored(rt, alloc, state, (name, 1), &[0]);
    assert!(rt; is_refused(stale, Refusal::Changed { version: 2 }));
    let too_big = stored(rt, alloc, state, (name, 2), &[0; 8_193]);
    assert!(rt; is_refused(too_big, Refusal::TooBig));
}

// The result of storing these bytes over this version.
fn stored<A: Abort>(
    rt: &A,
    alloc: Global,
    state: &mut MountState,
    (name, version): (&Bytes, u32),
    bytes: &[u8],
) -> Reply {
    let bytes = bytes_of(alloc, bytes).expect(rt, "memory");
    meta_store(alloc, state, name, version, &bytes)
}
