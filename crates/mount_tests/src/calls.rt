//! Calls that may be asked, and the numbers of replies.

use mount_model::{Bytes, Call, KeyState, Op, Part, Path, Refusal};
use std::alloc::{AllocError, Global};

// `length` letters.
fn bytes_of(alloc: Global, length: usize) -> Result<Bytes, AllocError> {
    let mut bytes = Bytes::new(alloc);
    for _ in 0..length {
        bytes.push(b'a')?;
    }
    Ok(bytes)
}

fn adding_key(alloc: Global, length: usize) -> Result<Call, AllocError> {
    let raw = bytes_of(alloc, length)?;
    Ok(Call {
        uid: 1000,
        op: Op::AddKey { raw },
    })
}

// Whether a copy of the call may be asked.
fn copy_fits(alloc: Global, call: &Call) -> Result<bool, AllocError> {
    let copy = call.copy(alloc)?;
    Ok(copy.fits())
}

#[test]
fn keys_of_1_to_128_bytes_may_be_asked_for(rt: HostRuntime) {
    let alloc = rt.alloc();
    for (length, fits) in [(0, false), (1, true), (128, true), (129, false)] {
        let call = adding_key(alloc, length).expect(&rt, "memory");
        assert!(rt; call.fits() == fits, "a raw key of {length} bytes");
        assert!(rt; copy_fits(alloc, &call) == Ok(fits));
    }
}

// The copy of a path of one name of 1,000 letters.
fn copy_of_a_path(alloc: Global) -> Result<Path, AllocError> {
    let mut path = Path::root(alloc);
    path.push(Part::new(bytes_of(alloc, 1000)?))?;
    path.copy(alloc)
}

#[test]
fn paths_are_copied(rt: HostRuntime) {
    let copy = copy_of_a_path(rt.alloc()).expect(&rt, "memory");
    assert!(rt; copy.len() == 1 && copy.part(1).is_none());
    let copied = copy.part(0).expect(&rt, "a part");
    assert!(rt; copied.bytes() == [b'a'; 1000].as_slice());
}

#[test]
fn answers_have_numbers(rt: HostRuntime) {
    // As in linux/fscrypt.h.
    for (state, number) in [
        (KeyState::Absent, 1),
        (KeyState::Present, 2),
        (KeyState::Incomplete, 3),
    ] {
        assert!(rt; state.number() == number);
    }
    // As docs/ANSWERS.md lists them.
    let refusals = [
        Refusal::NoKey,
        Refusal::Access,
        Refusal::Quota,
        Refusal::Inval,
        Refusal::Exists,
        Refusal::NotFound,
        Refusal::NotDir,
        Refusal::IsDir,
        Refusal::NotEmpty,
        Refusal::XDev,
        Refusal::NoData,
        Refusal::BadHandle,
        Refusal::NameTooLong,
        Refusal::TooBig,
        Refusal::NoSpace,
        Refusal::NoKeyClash,
        Refusal::Changed { version: 2 },
        Refusal::NoMemory,
    ];
    for (place, refusal) in refusals.iter().enumerate() {
        assert!(rt; usize::from(refusal.number()) == place + 1);
    }
}
