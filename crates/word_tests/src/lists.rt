//! Lists, maps from numbers, and counts.

use item_list::{Bytes, Items};
use key_counts::{count_of, one_less, one_more};
use number_map::NumberMap;
use std::alloc::{AllocError, Global};
use std::collections::BTreeMap;
use std::process::Abort;

/// Returns a list of owned values, so that the calls run at a type that isn't `Copy`.
fn three_words(alloc: Global) -> Result<Items<Bytes>, AllocError> {
    let mut words = Items::new(alloc);
    for word in [b"one", b"two", b"six"] {
        words.push(Bytes::from_vec(Vec::from_slice(alloc, word)?))?;
    }
    Ok(words)
}

#[test]
fn each_call_succeeds_with_memory(rt: HostRuntime) {
    let mut words = three_words(rt.alloc()).expect(&rt, "memory");
    assert!(rt; words.len() == 3);
    assert!(rt;
        words
            .get(1)
            .is_some_and(|word| word.as_slice() == b"two".as_slice())
    );
    assert!(rt; words.get(3).is_none());
    let each_has_three = words.iter().all(|word| word.len() == 3);
    assert!(rt; each_has_three);

    let last = words.pop();
    assert!(rt; last.is_some_and(|word| word.as_slice() == b"six".as_slice()));
    assert!(rt; words.into_vec().len() == 2);

    let mut bytes = Bytes::new(rt.alloc());
    assert!(rt; bytes.is_empty());
    bytes.push(7).expect(&rt, "memory");
    bytes.push(8).expect(&rt, "memory");
    let copy = bytes.copy(rt.alloc()).expect(&rt, "memory");
    assert!(rt; bytes.pop() == Some(8));
    assert!(rt; copy.as_slice() == [7, 8].as_slice());
}

#[test]
fn each_call_answers_once_with_ample_memory(rt: HostRuntime) {
    let mut map = NumberMap::new(rt.alloc());
    for (number, value) in [(7, 70u32), (3, 30), (5, 50), (3, 31)] {
        map.set(number, value).expect(&rt, "memory");
    }
    look_up(&rt, &mut map);
    assert!(rt; map.remove(7) == Some(70));
    assert!(rt; map.remove(7) == None);
    map.set(9, 90).expect(&rt, "memory");
    expect_left(&rt, &map);
}

// Looks up numbers with a value and without, and gives 5 another value.
fn look_up<A: Abort>(rt: &A, map: &mut NumberMap<u32>) {
    assert!(rt; map.len() == 3);
    assert!(rt; map.get(3).copied() == Some(31));
    assert!(rt; map.get(4).is_none());
    *map.get_mut(5).expect(rt, "5 has a value") = 51;
    assert!(rt; map.get_mut(6).is_none());
}

// Asserts that the map has these entries, by rising number.
fn expect_left<A: Abort>(rt: &A, map: &NumberMap<u32>) {
    assert!(rt; map.iter().eq([(3, &31), (5, &51), (9, &90)]));
}

#[test]
fn a_count_that_falls_to_0_goes(rt: HostRuntime) {
    let mut counts: BTreeMap<u32, u32> = BTreeMap::new(rt.alloc());
    for _ in 0..2 {
        if count_of(&counts, &7) < 9 {
            one_more(&mut counts, 7).expect(&rt, "memory");
        }
    }
    assert!(rt; count_of(&counts, &7) == 2 && count_of(&counts, &8) == 0);
    one_less(&mut counts, &7);
    assert!(rt; count_of(&counts, &7) == 1 && counts.len() == 1);
    one_less(&mut counts, &7);
    assert!(rt; count_of(&counts, &7) == 0 && counts.len() == 0);
}
