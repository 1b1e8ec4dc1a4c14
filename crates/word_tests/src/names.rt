//! The cache of names, with ample memory.
ghost use Rattle.std.specs.Prelude.{◌≤◌, length};

use dentry_cache::{MAX_CACHED_NAME_BYTES, NameCache};
use std::alloc::AllocError;
use std::process::Abort;

/// Caches names of three digits, from 0 on, each with its number.
fn keep_numbers(names: &mut NameCache, count: u32) -> Result<(), AllocError> {
    for number in 0..count {
        names.keep(9, &digits(number), number)?;
    }
    Ok(())
}

/// Returns the lowest three digits of the number.
fn digits(number: u32) -> [u8; 3] {
    [
        (number / 100 % 10) as u8,
        (number / 10 % 10) as u8,
        (number % 10) as u8,
    ]
}

// Asserts that the cache finds this number under this name, or none.
fn expect_number<A: Abort>(
    rt: &A,
    names: &mut NameCache,
    dir: u32,
    name: &[u8],
    number: Option<u32>,
)
    requires short { length name.now ≤ MAX_CACHED_NAME_BYTES }
{
    assert!(rt; names.find(dir, name) == number);
}

#[test]
fn each_call_on_names_answers_once(rt: HostRuntime) {
    let mut names = NameCache::new(rt.alloc()).expect(&rt, "memory");
    names.keep(1, b"letter", 7).expect(&rt, "memory");
    names.keep(2, b"letter", 8).expect(&rt, "memory");
    names.keep(1, b"", 9).expect(&rt, "memory");
    expect_number(&rt, &mut names, 1, b"letter", Some(7));
    expect_number(&rt, &mut names, 2, b"letter", Some(8));
    expect_number(&rt, &mut names, 1, b"", Some(9));
    expect_number(&rt, &mut names, 3, b"letter", None);
    expect_number(&rt, &mut names, 1, b"Letter", None);

    names.keep(1, b"letter", 70).expect(&rt, "memory");
    expect_number(&rt, &mut names, 1, b"letter", Some(70));
    names.forget(1, b"letter");
    expect_number(&rt, &mut names, 1, b"letter", None);
    names.forget_dir(1);
    expect_number(&rt, &mut names, 1, b"", None);
    expect_number(&rt, &mut names, 2, b"letter", Some(8));
    names.forget_all();
    expect_number(&rt, &mut names, 2, b"letter", None);
    assert!(rt; names.refused() == 0);
}

#[test]
fn of_257_names_the_first_goes(rt: HostRuntime) {
    let mut names = NameCache::new(rt.alloc()).expect(&rt, "memory");
    keep_numbers(&mut names, 257).expect(&rt, "memory");
    expect_number(&rt, &mut names, 9, &digits(0), None);
    for number in 1..257 {
        expect_number(&rt, &mut names, 9, &digits(number), Some(number));
    }
}

#[test]
fn a_name_that_was_found_stays_longest(rt: HostRuntime) {
    let mut names = NameCache::new(rt.alloc()).expect(&rt, "memory");
    keep_numbers(&mut names, 256).expect(&rt, "memory");
    expect_number(&rt, &mut names, 9, &digits(0), Some(0));
    names.keep(8, b"one more", 300).expect(&rt, "memory");
    expect_number(&rt, &mut names, 9, &digits(0), Some(0));
    expect_number(&rt, &mut names, 9, &digits(1), None);
}
