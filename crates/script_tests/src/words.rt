//! Words and paths that no line of a script can spell, and how words and paths are written. What a line
//! spells is in `examples/`.

use crate::texts::expect_same;
use script_words::{read_path, read_target, read_word, write_path, write_word};
use std::alloc::{AllocError, Global};

// A line is cut at its spaces, so these readers never get one from a script.
#[test]
fn words_and_targets_have_no_space(rt: HostRuntime) {
    let word = read_word(rt.alloc(), b"a b").expect(&rt, "memory");
    assert!(rt; word.is_none());
    let target = read_target(rt.alloc(), b"a b").expect(&rt, "memory");
    assert!(rt; target.is_none());
}

// Python's `urllib.parse.quote(bytes(range(256)), safe='')`, a row for each 32 bytes.
static QUOTED: [&str; 8] = [
    "%00%01%02%03%04%05%06%07%08%09%0A%0B%0C%0D%0E%0F%10%11%12%13%14%15%16%17%18%19%1A%1B%1C%1D%1E%1F",
    "%20%21%22%23%24%25%26%27%28%29%2A%2B%2C-.%2F0123456789%3A%3B%3C%3D%3E%3F",
    "%40ABCDEFGHIJKLMNOPQRSTUVWXYZ%5B%5C%5D%5E_",
    "%60abcdefghijklmnopqrstuvwxyz%7B%7C%7D~%7F",
    "%80%81%82%83%84%85%86%87%88%89%8A%8B%8C%8D%8E%8F%90%91%92%93%94%95%96%97%98%99%9A%9B%9C%9D%9E%9F",
    "%A0%A1%A2%A3%A4%A5%A6%A7%A8%A9%AA%AB%AC%AD%AE%AF%B0%B1%B2%B3%B4%B5%B6%B7%B8%B9%BA%BB%BC%BD%BE%BF",
    "%C0%C1%C2%C3%C4%C5%C6%C7%C8%C9%CA%CB%CC%CD%CE%CF%D0%D1%D2%D3%D4%D5%D6%D7%D8%D9%DA%DB%DC%DD%DE%DF",
    "%E0%E1%E2%E3%E4%E5%E6%E7%E8%E9%EA%EB%EC%ED%EE%EF%F0%F1%F2%F3%F4%F5%F6%F7%F8%F9%FA%FB%FC%FD%FE%FF",
];

// The 32 bytes that count up from this one.
fn counted_from(first: u8) -> [u8; 32] {
    let mut bytes = [first; 32];
    for i in 0..32 {
        bytes[i] = first.wrapping_add(i as u8);
    }
    bytes
}

#[test]
fn words_are_written_as_url_quoting_writes_them(rt: HostRuntime) {
    for row in 0..8 {
        let bytes = counted_from((32 * row) as u8);
        expect_same(&rt, write_word(rt.alloc(), &bytes), QUOTED[row], "a row");
    }
}

// Returns what is written of the path that the text spells, or `refused` for a text outside the grammar.
fn path_rewritten(alloc: Global, text: &[u8]) -> Result<String, AllocError> {
    match read_path(alloc, text)? {
        Some(path) => write_path(alloc, &path),
        None => String::from_str(alloc, "refused"),
    }
}

// A path, and how it is written: a star as one, and no plain part. A space is no part's.
static REWRITTEN: [(&str, &str); 6] = [
    ("/", "/"),
    ("/*0/%2a0/*01", "/*0/%2A0/%2A01"),
    ("/*4294967295/*4294967296", "/*4294967295/%2A4294967296"),
    ("/%2e%2e%2e/%25/%7E-_.a", "/.../%25/~-_.a"),
    ("/caf%c3%a9/a+b", "/caf%C3%A9/a%2Bb"),
    ("/a b", "refused"),
];

#[test]
fn paths_are_written_without_needless_escapes(rt: HostRuntime) {
    for (text, want) in &REWRITTEN {
        expect_same(&rt, path_rewritten(rt.alloc(), text.as_bytes()), want, text);
    }
}
