//! What is written of a script. The logs of `examples/` show what is read of one; lines inside the grammar
//! and outside of it are in `examples/lines/`.

use crate::texts::same_bytes;
use item_list::Bytes;
use script_lang::{read_script, write_script};
use std::alloc::{AllocError, Global};

// Returns what is written of the script that the text spells, or nothing if it spells none.
fn rewritten(alloc: Global, text: &[u8]) -> Result<Bytes, AllocError> {
    if text.len() > 1_000_000 {
        return Err(AllocError);
    }
    match read_script(alloc, text) {
        Ok(script) => write_script(alloc, &script),
        Err(_) => Ok(Bytes::new(alloc)),
    }
}

const BARE: &str = "caller 1000\nadd-key 00ff\nremove-key id:000102030405060708090a0b0c0d0e0f\n\
    key-status raw:404142434445464748494a4b4c4d4e4f505152535455565758595a5b5c5d5e5f\n\
    caller 0\n\nkey-status id:000102030405060708090a0b0c0d0e0f\ncaller 4294967295\n";

const COMMENTED: &str = "# first\n\ncaller 1000\n# a key\nadd-key 0A\n\ncaller 7\n\
    key-status id:000102030405060708090a0b0c0d0e0f\n# last\n";

const UNCOMMENTED: &str = "caller 1000\n\n\n\nadd-key 0a\ncaller 7\n\n\
    key-status id:000102030405060708090a0b0c0d0e0f\n";

// Keys of either case, and a section without commands.
const SPELLED: &str = "\ncaller 1000\n# a key\nadd-key 00fFa5\n\n\
    key-status raw:404142434445464748494a4b4c4d4e4f505152535455565758595a5b5c5d5e5f\n\
    caller 4294967295\ncaller 7\nremove-key id:000102030405060708090a0b0c0d0e0f\n";

const RESPELLED: &str = "caller 1000\n\n\nadd-key 00ffa5\n\n\
    key-status raw:404142434445464748494a4b4c4d4e4f505152535455565758595a5b5c5d5e5f\n\
    caller 4294967295\ncaller 7\nremove-key id:000102030405060708090a0b0c0d0e0f\n";

// Keys of 31, 32 and 65 bytes.
const KEYS: &str = "caller 1000\n\
    add-key 07070707070707070707070707070707070707070707070707070707070707\n\
    add-key 0707070707070707070707070707070707070707070707070707070707070707\n\
    add-key 0707070707070707070707070707070707070707070707070707070707070707\
    0707070707070707070707070707070707070707070707070707070707070707\
    07\n";

// One command of each name, with all arguments that it may have.
const EACH_COMMAND: &str = "caller 1000\n\
    add-key 00ff\n\
    remove-key id:000102030405060708090a0b0c0d0e0f\n\
    remove-key-all id:000102030405060708090a0b0c0d0e0f\n\
    key-status id:000102030405060708090a0b0c0d0e0f\n\
    set-policy /e id:000102030405060708090a0b0c0d0e0f 32 9\n\
    set-policy-bytes /e 0201040b000000008699c2c53707405da5aba5ae4d8583c0\n\
    get-policy /e\n\
    mkdir /e/sub\n\
    create /e/f\n\
    symlink /e/l x%2Fy\n\
    readlink /e/*0\n\
    unlink /e/*1\n\
    rmdir /\n\
    rename /a/f /g\n\
    list / 128\n\
    stat /\n\
    open /e\n\
    close 4294967295\n\
    read 0 4094 4\n\
    write 0 4095 aabb\n\
    fill 0 131072 65536 7\n\
    drop-caches\n\
    meta-get protector/a_-9\n\
    meta-put policy/docs 1 01\n\
    protector login pass:1:64:1:correct%20horse\n\
    policy-new docs login pass:right 32 9\n\
    policy-drop docs backup\n\
    unlock docs login pass:right\n\
    lock docs\n\
    status docs\n\
    encrypt /home/u docs 16 12\n\
    migrate docs\n";

// Arguments that may be spelled in several ways, or left out.
const WORDS: &str = "caller 7\n\
    write 0 0 00A5\n\
    write 0 0 -\n\
    meta-put policy/p 0 -\n\
    symlink /a *0\n\
    unlock p l pass:a+b%20\n\
    unlock p l pass:%00\n\
    unlock p l pass:a%00\n\
    protector l pass:16:65536:8:a:b\n\
    list /a\n\
    list /a 0\n\
    encrypt /a p\n\
    encrypt /a p 8\n\
    policy-new p l pass:a\n";

const WORDS_IN_ONE_WAY: &str = "caller 7\n\
    write 0 0 00a5\n\
    write 0 0 -\n\
    meta-put policy/p 0 -\n\
    symlink /a %2A0\n\
    unlock p l pass:a%2Bb%20\n\
    unlock p l pass:%00\n\
    unlock p l pass:a%00\n\
    protector l pass:16:65536:8:a%3Ab\n\
    list /a\n\
    list /a 0\n\
    encrypt /a p\n\
    encrypt /a p 8\n\
    policy-new p l pass:a\n";

// Digits of secrets, which are written in lower case.
const SECRETS: &str = "caller 7\n\
    protector-change llllllllllllllllllllllllllllllll \
    raw:A5A5A5A5A5A5A5A5A5A5A5A5A5A5A5A5A5A5A5A5A5A5A5A5A5A5A5A5A5A5A5A5 \
    raw:A5A5A5A5A5A5A5A5A5A5A5A5A5A5A5A5A5A5A5A5A5A5A5A5A5A5A5A5A5A5A5A5\n\
    policy-add p llllllllllllllllllllllllllllllll \
    raw:A5A5A5A5A5A5A5A5A5A5A5A5A5A5A5A5A5A5A5A5A5A5A5A5A5A5A5A5A5A5A5A5 b \
    raw:A5A5A5A5A5A5A5A5A5A5A5A5A5A5A5A5A5A5A5A5A5A5A5A5A5A5A5A5A5A5A5A5\n\
    set-policy /a raw:A5A5A5A5A5A5A5A5A5A5A5A5A5A5A5A5A5A5A5A5A5A5A5A5A5A5A5A5A5A5A5A5 4\n";

const SECRETS_IN_LOWER_CASE: &str = "caller 7\n\
    protector-change llllllllllllllllllllllllllllllll \
    raw:a5a5a5a5a5a5a5a5a5a5a5a5a5a5a5a5a5a5a5a5a5a5a5a5a5a5a5a5a5a5a5a5 \
    raw:a5a5a5a5a5a5a5a5a5a5a5a5a5a5a5a5a5a5a5a5a5a5a5a5a5a5a5a5a5a5a5a5\n\
    policy-add p llllllllllllllllllllllllllllllll \
    raw:a5a5a5a5a5a5a5a5a5a5a5a5a5a5a5a5a5a5a5a5a5a5a5a5a5a5a5a5a5a5a5a5 b \
    raw:a5a5a5a5a5a5a5a5a5a5a5a5a5a5a5a5a5a5a5a5a5a5a5a5a5a5a5a5a5a5a5a5\n\
    set-policy /a raw:a5a5a5a5a5a5a5a5a5a5a5a5a5a5a5a5a5a5a5a5a5a5a5a5a5a5a5a5a5a5a5a5 4\n";

// Texts of scripts, and how the scripts are written.
static WRITTEN: [(&str, &str); 7] = [
    (BARE, BARE),
    (COMMENTED, UNCOMMENTED),
    (SPELLED, RESPELLED),
    (KEYS, KEYS),
    (EACH_COMMAND, EACH_COMMAND),
    (WORDS, WORDS_IN_ONE_WAY),
    (SECRETS, SECRETS_IN_LOWER_CASE),
];

#[test]
fn scripts_are_written_with_each_command_in_its_line(rt: HostRuntime) {
    for (text, wanted) in &WRITTEN {
        let written = rewritten(rt.alloc(), text.as_bytes()).expect(&rt, "an answer");
        same_bytes(&rt, written.as_slice(), wanted.as_bytes(), text);
    }
}
