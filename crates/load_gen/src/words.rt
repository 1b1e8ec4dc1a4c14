//! The arguments of the generated commands: a caller's key, its directory, and the files in it.

ghost use Rattle.std.specs.Prelude.{◌≡◌, ◌<◌, Some, IfOk, IsSome};
ghost use Rattle.script_words.specs.Path.{path_of};
ghost use Rattle.load_gen.specs.Words as spec;

use fsc_keys::{MAX_RAW_KEY_BYTES, RawKey};
use item_list::Bytes;
use script_lang::{KeyRef, ScriptPath, read_path};
use std::alloc::{AllocError, Global};

// The byte of a caller's key. Callers of even numbers have one key, and the others another.
fn key_byte(caller: u8) -> u8
    ensures { result ≡ spec.key_byte caller }
{
    if caller % 2 == 0 { 0x11 } else { 0x22 }
}

// The bytes of the key.
fn key(caller: u8) -> [u8; MAX_RAW_KEY_BYTES]
    ensures { result ≡ spec.key caller }
{
    [key_byte(caller); MAX_RAW_KEY_BYTES]
}

// The key as a command adds it.
pub(crate) fn added_key(alloc: Global, caller: u8) -> Result<Bytes, AllocError>
    ensures { IfOk result (λ bytes. bytes ≡ spec.key caller) }
{
    let bytes = Vec::from_slice(alloc, &key(caller))?;
    Ok(Bytes::from_vec(bytes))
}

// The key as the other commands name it.
pub(crate) fn raw_key(caller: u8) -> KeyRef
    ensures { result ≡ spec.raw_key caller }
{
    match RawKey::read(&key(caller)) {
        Ok(key) => KeyRef::Raw(key),
        Err(_) => unreachable!(),
    }
}

// The directory of a caller.
pub(crate) fn directory(alloc: Global, caller: u8) -> Result<ScriptPath, AllocError>
    requires { caller < 8 }
    ensures { IfOk result (λ path. path ≡ spec.directory caller) }
{
    let path = path(alloc, &[b'/', b'd', b'0' + caller])?;
    Ok(path)
}

// A file in it.
pub(crate) fn file(alloc: Global, caller: u8, digit: u8) -> Result<ScriptPath, AllocError>
    requires caller { caller < 8 }
    requires digit { digit < 8 }
    ensures { IfOk result (λ path. path ≡ spec.file caller digit) }
{
    let path = path(
        alloc,
        &[b'/', b'd', b'0' + caller, b'/', b'f', b'0' + digit],
    )?;
    Ok(path)
}

// The name to which a file is moved.
pub(crate) fn moved_file(alloc: Global, caller: u8, digit: u8) -> Result<ScriptPath, AllocError>
    requires caller { caller < 8 }
    requires digit { digit < 8 }
    ensures { IfOk result (λ path. path ≡ spec.moved_file caller digit) }
{
    let path = path(
        alloc,
        &[b'/', b'd', b'0' + caller, b'/', b'g', b'0' + digit],
    )?;
    Ok(path)
}

// The path that the text spells.
fn path(alloc: Global, text: &[u8]) -> Result<ScriptPath, AllocError>
    requires { IsSome (path_of text.now) }
    ensures { IfOk result (λ path. path_of text.now ≡ Some path) }
{
    match read_path(alloc, text)? {
        Some(path) => Ok(path),
        None => unreachable!(),
    }
}
