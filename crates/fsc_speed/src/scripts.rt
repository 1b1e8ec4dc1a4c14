//! The kernels of scripts and logs. They return how much was read or written, and no contract says how
//! much that is.
use crate::scattering::{scattered_bytes, scattered_name};
use call_history::Entry;
use mount_model::{Call, NameList, Op, Path, Reply};
use reply_text::entry_line;
use script_lang::read_script;
use std::alloc::{AllocError, Global};
use text_words::push_lower_hex;

/// As many lines as a script may have.
const LINES: u32 = 20_000;

/// More bytes than that many lines have here.
const MAX_BYTES: usize = 1_048_576;

/// The maximum number of names in a listing.
const NAMES: u32 = 128;

/// Reads a script of 20,000 lines `count` times. Returns how many commands were read in all.
pub(crate) fn read_scripts(alloc: Global, count: u32) -> Result<u32, AllocError> {
    let text = script_text(alloc)?;
    read_often(alloc, text.as_slice(), count)
}

fn read_often(alloc: Global, text: &[u8], count: u32) -> Result<u32, AllocError> {
    let mut read = 0u32;
    for _ in 0..count {
        read = read.wrapping_add(commands_in(alloc, text)?);
    }
    Ok(read)
}

/// Makes the line of a listing of 128 names `count` times. Returns how many bytes were written in all.
pub(crate) fn format_listings(alloc: Global, count: u32) -> Result<u32, AllocError> {
    let listing = listing(alloc)?;
    tell_often(alloc, &listing, count)
}

fn tell_often(alloc: Global, listing: &Entry<Call, Reply>, count: u32) -> Result<u32, AllocError> {
    let mut told = 0u32;
    for place in 0..count {
        let line = entry_line(alloc, u64::from(place), listing)?;
        told = told.wrapping_add(size_of(line.len()));
    }
    Ok(told)
}

// The number of commands of the first caller.
fn commands_in(alloc: Global, text: &[u8]) -> Result<u32, AllocError> {
    if text.len() > MAX_BYTES {
        return Err(AllocError);
    }
    let script = read_script(alloc, text).map_err(|_| AllocError)?;
    match script.as_slice().first() {
        Some(section) => Ok(size_of(section.commands.len())),
        None => Ok(0),
    }
}

fn size_of(len: usize) -> u32 {
    u32::try_from(len).unwrap_or(u32::MAX)
}

// A caller, and for each further line a command on a key of its own.
fn script_text(alloc: Global) -> Result<Vec<u8>, AllocError> {
    let mut text = Vec::from_slice(alloc, b"caller 1000\n")?;
    for line in 1..LINES {
        text.extend_from_slice(b"key-status id:")?;
        push_lower_hex(&mut text, &scattered_bytes(line))?;
        text.push(b'\n')?;
    }
    Ok(text)
}

fn listing(alloc: Global) -> Result<Entry<Call, Reply>, AllocError> {
    let names = listed_names(alloc)?;
    let op = Op::List {
        path: Path::root(alloc),
        start: 0,
    };
    Ok(Entry {
        who: 0,
        call: Call { uid: 1000, op },
        reply: Reply::Names { names, more: false },
    })
}

fn listed_names(alloc: Global) -> Result<NameList, AllocError> {
    let mut names = NameList::new(alloc);
    for name in 0..NAMES {
        names.push(scattered_name(alloc, name)?)?;
    }
    Ok(names)
}
