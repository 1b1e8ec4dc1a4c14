//! Measures: the arguments `NAME COUNT` run the kernel of that name COUNT times. A kernel over fixed
//! bytes prints the name, the count and a SHA-256 of the result, so that no work can be left out. A
//! kernel of a mount's calls prints the name, the count and how many calls were refused.
#![tactic(auto)]

mod callers;
mod ciphers;
mod claims;
mod directories;
mod fixed;
mod hashes;
mod kernel;
mod lengths;
mod mount;
mod names;
mod scattering;
mod scripts;
mod sealing;
mod stretching;
mod trees;
mod turns;
mod walks;
mod wiping;

use kernel::Kernel;
use mount::MountKernel;
use std::alloc::{AllocError, Global};
use std::process::ExitCode;
use std::sync::Wait;
use std::thread::Threads;
use std::{env, io};

const USAGE: &str = "\
fsc_speed NAME COUNT; names of kernels with a digest: \
    aes-block, aes-block-back, xts-LENGTH and xts-back-LENGTH (whole blocks up to 65536 \
    bytes), cts-LENGTH (16 to 65536 bytes), hkdf-64, sha512-192, file-key, mode-key, \
    encrypt-name-32, nokey-255, blake2b-64m, argon2id-1-65536-1, argon2id-3-65536-4, \
    argon2id-lanes-3-65536-4, turn-1, turn-2, turn-4, node-get-NODES (to 65536), \
    entry-get-ENTRIES, entry-put-ENTRIES (to 4096), seal-512, seal-4096, claims-CLAIMS (to 38400), \
    read-script, entry-line, walk-3-plain, walk-3-keyed, walk-3-locked, wipe-zeros-LENGTH and \
    wipe-scattered-LENGTH (16 to 65536 bytes); \
names of kernels of a mount: \
    mkdir, unlink, stat-warm, stat-round, stat-cold, rename, list-plain, list-encrypted, \
    mkdir-NAMES, unlink-NAMES, stat-NAMES (to 4096), read-4096, write-4096, write-1, open-close, \
    status-4096, status-again, shared-status-1, shared-status-2, shared-status-4, \
    shared-read-1, shared-read-2, shared-read-4";

fn main(rt: HostRuntime) -> io::Result<ExitCode> {
    if let Some((name, count)) = asked(&rt)? {
        if let Some(line) = measured(&rt, rt.alloc(), name.as_str(), count)? {
            println!(rt; "{line}")?;
            return Ok(ExitCode::SUCCESS);
        }
    }
    eprintln!(rt; "{USAGE}")?;
    Ok(ExitCode::from(2))
}

// The name and the number in the arguments; none if they are anything else.
fn asked(rt: &HostRuntime) -> io::Result<Option<(String, u32)>> {
    let mut words = env::args(rt)?.skip(1);
    let (Some(name), Some(count), None) = (words.next(), words.next(), words.next()) else {
        return Ok(None);
    };
    match count.as_str().parse::<u32>() {
        Ok(count) => Ok(Some((name, count))),
        Err(_) => Ok(None),
    }
}

// Runs the kernel of this name `count` times, and returns the line to print; none if there is no such
// kernel.
fn measured<R: Threads + Wait + Sync>(
    rt: &R,
    alloc: Global,
    name: &str,
    count: u32,
) -> Result<Option<String>, AllocError> {
    match outcome(rt, alloc, name, count)? {
        Some(outcome) => Ok(Some(format!(in alloc; "{name} {count} {outcome}")?)),
        None => Ok(None),
    }
}

// The digest of the result, or how many calls were refused.
fn outcome<R: Threads + Wait + Sync>(
    rt: &R,
    alloc: Global,
    name: &str,
    count: u32,
) -> Result<Option<String>, AllocError> {
    if let Some(kernel) = Kernel::named(name) {
        return Ok(Some(hex::encode(alloc, &kernel.run(rt, alloc, count)?)?));
    }
    match MountKernel::named(name) {
        Some(kernel) => Ok(Some(format!(in alloc; "{}", kernel.run(rt, alloc, count)?)?)),
        None => Ok(None),
    }
}
