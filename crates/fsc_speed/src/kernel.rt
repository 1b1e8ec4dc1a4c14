//! The kernels that return a digest of their work, by name.
use crate::callers::Callers;
use crate::claims::{self, ClaimCount};
use crate::fixed::{FIXED, Fixed};
use crate::lengths::{ItemCount, TextLength, UnitLength};
use crate::trees::{self, TreeWork};
use crate::walks::{self, Walk};
use crate::wiping::{self, Wiped};
use crate::{ciphers, scripts, turns};
use sha2::{Digest, Sha256};
use std::alloc::{AllocError, Global};
use std::marker::Brand;
use std::sync::Wait;
use std::sync::ledger::Blank;
use std::thread::Threads;

/// A kernel to be measured.
#[derive(Clone, Copy)]
pub(crate) enum Kernel {
    Fixed(Fixed),
    Xts(UnitLength),
    XtsBack(UnitLength),
    Cts(TextLength),
    Turn(Callers),
    Tree(TreeWork, ItemCount),
    MakeClaims(ClaimCount),
    Walk(Walk),
    Wipe(Wiped, TextLength),
}

impl Kernel {
    /// Returns the kernel of this name, such as `aes-block`, `cts-255` or `turn-2`.
    pub(crate) fn named(name: &str) -> Option<Kernel> {
        for (fixed, kernel) in &FIXED {
            if *fixed == name {
                return Some(Kernel::Fixed(*kernel));
            }
        }
        Kernel::sized(name)
    }

    // The kernel whose name has a length, a number or a kind after its family.
    fn sized(name: &str) -> Option<Kernel> {
        let (family, size) = name.split_once('-')?;
        match family {
            "xts" => Kernel::of_units(size),
            "cts" => TextLength::read(size).map(Kernel::Cts),
            "claims" => ClaimCount::read(size).map(Kernel::MakeClaims),
            "turn" => Callers::read(size).map(Kernel::Turn),
            "walk" => Walk::named(size).map(Kernel::Walk),
            "wipe" => Kernel::of_wipes(size),
            _ => Kernel::of_trees(name),
        }
    }

    // A unit's length, with `back-` before it if the unit is decrypted.
    fn of_units(length: &str) -> Option<Kernel> {
        match length.strip_prefix("back-") {
            Some(length) => UnitLength::read(length).map(Kernel::XtsBack),
            None => UnitLength::read(length).map(Kernel::Xts),
        }
    }

    // The bytes that are wiped, and their length.
    fn of_wipes(size: &str) -> Option<Kernel> {
        let (bytes, length) = size.split_once('-')?;
        Some(Kernel::Wipe(Wiped::named(bytes)?, TextLength::read(length)?))
    }

    // The work on a tree, and how many nodes or entries it has.
    fn of_trees(name: &str) -> Option<Kernel> {
        let (call, size) = name.rsplit_once('-')?;
        let (work, most) = match call {
            "node-get" => (TreeWork::GetNodes, 65536),
            "entry-get" => (TreeWork::GetEntries, 4096),
            "entry-put" => (TreeWork::PutEntries, 4096),
            _ => return None,
        };
        Some(Kernel::Tree(work, ItemCount::read(size, most)?))
    }

    /// Runs the kernel `count` times, and returns a hash of the result.
    pub(crate) fn run<R: Threads + Wait + Sync>(
        self,
        rt: &R,
        alloc: Global,
        count: u32,
    ) -> Result<[u8; 32], AllocError> {
        match self {
            Kernel::Fixed(Fixed::Plain(kernel)) => Ok(kernel.run(count)),
            Kernel::Fixed(Fixed::Stretch(kernel)) => kernel.run(rt, alloc, count),
            Kernel::Fixed(Fixed::ReadScript) => hashed(scripts::read_scripts(alloc, count)),
            Kernel::Fixed(Fixed::EntryLine) => hashed(scripts::format_listings(alloc, count)),
            Kernel::Xts(length) => ciphers::xts(alloc, length.bytes(), count),
            Kernel::XtsBack(length) => ciphers::xts_back(alloc, length.bytes(), count),
            Kernel::Cts(length) => ciphers::cts(alloc, length.bytes(), count),
            Kernel::Turn(callers) => turns::add_sevens(rt, alloc, callers, count),
            Kernel::Tree(work, size) => hashed(trees::work(alloc, work, size, count)),
            Kernel::MakeClaims(size) => hashed(claims::make_claims(alloc, size, count)),
            Kernel::Wipe(wiped, length) => {
                wiping::wipe_copies(alloc, wiped, length.bytes(), count)
            }
            Kernel::Walk(walk) => {
                hashed(walks::walk_often::<Brand>(alloc, Blank::new(1), walk, count))
            }
        }
    }
}

// The hash of the number that a kernel returned.
fn hashed(told: Result<u32, AllocError>) -> Result<[u8; 32], AllocError> {
    Ok(Sha256::digest(&told?.to_be_bytes()))
}
