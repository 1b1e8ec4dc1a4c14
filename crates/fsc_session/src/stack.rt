//! Wipes what ended calls left on a thread's stack.

ghost use Rattle.std.specs.Prelude.{◌≡◌};

use byte_words::wipe;

/// The number of bytes below its caller that `scrub_stack` wipes on the stack. Commands reach 24 KiB far,
/// as measured.
const SCRUBBED_BYTES: usize = 32_768;

/// Wipes what calls that have ended left below the caller on this thread's stack. Returns the byte that
/// replaced a nonzero one there: 0. It takes no memory.
///
/// A move, and what a compiler spills of a value, leave copies of keys on the stack that no wipe in place
/// reaches. All of them are below the frame that made the call. No clause can describe them: what remains
/// there is measured, by `tools/keys_in_core`.
#[inline(always)]
pub fn scrub_stack() -> u8
    ensures { result ≡ 0 }
{
    let mut first = 1;
    wipe_below(&mut first);
    first
}

// Wipes what is below the caller's frame, and writes the first byte of it into the caller's.
//
// So the call has a visible effect. Of two calls without one LLVM removes the second if its caller has
// made the first: it treats them as one.
#[inline(never)]
fn wipe_below(first: &mut u8)
    ensures { first.new ≡ 0 }
{
    let mut room = [0; SCRUBBED_BYTES];
    // With another byte at its front the wipe writes the whole buffer.
    room[0] = 1;
    wipe(&mut room);
    *first = room[0];
}
