//! Which caller's line is at a place of a text.

ghost use Rattle.std.specs.Prelude.{IfOk};
ghost use Rattle.log_check.specs.NextLines.{IsAwaited, IsNextCaller};

use crate::lines::is_line_of;
use mount_model::Call;
use next_calls::Caller;
use std::alloc::{AllocError, Global};

// Returns the number of the caller of whose next call the text begins with a line, and that call, or `None`
// if it begins with no such line.
pub(crate) fn next_caller_line<'a>(
    alloc: Global,
    callers: &[Caller<'a>],
    place: u64,
    text: &[u8],
) -> Result<Option<(usize, Call)>, AllocError>
    ensures { IfOk result (IsNextCaller callers.now place text.now) }
{
    'callers: for number in 0..callers.len() {
        if let Some(call) = awaited_line(alloc, &callers[number], place, text)? {
            return Ok(Some((number, call)));
        }
    }
    Ok(None)
}

// Returns the call that the caller makes next, if the text begins with its line.
fn awaited_line<'a>(
    alloc: Global,
    caller: &Caller<'a>,
    place: u64,
    text: &[u8],
) -> Result<Option<Call>, AllocError>
    ensures { IfOk result (IsAwaited caller.now place text.now) }
{
    let Some(call) = caller.waiting() else {
        return Ok(None);
    };
    if !is_line_of(alloc, place, caller.caller(), call.uid, text)? {
        return Ok(None);
    }
    let copy = call.copy(alloc)?;
    Ok(Some(copy))
}
