//! Laws on which checking a log rests, each a function without work whose contract is the law.

ghost use Rattle.log_check.specs.Laws.{LogsOfRunsAreNotRefused, MountsHaveOneReply, NextCallsFollow};

/// A history that follows a script continues by a caller's next call, whatever the reply.
pub fn next_calls_follow()
    ensures { NextCallsFollow }
{}

/// The one-thread mount has one reply to a call after a history, except out of memory.
pub fn mounts_have_one_reply()
    ensures { MountsHaveOneReply }
{}

/// The log of a run, with its notes, is never refused, if the run is lawful, its entries are in range, and
/// no two different raw keys that were added share an identifier.
pub fn logs_of_runs_are_not_refused()
    ensures { LogsOfRunsAreNotRefused }
{}
