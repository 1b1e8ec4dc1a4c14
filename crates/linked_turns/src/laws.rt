//! A law of runs on two mounts: a function without work whose contract is the law.

ghost use Rattle.linked_turns.specs.LinkedMeaning.{LinkedLogsHaveOneMeaning};

/// For one script and seed, the text of a run on two mounts, in turns or in threads, belongs to one run and
/// to no other: it determines both histories and each caller's calls.
pub fn linked_logs_have_one_meaning()
    ensures { LinkedLogsHaveOneMeaning }
{}
