//! Laws of runs: each is an empty function whose contract is the law.

ghost use Rattle.std.specs.Prelude.{◌≡◌, ◌↔◌, ℕ, List};
ghost use Rattle.call_history.specs.Placed.{entries_of};
ghost use Rattle.mount_model.specs.Port.{PlacedCalls};
ghost use Rattle.mount_model.specs.History.{History, IsLegal, NeverOutOfMemory};
ghost use Rattle.mount_model.specs.Lawful.{IsLawful, KeysAgree};
ghost use Rattle.script_lang.specs.declared.commands.Section.{Section};
ghost use Rattle.fsc_commands.specs.Steps.{Reaches};
ghost use Rattle.fsc_commands.specs.Steps.Steps.{Done};
ghost use Rattle.fsc_session.specs.Session.{AreNextCalls, IsRunOfSection, section_steps};
ghost use Rattle.fsc_session.specs.Meaning.{LogsHaveOneMeaning, LogDeterminesTheHistory};
ghost use Rattle.fsc_session.specs.Rotation.{Waiting, rotation_steps};
ghost use Rattle.fsc_session.specs.Serial.{serial_history};

/// Entries are a run of a section exactly when each makes the call that comes next after those before it,
/// and none comes after all of them.
pub fn runs_are_next_calls()
    ensures { (seed : List ℕ) (caller : ℕ) (section : Section) (placed : PlacedCalls)
        → IsRunOfSection seed caller section placed
        ↔ AreNextCalls (section_steps seed caller section) (entries_of placed) }
{}

/// A legal history in rotation in which no call is out of memory is a function of script and seed.
pub fn answers_determine_the_run()
    ensures { (seed : List ℕ) (script : List Section) (history : History) (after : List Waiting)
        → Reaches (rotation_steps seed script) history (Done after) → IsLegal history
        → NeverOutOfMemory history
        → history ≡ serial_history seed script }
{}

/// A lawful history in rotation in which no call is out of memory is the same function of script and
/// seed. No two different raw keys that this function's calls add may share an identifier.
pub fn lawful_runs_are_one()
    ensures { (seed : List ℕ) (script : List Section) (history : History) (after : List Waiting)
        → Reaches (rotation_steps seed script) history (Done after) → IsLawful history
        → NeverOutOfMemory history → KeysAgree (serial_history seed script)
        → history ≡ serial_history seed script }
{}

/// The values that the lines of entries contain determine the history, given script and seed: the calls
/// with all that no line shows.
pub fn log_determines_the_history()
    ensures { LogDeterminesTheHistory }
{}

/// A log with its notes is the log of at most one run of a script with a seed.
pub fn logs_have_one_meaning()
    ensures { LogsHaveOneMeaning }
{}
