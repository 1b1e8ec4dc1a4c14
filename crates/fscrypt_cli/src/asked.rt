//! What a form reads from standard input, and writes.

/// Messages about what standard input contains.
#[derive(Clone, Copy)]
pub(crate) struct Input {
    pub(crate) name: &'static str,
    // At a terminal, while it is waited for.
    pub(crate) awaited: &'static str,
}

const SCRIPT: Input = Input {
    name: "script",
    awaited: "a script, a command a line,",
};

const IMAGE: Input = Input {
    name: "image",
    awaited: "an image,",
};

const SCRIPT_WITH_LOG: Input = Input {
    name: "script with its log",
    awaited: "a script, a line --- and a log,",
};

/// What standard input contains.
#[derive(Clone, Copy)]
pub(crate) enum Asked {
    /// A script, of whose run the log is written, or both logs.
    Log,
    /// A script, of whose run the image is written.
    Image,
    /// A script with a log after it, which is checked.
    Listing,
    /// A script and, after it, a log, which is checked.
    Verdict,
    /// Nothing.
    Other,
}

impl Asked {
    /// Returns what the first argument asks for.
    pub(crate) fn of(words: &[String]) -> Asked {
        let [first, ..] = words else {
            return Asked::Other;
        };
        match first.as_str() {
            "replay" | "replay-linked" => Asked::Log,
            "dump" => Asked::Image,
            "inspect" => Asked::Listing,
            "check" => Asked::Verdict,
            _ => Asked::Other,
        }
    }

    /// Returns the messages about standard input, if it is read.
    pub(crate) fn input(self) -> Option<Input> {
        match self {
            Asked::Log | Asked::Image => Some(SCRIPT),
            Asked::Listing => Some(IMAGE),
            Asked::Verdict => Some(SCRIPT_WITH_LOG),
            Asked::Other => None,
        }
    }

    /// Returns the text about the maximal size of standard input.
    pub(crate) fn most(self) -> &'static str {
        match self {
            Asked::Listing => "an image has at most 268435456 bytes",
            Asked::Verdict => {
                "a script and its log have at most 67108864 bytes, the script 1048576 and 20000 lines"
            }
            Asked::Log | Asked::Image | Asked::Other => {
                "a script has at most 1048576 bytes and 20000 lines"
            }
        }
    }

    /// Returns the name of what is written.
    pub(crate) fn output(self) -> &'static str {
        match self {
            Asked::Log => "log",
            Asked::Image => "image",
            Asked::Listing => "listing",
            Asked::Verdict | Asked::Other => "text",
        }
    }
}
