//! The commands of scripts by group, as `--help` lists them.

/// Commands that are listed together: each with its words, of which the first is its name, and what it does.
pub(crate) struct Group {
    pub(crate) title: &'static str,
    pub(crate) lines: &'static [(&'static str, &'static str)],
}

/// Returns the name of the command that the word is, if it is one.
pub(crate) fn verb_name_of(word: &[u8]) -> Option<&'static str> {
    form_of_name(word).map(name_of)
}

/// Returns the words of the command of this name, if there is one: `read HANDLE OFFSET LENGTH`.
pub(crate) fn form_of_name(word: &[u8]) -> Option<&'static str> {
    for group in GROUPS.iter() {
        for &(form, _) in group.lines.iter() {
            if name_of(form).as_bytes() == word {
                return Some(form);
            }
        }
    }
    None
}

// Returns the name that a form begins with.
fn name_of(form: &'static str) -> &'static str {
    match form.split_once(' ') {
        Some((name, _)) => name,
        None => form,
    }
}

/// All commands of the grammar.
pub(crate) static GROUPS: [Group; 7] = [
    Group {
        title: "Keys",
        lines: &[
            ("add-key HEX", "claim the key of these 32 to 64 bytes"),
            ("remove-key KEYREF", "remove the claim on the key"),
            ("remove-key-all KEYREF", "remove every user's claim on it"),
            ("key-status KEYREF", "whether the key is there"),
        ],
    },
    Group {
        title: "Policies of directories",
        lines: &[
            (
                "set-policy PATH KEYREF PAD [UNIT]",
                "encrypt an empty directory",
            ),
            (
                "set-policy-bytes PATH HEX",
                "the same by the 24 bytes of a policy",
            ),
            ("get-policy PATH", "the policy of a node"),
        ],
    },
    Group {
        title: "Names",
        lines: &[
            ("mkdir PATH", "make a directory"),
            ("create PATH", "make an empty file"),
            ("symlink PATH TARGET", "make a symlink"),
            ("readlink PATH", "a symlink's target"),
            ("unlink PATH", "take away the name of a file or symlink"),
            ("rmdir PATH", "take away an empty directory's name"),
            ("rename PATH PATH", "move a node to another name"),
            (
                "list PATH [START]",
                "at most 128 names, from this number on",
            ),
            ("stat PATH", "what a node is"),
        ],
    },
    Group {
        title: "Contents",
        lines: &[
            ("open PATH", "a handle"),
            ("close HANDLE", "the end of a handle"),
            (
                "read HANDLE OFFSET LENGTH",
                "at most that many bytes, up to 4096",
            ),
            ("write HANDLE OFFSET HEX", "these bytes, or none for -"),
            (
                "fill HANDLE OFFSET LENGTH BYTE",
                "one byte that many times, 0 to 255",
            ),
            ("drop-caches", "drop what is cached for speed"),
        ],
    },
    Group {
        title: "Records",
        lines: &[
            ("meta-get RECORD", "a record and its version"),
            (
                "meta-put RECORD VERSION HEX",
                "store one in place of this version",
            ),
        ],
    },
    Group {
        title: "Sessions",
        lines: &[
            ("protector PROTECTOR NEWSECRET", "make a protector"),
            (
                "protector-change PROTECTOR SECRET NEWSECRET",
                "give it another secret",
            ),
            ("protector-link PROTECTOR", "link to it on another mount"),
            (
                "policy-new POLICY PROTECTOR SECRET [PAD UNIT]",
                "make a policy",
            ),
            (
                "policy-add POLICY PROTECTOR SECRET ADDED SECRET",
                "add the protector ADDED",
            ),
            ("policy-drop POLICY PROTECTOR", "remove a protector"),
            ("unlock POLICY PROTECTOR SECRET", "add a policy's key"),
            ("lock POLICY", "remove the claim on a policy's key"),
            ("status POLICY", "the state of a policy's key"),
            (
                "encrypt PATH POLICY [PAD [UNIT]]",
                "encrypt an empty directory under it",
            ),
            ("migrate POLICY", "give it the options of version 2"),
        ],
    },
    Group {
        title: "Turns",
        lines: &[("pause", "no call: the turn passes")],
    },
];
