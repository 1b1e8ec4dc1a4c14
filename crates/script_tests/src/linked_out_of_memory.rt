//! Each command of a caller on two mounts, with out of memory as the reply to each of its calls, on its own
//! mount and on the far one.

use crate::linked_commands::{Asked, On, first_wrong};

// Each command, and the calls that it makes. The record of a new protector is on the mount where it is
// stored, since no link has its name. The key whose claim a lock removes isn't there, so a removal that is
// made is refused. Another program computed its identifier.
static COMMANDS: [(&str, &[Asked]); 12] = [
    (
        "protector other raw:3333333333333333333333333333333333333333333333333333333333333333\n",
        &[
            (On::Own, "meta-get protector/other"),
            (On::Own, "meta-put protector/other 0 238"),
        ],
    ),
    (
        "protector-link far\n",
        &[
            (On::Own, "meta-get protector/far"),
            (On::Own, "meta-put protector/far 0 20"),
        ],
    ),
    (
        "protector-change login raw:1111111111111111111111111111111111111111111111111111111111111111 \
        raw:3333333333333333333333333333333333333333333333333333333333333333\n",
        &[
            (On::Own, "meta-get protector/login"),
            (On::Far, "meta-get protector/login"),
            (On::Own, "meta-get protector/login"),
            (On::Far, "meta-put protector/login 1 238"),
        ],
    ),
    (
        "protector-change here raw:4444444444444444444444444444444444444444444444444444444444444444 \
        raw:3333333333333333333333333333333333333333333333333333333333333333\n",
        &[
            (On::Own, "meta-get protector/here"),
            (On::Own, "meta-get protector/here"),
            (On::Own, "meta-put protector/here 1 237"),
        ],
    ),
    (
        "policy-new other login raw:1111111111111111111111111111111111111111111111111111111111111111\n",
        &[
            (On::Own, "meta-get protector/login"),
            (On::Far, "meta-get protector/login"),
            (On::Own, "meta-put policy/other 0 311"),
        ],
    ),
    (
        "policy-add docs login raw:1111111111111111111111111111111111111111111111111111111111111111 \
        third raw:3333333333333333333333333333333333333333333333333333333333333333\n",
        &[
            (On::Own, "meta-get protector/login"),
            (On::Far, "meta-get protector/login"),
            (On::Own, "meta-get policy/docs"),
            (On::Own, "meta-get protector/third"),
            (On::Far, "meta-get protector/third"),
            (On::Own, "meta-put policy/docs 2 786"),
        ],
    ),
    (
        "policy-drop docs spare\n",
        &[
            (On::Own, "meta-get policy/docs"),
            (On::Own, "meta-put policy/docs 2 310"),
        ],
    ),
    (
        "unlock docs login raw:1111111111111111111111111111111111111111111111111111111111111111\n",
        &[
            (On::Own, "meta-get protector/login"),
            (On::Far, "meta-get protector/login"),
            (On::Own, "meta-get policy/docs"),
            (On::Own, "add-key 64"),
        ],
    ),
    (
        "lock docs\n",
        &[
            (On::Own, "meta-get policy/docs"),
            (On::Own, "remove-key a7bbd1f57f400b21f1a9557b4e7e8f2e"),
        ],
    ),
    (
        "status docs\n",
        &[
            (On::Own, "meta-get policy/docs"),
            (On::Own, "key-status a7bbd1f57f400b21f1a9557b4e7e8f2e"),
        ],
    ),
    (
        "encrypt /e docs\n",
        &[
            (On::Own, "meta-get policy/docs"),
            (
                On::Own,
                "set-policy /e 0201040300000000a7bbd1f57f400b21f1a9557b4e7e8f2e",
            ),
        ],
    ),
    (
        "migrate old\n",
        &[
            (On::Own, "meta-get policy/old"),
            (On::Own, "meta-put policy/old 1 309"),
        ],
    ),
];

#[test]
fn each_command_wants_memory_at_each_call(rt: HostRuntime) {
    for (command, calls) in &COMMANDS {
        assert!(rt;
            first_wrong(&rt, rt.alloc(), command, calls).is_none(),
            "{command}"
        );
    }
}
