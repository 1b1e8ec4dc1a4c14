//! The kinds of replies, for tests.

use item_list::Bytes;
use mount_model::{KeyId, KeyState, NameList, NodeKind, Refusal, Reply};
use std::alloc::Global;

// What a reply is: one of the twelve variants, or out of memory.
#[derive(Clone, Copy, PartialEq, Eq)]
pub(crate) enum Kind {
    Added,
    Removed,
    Status,
    Done,
    PolicyIs,
    Names,
    Stat,
    Opened,
    Content,
    Target,
    Held,
    Stored,
    Wanting,
}

pub(crate) static KINDS: [Kind; 13] = [
    Kind::Added,
    Kind::Removed,
    Kind::Status,
    Kind::Done,
    Kind::PolicyIs,
    Kind::Names,
    Kind::Stat,
    Kind::Opened,
    Kind::Content,
    Kind::Target,
    Kind::Held,
    Kind::Stored,
    Kind::Wanting,
];

// Returns a reply of this kind.
pub(crate) fn reply(alloc: Global, kind: Kind) -> Reply {
    match kind {
        Kind::Added => Reply::Added(KeyId([7; 16])),
        Kind::Removed => Reply::Removed {
            others: false,
            busy: false,
        },
        Kind::Status => Reply::Status {
            state: KeyState::Present,
            by_self: true,
            users: 1,
        },
        Kind::Done => Reply::Done,
        Kind::PolicyIs => Reply::PolicyIs([7; 24]),
        Kind::Names => Reply::Names {
            names: NameList::new(alloc),
            more: false,
        },
        Kind::Stat => Reply::Stat {
            kind: NodeKind::Dir,
            node: 1,
            size: 0,
            encrypted: false,
            keyed: false,
        },
        Kind::Opened => Reply::Opened(0),
        Kind::Content => Reply::Content(Bytes::new(alloc)),
        Kind::Target => Reply::Target(Bytes::new(alloc)),
        Kind::Held => Reply::Held {
            version: 1,
            bytes: Bytes::new(alloc),
        },
        Kind::Stored => Reply::Stored(1),
        Kind::Wanting => Reply::Refused(Refusal::NoMemory),
    }
}
