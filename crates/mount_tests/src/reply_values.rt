//! The content of replies. Each function takes its reply by value, so that no test owns one.

use mount_model::{KeyId, Refusal, Reply};

pub(crate) fn is_done(reply: Reply) -> bool {
    matches!(reply, Reply::Done)
}

pub(crate) fn is_refused(reply: Reply, why: Refusal) -> bool {
    matches!(reply, Reply::Refused(told) if told == why)
}

/// Returns the key that was added, if one was.
pub(crate) fn id_of_added_key(reply: Reply) -> Option<KeyId> {
    match reply {
        Reply::Added(id) => Some(id),
        _ => None,
    }
}

/// Returns whether the claim was removed, with these answers: whether others have a claim, and whether
/// the key is busy.
pub(crate) fn is_removed(reply: Reply, others: bool, busy: bool) -> bool {
    matches!(reply, Reply::Removed { others: some, busy: is_busy } if some == others && is_busy == busy)
}

/// Returns the handle that was opened, if one was.
pub(crate) fn opened_handle(reply: Reply) -> Option<u32> {
    match reply {
        Reply::Opened(handle) => Some(handle),
        _ => None,
    }
}

/// Returns the version under which a record was stored, if it was.
pub(crate) fn stored_version(reply: Reply) -> Option<u32> {
    match reply {
        Reply::Stored(version) => Some(version),
        _ => None,
    }
}
