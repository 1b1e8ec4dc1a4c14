//! The text of a reply.

ghost use Rattle.std.specs.Prelude.{◌≡◌, ◌++◌, OnOk, codes};
ghost use Rattle.text_words.specs.Numbers.{decimal_of};
ghost use Rattle.reply_text.specs.Words.{state_text, kind_text, refusal_name, refusal_text, version_text};
ghost use Rattle.reply_text.specs.Names.{bytes_text};
ghost use Rattle.reply_text.specs.Replies.{reply_text, removed_text, status_reply_text};
ghost use Rattle.reply_text.specs.Replies.{listing_text, stat_text};

use crate::fields::{put_bytes, put_digits, put_flag, put_number};
use crate::names::{put_names, put_word};
use item_list::Bytes;
use mount_model::{KeyState, NodeKind, Refusal, Reply};
use std::alloc::AllocError;
use text_words::push_decimal;

// Appends a reply to the text.
pub(crate) fn put_reply(text: &mut Vec<u8>, reply: &Reply) -> Result<(), AllocError>
    ensures { OnOk result (text.new.items ≡ text.old.items ++ reply_text reply.now) }
{
    match reply {
        Reply::Added(id) => put_digits(text, b"added ", &id.0),
        Reply::Removed { others, busy } => put_removed(text, *others, *busy),
        Reply::Status {
            state,
            by_self,
            users,
        } => put_status(text, *state, *by_self, *users),
        Reply::Done => text.extend_from_slice(b"ok"),
        Reply::PolicyIs(policy) => put_digits(text, b"policy ", policy),
        Reply::Names { names, more } => put_listing(text, names.as_slice(), *more),
        Reply::Stat {
            kind,
            node,
            size,
            encrypted,
            keyed,
        } => put_stat(text, *kind, *node, *size, *encrypted, *keyed),
        Reply::Opened(number) => put_number(text, b"handle ", u64::from(*number)),
        Reply::Content(bytes) => put_bytes(text, b"data ", bytes.as_slice()),
        Reply::Target(bytes) => put_word(text, b"target ", bytes.as_slice()),
        Reply::Held { version, bytes } => put_held(text, *version, bytes.as_slice()),
        Reply::Stored(version) => put_number(text, b"stored ", u64::from(*version)),
        Reply::Refused(refusal) => put_refusal(text, *refusal),
    }
}

// Appends names, and whether further ones follow, to the text.
fn put_listing(text: &mut Vec<u8>, names: &[Bytes], more: bool) -> Result<(), AllocError>
    ensures { OnOk result (text.new.items ≡ text.old.items ++ listing_text names.now more) }
{
    put_number(text, b"names ", names.len() as u64)?;
    put_flag(text, b" more=", more)?;
    put_names(text, names)
}

// Appends a record and its version to the text.
fn put_held(text: &mut Vec<u8>, version: u32, bytes: &[u8]) -> Result<(), AllocError>
    ensures { OnOk result (text.new.items ≡ text.old.items
        ++ (codes "record " ++ (decimal_of version ++ (codes " " ++ bytes_text bytes.now)))) }
{
    put_number(text, b"record ", u64::from(version))?;
    put_bytes(text, b" ", bytes)
}

// Appends a node's kind, number, size and encryption to the text.
fn put_stat(
    text: &mut Vec<u8>,
    kind: NodeKind,
    node: u32,
    size: u32,
    encrypted: bool,
    keyed: bool,
) -> Result<(), AllocError>
    ensures { OnOk result (text.new.items ≡ text.old.items ++ stat_text kind node size encrypted keyed) }
{
    text.extend_from_slice(b"stat ")?;
    text.extend_from_slice(kind_text(kind))?;
    put_number(text, b" ", u64::from(node))?;
    put_number(text, b" ", u64::from(size))?;
    put_flag(text, b" enc=", encrypted)?;
    put_flag(text, b" key=", keyed)
}

// Appends a refusal to the text.
fn put_refusal(text: &mut Vec<u8>, refusal: Refusal) -> Result<(), AllocError>
    ensures { OnOk result (text.new.items ≡ text.old.items ++ (codes "refused " ++ refusal_text refusal)) }
{
    text.extend_from_slice(b"refused ")?;
    text.extend_from_slice(refusal_name(refusal))?;
    put_version(text, refusal)
}

// Appends the version that a refusal contains to the text.
fn put_version(text: &mut Vec<u8>, refusal: Refusal) -> Result<(), AllocError>
    ensures { OnOk result (text.new.items ≡ text.old.items ++ version_text refusal) }
{
    if let Refusal::Changed { version } = refusal {
        push_decimal(text, u64::from(version))?;
    }
    Ok(())
}

// Appends the state of a key after the removal of a claim to the text.
fn put_removed(text: &mut Vec<u8>, others: bool, busy: bool) -> Result<(), AllocError>
    ensures { OnOk result (text.new.items ≡ text.old.items ++ removed_text others busy) }
{
    put_flag(text, b"removed others=", others)?;
    put_flag(text, b" busy=", busy)
}

// Appends the status of a key to the text.
fn put_status(
    text: &mut Vec<u8>,
    state: KeyState,
    by_self: bool,
    users: u32,
) -> Result<(), AllocError>
    ensures { OnOk result (text.new.items ≡ text.old.items ++ status_reply_text state by_self users) }
{
    text.extend_from_slice(b"status ")?;
    text.extend_from_slice(state_text(state))?;
    put_flag(text, b" self=", by_self)?;
    put_number(text, b" users=", u64::from(users))
}

fn kind_text(kind: NodeKind) -> &'static [u8]
    ensures { result.now ≡ kind_text kind }
{
    match kind {
        NodeKind::Dir => b"dir",
        NodeKind::File => b"file",
        NodeKind::Link => b"link",
    }
}

fn state_text(state: KeyState) -> &'static [u8]
    ensures { result.now ≡ state_text state }
{
    match state {
        KeyState::Absent => b"absent",
        KeyState::Present => b"present",
        KeyState::Incomplete => b"incomplete",
    }
}

/// Returns the name of a refusal, as it is in a log, with a space after it if a version follows.
pub fn refusal_name(refusal: Refusal) -> &'static [u8]
    ensures { result.now ≡ refusal_name refusal }
{
    match refusal {
        Refusal::NoKey => b"no-key",
        Refusal::Access => b"access",
        Refusal::Quota => b"quota",
        Refusal::Inval => b"inval",
        Refusal::Exists => b"exists",
        Refusal::NotFound => b"not-found",
        Refusal::NotDir => b"not-dir",
        Refusal::IsDir => b"is-dir",
        Refusal::NotEmpty => b"not-empty",
        Refusal::XDev => b"x-dev",
        Refusal::NoData => b"no-data",
        Refusal::BadHandle => b"bad-handle",
        Refusal::NameTooLong => b"name-too-long",
        Refusal::TooBig => b"too-big",
        Refusal::NoSpace => b"no-space",
        Refusal::NoKeyClash => b"no-key-clash",
        Refusal::Changed { .. } => b"changed ",
        Refusal::NoMemory => b"no-memory",
    }
}
