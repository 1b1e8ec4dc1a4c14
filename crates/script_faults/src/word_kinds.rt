//! The kinds that the words after a command's name must be of.

ghost use Rattle.std.specs.Prelude.{◌≡◌, IfOk};
ghost use Rattle.script_faults.specs.WordKinds as spec;
ghost use Rattle.script_faults.specs.WordTests as tests;

use script_lang::{
    CommandName, MAX_ADDED_BYTES, MAX_FILLED_BYTES, MAX_PUT_BYTES, MAX_WRITTEN_BYTES, POLICY_BYTES,
};
use script_words::{
    read_byte, read_hex, read_hex_or_none, read_key_ref, read_new_secret, read_number_up_to,
    read_pad, read_path, read_record, read_secret, read_target, read_unit,
};
use short_bytes::Label;
use std::alloc::{AllocError, Global};
use text_words::{decimal_value, hex_bytes};
use thiserror::Error;

/// The kind of a word. Its text names the word of the grammar and its values.
#[derive(Clone, Copy, Debug, PartialEq, Eq, Error)]
pub enum WordKind {
    #[error("number from 0 to 4294967295")]
    Number,
    #[error("number from 0 to 65536")]
    FilledLength,
    #[error("number from 0 to 255")]
    Byte,
    #[error("padding (4, 8, 16 or 32)")]
    Pad,
    #[error("unit (0, 9, 10, 11 or 12)")]
    Unit,
    #[error("key (id: and 32 digits, or raw: and 64 to 128)")]
    Key,
    #[error("label (1 to 32 of a-z, 0-9, _ and -)")]
    Label,
    #[error("record (protector/LABEL or policy/LABEL)")]
    Record,
    #[error("policy (48 hexadecimal digits)")]
    PolicyBytes,
    #[error("path (/, or / before each of 1 to 32 parts)")]
    Path,
    #[error("target (1 to 1000 bytes, none of them NUL)")]
    Target,
    #[error("row of 1 to 128 bytes in hexadecimal")]
    AddedBytes,
    #[error("row of 1 to 4096 bytes in hexadecimal, or -")]
    WrittenBytes,
    #[error("row of 1 to 9000 bytes in hexadecimal, or -")]
    PutBytes,
    #[error("secret (raw: and 64 digits, or pass:PASSPHRASE)")]
    Secret,
    #[error("new secret (raw: and 64 digits, or pass:PASSES:KIB:LANES:PASSPHRASE)")]
    NewSecret,
}

impl WordKind {
    // Whether the word is one of this kind.
    pub(crate) fn is_met(self, alloc: Global, word: &[u8]) -> Result<bool, AllocError>
        ensures { IfOk result (λ met. met ≡ tests.is_one self word.now) }
    {
        match self {
            WordKind::Number => Ok(decimal_value(word).is_some()),
            WordKind::FilledLength => Ok(read_number_up_to(word, MAX_FILLED_BYTES).is_some()),
            WordKind::Byte => Ok(read_byte(word).is_some()),
            WordKind::Pad => Ok(read_pad(word).is_some()),
            WordKind::Unit => Ok(read_unit(word).is_some()),
            WordKind::Key => Ok(read_key_ref(word).is_some()),
            WordKind::Label => Ok(Label::read(word).is_some()),
            WordKind::Record => Ok(read_record(word).is_some()),
            WordKind::PolicyBytes => Ok(hex_bytes::<POLICY_BYTES>(word).is_some()),
            WordKind::Path => Ok(read_path(alloc, word)?.is_some()),
            WordKind::Target => Ok(read_target(alloc, word)?.is_some()),
            WordKind::AddedBytes => Ok(read_hex(alloc, word, 1, MAX_ADDED_BYTES)?.is_some()),
            WordKind::WrittenBytes => {
                Ok(read_hex_or_none(alloc, word, MAX_WRITTEN_BYTES)?.is_some())
            }
            WordKind::PutBytes => Ok(read_hex_or_none(alloc, word, MAX_PUT_BYTES)?.is_some()),
            WordKind::Secret => Ok(read_secret(alloc, word)?.is_some()),
            WordKind::NewSecret => Ok(read_new_secret(alloc, word)?.is_some()),
        }
    }
}

// The kinds that the words of these commands must be of.
const SET_POLICY: [WordKind; 4] = [WordKind::Path, WordKind::Key, WordKind::Pad, WordKind::Unit];

const FILL: [WordKind; 4] = [
    WordKind::Number,
    WordKind::Number,
    WordKind::FilledLength,
    WordKind::Byte,
];

const PROTECTOR_CHANGE: [WordKind; 3] = [WordKind::Label, WordKind::Secret, WordKind::NewSecret];

const POLICY_NEW: [WordKind; 5] = [
    WordKind::Label,
    WordKind::Label,
    WordKind::Secret,
    WordKind::Pad,
    WordKind::Unit,
];

const POLICY_ADD: [WordKind; 5] = [
    WordKind::Label,
    WordKind::Label,
    WordKind::Secret,
    WordKind::Label,
    WordKind::Secret,
];

const ENCRYPT: [WordKind; 4] = [
    WordKind::Path,
    WordKind::Label,
    WordKind::Pad,
    WordKind::Unit,
];

// The kinds that the words after the name must be of, optional ones too.
pub(crate) fn kinds_of(name: CommandName) -> &'static [WordKind]
    ensures { result.now ≡ spec.kinds_of name }
{
    match name {
        CommandName::AddKey => &[WordKind::AddedBytes],
        CommandName::RemoveKey => &[WordKind::Key],
        CommandName::RemoveKeyAll => &[WordKind::Key],
        CommandName::KeyStatus => &[WordKind::Key],
        CommandName::SetPolicy => &SET_POLICY,
        CommandName::SetPolicyBytes => &[WordKind::Path, WordKind::PolicyBytes],
        CommandName::GetPolicy => &[WordKind::Path],
        CommandName::Mkdir => &[WordKind::Path],
        CommandName::Create => &[WordKind::Path],
        CommandName::Symlink => &[WordKind::Path, WordKind::Target],
        CommandName::ReadLink => &[WordKind::Path],
        CommandName::Unlink => &[WordKind::Path],
        CommandName::Rmdir => &[WordKind::Path],
        CommandName::Rename => &[WordKind::Path, WordKind::Path],
        CommandName::List => &[WordKind::Path, WordKind::Number],
        CommandName::Stat => &[WordKind::Path],
        CommandName::Open => &[WordKind::Path],
        CommandName::Close => &[WordKind::Number],
        CommandName::Read => &[WordKind::Number, WordKind::Number, WordKind::Number],
        CommandName::Write => &[WordKind::Number, WordKind::Number, WordKind::WrittenBytes],
        CommandName::Fill => &FILL,
        CommandName::DropCaches => &[],
        CommandName::MetaGet => &[WordKind::Record],
        CommandName::MetaPut => &[WordKind::Record, WordKind::Number, WordKind::PutBytes],
        CommandName::Protector => &[WordKind::Label, WordKind::NewSecret],
        CommandName::ProtectorChange => &PROTECTOR_CHANGE,
        CommandName::ProtectorLink => &[WordKind::Label],
        CommandName::PolicyNew => &POLICY_NEW,
        CommandName::PolicyAdd => &POLICY_ADD,
        CommandName::PolicyDrop => &[WordKind::Label, WordKind::Label],
        CommandName::Unlock => &[WordKind::Label, WordKind::Label, WordKind::Secret],
        CommandName::Lock => &[WordKind::Label],
        CommandName::Status => &[WordKind::Label],
        CommandName::Encrypt => &ENCRYPT,
        CommandName::Migrate => &[WordKind::Label],
        CommandName::Pause => &[],
    }
}
