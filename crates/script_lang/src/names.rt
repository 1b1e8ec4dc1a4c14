//! The names of commands: the first word of a command's line.

ghost use Rattle.std.specs.Prelude.{◌≡◌, option_copied};
ghost use Rattle.std.specs.List.{find};
ghost use Rattle.script_lang.specs.Names as spec;
ghost use Rattle.script_lang.specs.VerbNames.{name_in};

use crate::verb::Verb;

/// The name of a command. Each belongs to one variant of `Verb`.
#[derive(Clone, Copy, Debug, PartialEq, Eq)]
pub enum CommandName {
    AddKey,
    RemoveKey,
    RemoveKeyAll,
    KeyStatus,
    SetPolicy,
    SetPolicyBytes,
    GetPolicy,
    Mkdir,
    Create,
    Symlink,
    ReadLink,
    Unlink,
    Rmdir,
    Rename,
    List,
    Stat,
    Open,
    Close,
    Read,
    Write,
    Fill,
    DropCaches,
    MetaGet,
    MetaPut,
    Protector,
    ProtectorChange,
    ProtectorLink,
    PolicyNew,
    PolicyAdd,
    PolicyDrop,
    Unlock,
    Lock,
    Status,
    Encrypt,
    Migrate,
    Pause,
}

// All names, those of plain calls first.
const ALL_NAMES: [CommandName; 36] = [
    CommandName::AddKey,
    CommandName::RemoveKey,
    CommandName::RemoveKeyAll,
    CommandName::KeyStatus,
    CommandName::SetPolicy,
    CommandName::SetPolicyBytes,
    CommandName::GetPolicy,
    CommandName::Mkdir,
    CommandName::Create,
    CommandName::Symlink,
    CommandName::ReadLink,
    CommandName::Unlink,
    CommandName::Rmdir,
    CommandName::Rename,
    CommandName::List,
    CommandName::Stat,
    CommandName::Open,
    CommandName::Close,
    CommandName::Read,
    CommandName::Write,
    CommandName::Fill,
    CommandName::DropCaches,
    CommandName::MetaGet,
    CommandName::MetaPut,
    CommandName::Protector,
    CommandName::ProtectorChange,
    CommandName::ProtectorLink,
    CommandName::PolicyNew,
    CommandName::PolicyAdd,
    CommandName::PolicyDrop,
    CommandName::Unlock,
    CommandName::Lock,
    CommandName::Status,
    CommandName::Encrypt,
    CommandName::Migrate,
    CommandName::Pause,
];

impl CommandName {
    /// Returns the name that the word is, if it is one.
    pub fn read(word: &[u8]) -> Option<CommandName>
        ensures { result ≡ spec.name_of word.now }
    {
        name_among(&ALL_NAMES, word).copied()
    }

    // Whether the word is the name.
    fn is_written(self, word: &[u8]) -> bool
        ensures { result ≡ spec.is_written word.now self }
    {
        self.text() == word
    }

    // The word that is the name.
    pub(crate) fn text(self) -> &'static [u8]
        ensures { result.now ≡ spec.name_text self }
    {
        match self {
            CommandName::AddKey => b"add-key",
            CommandName::RemoveKey => b"remove-key",
            CommandName::RemoveKeyAll => b"remove-key-all",
            CommandName::KeyStatus => b"key-status",
            CommandName::SetPolicy => b"set-policy",
            CommandName::SetPolicyBytes => b"set-policy-bytes",
            CommandName::GetPolicy => b"get-policy",
            CommandName::Mkdir => b"mkdir",
            CommandName::Create => b"create",
            CommandName::Symlink => b"symlink",
            CommandName::ReadLink => b"readlink",
            CommandName::Unlink => b"unlink",
            CommandName::Rmdir => b"rmdir",
            CommandName::Rename => b"rename",
            CommandName::List => b"list",
            CommandName::Stat => b"stat",
            CommandName::Open => b"open",
            CommandName::Close => b"close",
            CommandName::Read => b"read",
            CommandName::Write => b"write",
            CommandName::Fill => b"fill",
            CommandName::DropCaches => b"drop-caches",
            CommandName::MetaGet => b"meta-get",
            CommandName::MetaPut => b"meta-put",
            CommandName::Protector => b"protector",
            CommandName::ProtectorChange => b"protector-change",
            CommandName::ProtectorLink => b"protector-link",
            CommandName::PolicyNew => b"policy-new",
            CommandName::PolicyAdd => b"policy-add",
            CommandName::PolicyDrop => b"policy-drop",
            CommandName::Unlock => b"unlock",
            CommandName::Lock => b"lock",
            CommandName::Status => b"status",
            CommandName::Encrypt => b"encrypt",
            CommandName::Migrate => b"migrate",
            CommandName::Pause => b"pause",
        }
    }
}

// The name among these that the word is, if it is one.
fn name_among<'a>(names: &'a [CommandName], word: &[u8]) -> Option<&'a CommandName>
    ensures { option_copied result ≡ find (spec.is_written word.now) names.now }
{
    names.iter().find(|name| name.is_written(word))
}

impl Verb {
    /// Returns the name of the command.
    pub fn name(&self) -> CommandName
        ensures { result ≡ name_in self.now }
    {
        match self {
            Verb::AddKey(_) => CommandName::AddKey,
            Verb::RemoveKey(_) => CommandName::RemoveKey,
            Verb::RemoveKeyAll(_) => CommandName::RemoveKeyAll,
            Verb::KeyStatus(_) => CommandName::KeyStatus,
            Verb::SetPolicy { .. } => CommandName::SetPolicy,
            Verb::SetPolicyBytes { .. } => CommandName::SetPolicyBytes,
            Verb::GetPolicy(_) => CommandName::GetPolicy,
            Verb::Mkdir(_) => CommandName::Mkdir,
            Verb::Create(_) => CommandName::Create,
            Verb::Symlink { .. } => CommandName::Symlink,
            Verb::ReadLink(_) => CommandName::ReadLink,
            Verb::Unlink(_) => CommandName::Unlink,
            Verb::Rmdir(_) => CommandName::Rmdir,
            Verb::Rename { .. } => CommandName::Rename,
            Verb::List { .. } => CommandName::List,
            Verb::Stat(_) => CommandName::Stat,
            Verb::Open(_) => CommandName::Open,
            Verb::Close(_) => CommandName::Close,
            Verb::Read { .. } => CommandName::Read,
            Verb::Write { .. } => CommandName::Write,
            Verb::Fill { .. } => CommandName::Fill,
            Verb::DropCaches => CommandName::DropCaches,
            Verb::MetaGet(_) => CommandName::MetaGet,
            Verb::MetaPut { .. } => CommandName::MetaPut,
            Verb::Protector { .. } => CommandName::Protector,
            Verb::ProtectorChange { .. } => CommandName::ProtectorChange,
            Verb::ProtectorLink(_) => CommandName::ProtectorLink,
            Verb::PolicyNew { .. } => CommandName::PolicyNew,
            Verb::PolicyAdd { .. } => CommandName::PolicyAdd,
            Verb::PolicyDrop { .. } => CommandName::PolicyDrop,
            Verb::Unlock { .. } => CommandName::Unlock,
            Verb::Lock(_) => CommandName::Lock,
            Verb::Status(_) => CommandName::Status,
            Verb::Encrypt { .. } => CommandName::Encrypt,
            Verb::Migrate(_) => CommandName::Migrate,
            Verb::Pause => CommandName::Pause,
        }
    }
}
