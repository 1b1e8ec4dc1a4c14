//! The encryption settings of a directory: its policy, and the context that is stored with each node.

ghost use Rattle.std.specs.Prelude.{◌≡◌, ◌↔◌, IsTrue};
ghost use Rattle.policy_ctx.specs.Settings.{pad_of_size, unit_of_log2};
ghost use Rattle.policy_ctx.specs.Policy.{pad_size, unit_bytes, unit_log2};

/// The identifier of a master key, derived from the key.
#[derive(Clone, Copy, Debug, PartialEq, Eq, PartialOrd, Ord, Hash)]
pub struct KeyId(pub [u8; 16]);

/// The padding of names: a stored name is padded to a multiple of this many bytes.
#[derive(Clone, Copy, Debug, PartialEq, Eq)]
pub enum Pad {
    P4,
    P8,
    P16,
    P32,
}

impl Pad {
    /// Returns the padding to this many bytes: to 4, 8, 16 or 32; `None` for any other number.
    pub fn of_size(size: u32) -> Option<Pad>
        ensures { result ≡ pad_of_size size }
    {
        match size {
            4 => Some(Pad::P4),
            8 => Some(Pad::P8),
            16 => Some(Pad::P16),
            32 => Some(Pad::P32),
            _ => None,
        }
    }

    /// Returns the number of bytes: 4, 8, 16 or 32.
    pub fn size(self) -> usize
        ensures { result ≡ pad_size self }
    {
        match self {
            Pad::P4 => 4,
            Pad::P8 => 8,
            Pad::P16 => 16,
            Pad::P32 => 32,
        }
    }
}

/// The unit of contents: how many bytes are encrypted as one. `Block` and `U4096` encrypt alike, and are
/// two policies.
#[derive(Clone, Copy, Debug, PartialEq, Eq)]
pub enum Unit {
    Block,
    U512,
    U1024,
    U2048,
    U4096,
}

impl Unit {
    /// Returns the unit that a policy writes as this number: 0 is `Block`, 9 to 12 are logarithms to base
    /// 2. `None` for any other number.
    pub fn of_log2(log: u32) -> Option<Unit>
        ensures { result ≡ unit_of_log2 log }
    {
        match log {
            0 => Some(Unit::Block),
            9 => Some(Unit::U512),
            10 => Some(Unit::U1024),
            11 => Some(Unit::U2048),
            12 => Some(Unit::U4096),
            _ => None,
        }
    }

    /// Returns its number in a policy: 0 for `Block`, else the logarithm to base 2 of its bytes.
    pub fn log2(self) -> u8
        ensures { result ≡ unit_log2 self }
    {
        match self {
            Unit::Block => 0,
            Unit::U512 => 9,
            Unit::U1024 => 10,
            Unit::U2048 => 11,
            Unit::U4096 => 12,
        }
    }

    /// Returns the number of bytes: 512, 1,024, 2,048 or 4,096.
    pub fn size(self) -> usize
        ensures { result ≡ unit_bytes self }
    {
        match self {
            Unit::U512 => 512,
            Unit::U1024 => 1024,
            Unit::U2048 => 2048,
            Unit::Block | Unit::U4096 => 4096,
        }
    }
}

/// How the names and contents below a directory are encrypted: AES-256-XTS for contents, AES-256-CBC-CTS
/// for names, under keys derived from the master key of this identifier.
#[derive(Clone, Copy, Debug, PartialEq, Eq)]
pub struct Policy {
    /// The padding of stored names.
    pub pad: Pad,
    /// The unit of contents.
    pub unit: Unit,
    /// Whether all nodes share a key for each mode (IV_INO_LBLK_64). Else each has its own.
    pub by_mode: bool,
    /// The master key.
    pub id: KeyId,
}

/// The context of an encrypted node: its policy, and the nonce that its own keys are derived with.
#[derive(Clone, Copy, Debug, PartialEq, Eq)]
pub struct Context {
    pub policy: Policy,
    pub nonce: [u8; 16],
}

/// Returns whether two policies are the same, in each setting and in the key.
pub fn same_policy(a: &Policy, b: &Policy) -> bool
    ensures { IsTrue result ↔ (a.now ≡ b.now) }
{
    a == b
}
