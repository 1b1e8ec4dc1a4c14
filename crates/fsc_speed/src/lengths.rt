//! The lengths and numbers in a kernel's name.
ghost use Rattle.std.specs.Prelude.{◌≡◌, ◌<◌, ◌≤◌, ◌%◌};

/// The length in bytes of a name or text that is encrypted with ciphertext stealing.
#[derive(Clone, Copy)]
pub(crate) struct TextLength {
    bytes: usize,
    ghost one_block: { 16 ≤ bytes },
}

impl TextLength {
    pub(crate) fn read(digits: &str) -> Option<TextLength> {
        match digits.parse::<usize>() {
            Ok(bytes) if bytes >= 16 && bytes <= 65536 => Some(TextLength { bytes }),
            _ => None,
        }
    }

    pub(crate) fn bytes(self) -> usize
        ensures one_block { 16 ≤ result }
    {
        self.bytes
    }
}

/// The length of a unit of XTS in bytes: whole blocks, and at least one.
#[derive(Clone, Copy)]
pub(crate) struct UnitLength {
    bytes: usize,
    ghost one_block: { 16 ≤ bytes },
    ghost whole_blocks: { bytes % 16 ≡ 0 },
}

impl UnitLength {
    pub(crate) fn read(digits: &str) -> Option<UnitLength> {
        match digits.parse::<usize>() {
            Ok(bytes) if bytes >= 16 && bytes % 16 == 0 && bytes <= 65536 => {
                Some(UnitLength { bytes })
            }
            _ => None,
        }
    }

    pub(crate) fn bytes(self) -> usize
        ensures one_block { 16 ≤ result }
        ensures whole_blocks { result % 16 ≡ 0 }
    {
        self.bytes
    }
}

/// The number of nodes, entries or names: at least one.
#[derive(Clone, Copy)]
pub(crate) struct ItemCount {
    items: u32,
    ghost some: { 0 < items },
}

impl ItemCount {
    /// Returns the number in the digits, unless it is 0 or higher than `most`.
    pub(crate) fn read(digits: &str, most: u32) -> Option<ItemCount> {
        match digits.parse::<u32>() {
            Ok(items) if items > 0 && items <= most => Some(ItemCount { items }),
            _ => None,
        }
    }

    pub(crate) fn items(self) -> u32
        ensures some { 0 < result }
    {
        self.items
    }

    /// Returns a place below the number, another one for each run.
    pub(crate) fn place(self, run: u32) -> u32 {
        run.wrapping_mul(2654435761) % self.items
    }
}
