//! The number of calling threads, for the kernels of the shared machines and of the shared mount.
ghost use Rattle.std.specs.Prelude.{◌≡◌, ◌<◌};
ghost use Rattle.fsc_speed.specs.Callers.{number_of};

/// The number of calling threads, each under a number of its own.
#[derive(Clone, Copy)]
pub(crate) enum Callers {
    One,
    Two,
    Four,
}

impl Callers {
    /// Returns the callers for the digits `1`, `2` or `4`; `None` for others.
    pub(crate) fn read(digits: &str) -> Option<Callers> {
        match digits {
            "1" => Some(Callers::One),
            "2" => Some(Callers::Two),
            "4" => Some(Callers::Four),
            _ => None,
        }
    }

    /// Returns their number: 1, 2 or 4.
    pub(crate) fn count(self) -> u32
        ensures value { result ≡ number_of self }
        ensures some { 0 < result }
    {
        match self {
            Callers::One => 1,
            Callers::Two => 2,
            Callers::Four => 4,
        }
    }
}
