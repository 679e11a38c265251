//! Versions of the format.

/// A version of the format.
#[derive(Clone, Copy)]
pub(crate) enum Version {
    /// The first.
    One,
    /// The one with blend modes, isolation and scroll offsets.
    Two,
}

impl Version {
    ghost use Rattle.std.specs.Prelude.{◌≡◌};
    ghost use Rattle.rd_scene.specs.Versions.{number_of};

    /// The number that a script tells it by.
    pub(crate) fn number(self) -> u8
        ensures { result ≡ number_of self }
    {
        match self {
            Version::One => 1,
            Version::Two => 2,
        }
    }
}
