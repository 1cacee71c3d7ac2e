//! In which version something is spelled.
ghost use Rattle.std.specs.Prelude.{◌≡◌};
ghost use Rattle.syn_model.specs.Version.{version_number};
ghost use Rattle.syn_wire.specs.Versions.{version_of};

/// A version of the spellings. They differ in what is spelled of a file, and in a changed mode.
#[derive(Clone, Copy, Debug, PartialEq, Eq)]
pub enum Version {
    /// The first: no mode is spelled, and each file has that of a new one.
    One,
    /// The present one, in which all is written: a file and a mark are spelled with their mode.
    Two,
}

impl Version {
    /// Its number, as an image has it.
    pub fn number(self) -> u8
        ensures { result ≡ version_number (version_of self) }
    {
        match self {
            Version::One => 1,
            Version::Two => 2,
        }
    }
}
