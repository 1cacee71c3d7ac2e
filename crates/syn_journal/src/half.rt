//! The two halves of a disk.
ghost use Rattle.std.specs.Prelude.{◌≡◌};
ghost use Rattle.syn_journal.specs.Layout.{other_half, start_of};

use syn_disk::DISK_SIZE;

/// The number of bytes of a half.
pub const HALF_SIZE: usize = DISK_SIZE / 2;

/// Half of a disk. A checkpoint goes into the one that is not current.
#[derive(Clone, Copy, Debug, PartialEq, Eq)]
pub enum Half {
    First,
    Second,
}

impl Half {
    /// Where it begins on the disk.
    pub fn start(self) -> usize
        ensures { result ≡ start_of self }
    {
        match self {
            Half::First => 0,
            Half::Second => HALF_SIZE,
        }
    }

    /// The half across.
    pub fn other(self) -> Half
        ensures { result ≡ other_half self }
    {
        match self {
            Half::First => Half::Second,
            Half::Second => Half::First,
        }
    }
}
