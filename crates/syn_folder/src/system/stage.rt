//! How far a replacement at one path of a folder has come.

/// How far a replacement at one path of a folder has come, and where what stood there is.
#[derive(Clone, Copy, Debug, PartialEq, Eq)]
pub(super) enum Stage {
    /// Nothing was read at the path, and nothing was done there.
    Vacant,
    /// Something was read at the path. Nothing was done there, or what was moved away stands there
    /// again, and no note stands.
    Standing,
    /// A note names the path. Nothing was moved, or what was moved stands there again.
    Noted,
    /// What stood at the path lies in `.syn/kept`, and nobody looked whether it is what was read.
    Moved,
    /// What was read at the path lies in `.syn/kept`.
    Kept,
    /// Something else than what was read lies in `.syn/kept`.
    Strange,
    /// What is wanted stands at the path. What was read there lies in `.syn/kept`.
    Placed,
    /// The path has what is wanted there, no note stands, and all of it is synced.
    Done,
    /// What stood at the path stays in `.syn/kept`, since something else stands at the path by now.
    /// No note stands.
    Left,
}

impl Stage {
    /// A note may stand.
    pub(super) fn is_under_way(self) -> bool {
        match self {
            Stage::Vacant | Stage::Standing | Stage::Done | Stage::Left => false,
            Stage::Noted | Stage::Moved | Stage::Kept | Stage::Strange | Stage::Placed => true,
        }
    }
}
