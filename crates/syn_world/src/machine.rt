//! The machines of a world by name.
use syn_path::Side;

/// A machine of the simulated world.
#[derive(Clone, Copy, Debug, PartialEq, Eq)]
pub enum Machine {
    /// The machine that has the replica of a side.
    Side(Side),
    /// The machine that keeps the archive and runs the sessions.
    Coordinator,
}
