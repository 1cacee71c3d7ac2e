//! What a line of a script says.
use syn_disk::Leaves;
use syn_path::Side;
use syn_tree::Edit;
use syn_world::Machine;

/// A step of a script.
#[derive(Debug, Drop)]
pub enum Line {
    /// A user makes the edit on a side.
    Edit(Side, u32, Edit),
    /// A session begins, which prefers a side or none.
    Start(Option<Side>),
    /// Time passes.
    Tick,
    /// The messages from the first number to the last are delivered, none if the last is lower.
    Deliver(u64, u64),
    /// Each message that was not delivered yet is, the lowest number first.
    Drain,
    /// The machine writes a checkpoint.
    Checkpoint(Machine),
    /// The device call of the machine that has this number from now on fails; with 0 none does.
    Fail(Machine, u64),
    /// The machine makes so many device calls more, and is then down with its disk left so.
    Stop(Machine, u64, Leaves),
    /// The machine opens its image.
    Open(Machine),
    /// The machine opens its image again.
    Reopen(Machine),
}
