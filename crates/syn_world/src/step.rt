//! The steps of a world.

use crate::machine::Machine;
use syn_path::Side;
use syn_tree::Edit;

/// A step of the world. On a machine that is down it does nothing, unless it opens it.
#[derive(Debug, Drop)]
pub enum Step {
    /// A user, who has this number, makes an edit at a side.
    Edit(Side, u32, Edit),
    /// The coordinator starts a session, which prefers a side or none.
    Start(Option<Side>),
    /// The message that was sent with this number is delivered, again if it was before. The first
    /// has the number 0. One that was never sent does nothing.
    Deliver(usize),
    /// Some time goes by at the coordinator without an answer.
    Tick,
    /// The machine makes a checkpoint.
    Checkpoint(Machine),
    /// The device call of the machine with this number from now on fails; at 0 none does.
    Fail(Machine, u64),
    /// So many device calls of the machine are still made, and it stops after the last of them. At
    /// 0 it stops at once.
    Stop(Machine, u64),
    /// The machine is started again, if it is down. A halted one stays as it is.
    Open(Machine),
    /// The machine opens its own disk again, unless it is down.
    Reopen(Machine),
}
