//! A side of a world, whose machine is up or down.

use crate::outcome::SideOutcome;
use syn_agent::Agent;
use syn_disk::Disk;
use syn_message::Reply;
use syn_replica::Replica;

mod checkpoint;
mod events;
mod host;
mod open;
mod start;
mod stop;

pub use start::start_side;

/// A side whose machine is up: its replica, and the agent of its connection.
#[derive(Drop)]
pub struct UpSide<D: Disk> {
    pub(crate) replica: Replica<D>,
    pub(crate) agent: Agent,
}

/// A side whose machine is down: its disk, and what the world knows of it. That is how many events
/// were acknowledged, and how the event is spelled that was sent to the disk last.
#[derive(Drop)]
pub struct DownSide<D: Disk> {
    pub(crate) disk: D,
    pub(crate) position: u64,
    pub(crate) tried: Option<Vec<u8>>,
}

/// A side of a world.
#[derive(Drop)]
pub enum SideHost<D: Disk> {
    Up(UpSide<D>),
    Down(DownSide<D>),
}

/// A side after a step, with what came of it.
#[derive(Drop)]
pub struct SideCall<D: Disk> {
    pub side: SideHost<D>,
    pub outcome: SideOutcome,
}

/// A side after a request, with its reply. There is none where its machine is down.
#[derive(Drop)]
pub struct SideAnswer<D: Disk> {
    pub call: SideCall<D>,
    pub reply: Option<Reply>,
}
