//! A world of two sides and a coordinator: what it shows, and its steps.
ghost use Rattle.std.specs.Prelude.{◌≡◌, Some, false, is_some, option_map, true};

use crate::CoordinatorHost;
use crate::lists::{Ack, Message};
use crate::running::Running;
use syn_archive::Archive;
use syn_disk::Disk;
use syn_path::Side;
use syn_refusal::Refusal;
use syn_replica::Replica;
use syn_session::Report;

mod steps;

/// What three disks hold.
#[derive(Drop)]
pub struct Disks<D> {
    pub left: D,
    pub right: D,
    pub archive: D,
}

/// A world of two sides and a coordinator, with what was heard since it was opened.
///
/// Where memory is refused for what it keeps of a step, it makes no further one: each is refused 11
/// from then on. What it showed then stays, with what it has of that step.
#[derive(Drop)]
pub struct World<D: Disk> {
    /// A step takes it out, and puts it back.
    running: Option<Running<D>>,
    /// A step was refused 11.
    is_spent: bool,
    ghost there: { is_some running ≡ true },
}

impl<D: Disk> World<D> {
    ghost use Rattle.syn_world.specs.Worlds.{acknowledged_in, archive_in, is_spent};
    ghost use Rattle.syn_world.specs.Worlds.{refusals_in, replica_in, reports_in, running_in};
    ghost use Rattle.syn_world.specs.Worlds.{sent_in};

    /// A world of these machines and lists.
    pub(crate) fn of(running: Running<D>) -> World<D>
        ensures running { running_in result ≡ Some running }
        ensures goes { is_spent result ≡ false }
    {
        World {
            running: Some(running),
            is_spent: false,
        }
    }

    /// The messages that were ever sent, in order.
    pub fn sent(&self) -> &[Message]
        ensures { result.now ≡ sent_in self.now }
    {
        match &self.running {
            Some(running) => &running.lists.sent,
            None => &[],
        }
    }

    /// What was acknowledged, and what an opening recovered, in order of time over the three
    /// machines.
    pub fn acknowledged(&self) -> &[Ack]
        ensures { result.now ≡ acknowledged_in self.now }
    {
        match &self.running {
            Some(running) => &running.lists.acknowledged,
            None => &[],
        }
    }

    /// What a user's edit, a start, a checkpoint or an opening was refused with, in order.
    pub fn refusals(&self) -> &[Refusal]
        ensures { result.now ≡ refusals_in self.now }
    {
        match &self.running {
            Some(running) => &running.lists.refusals,
            None => &[],
        }
    }

    /// The reports of the sessions that ended, in order, each with how long `acknowledged` was as
    /// it ended.
    pub fn reports(&self) -> &[(Report, usize)]
        ensures { result.now ≡ reports_in self.now }
    {
        match &self.running {
            Some(running) => &running.lists.reports,
            None => &[],
        }
    }

    /// The replica of a side; none while its machine is down.
    pub fn replica(&self, side: Side) -> Option<&Replica<D>>
        ensures { option_map (λ replica. replica.now) result ≡ replica_in self.now side }
    {
        let running = self.running.as_ref()?;
        match side {
            Side::Left => running.left.replica(),
            Side::Right => running.right.replica(),
        }
    }

    /// The coordinator's archive; none while its machine is down.
    pub fn archive(&self) -> Option<&Archive<D>>
        ensures { option_map (λ archive. archive.now) result ≡ archive_in self.now }
    {
        match &self.running.as_ref()?.coordinator {
            CoordinatorHost::Up(coordinator) => Some(coordinator.archive()),
            CoordinatorHost::Down(_) => None,
        }
    }
}
