//! The machines of a world that runs, with its lists, and each kind of step.
ghost use Rattle.std.specs.Prelude.{◌≡◌, [], IfSome, List, option_map};
ghost use Rattle.syn_machine.specs.Coordinator.{Call};
ghost use Rattle.syn_runs.specs.World.{World as ModelWorld, says};
ghost use Rattle.syn_message.specs.Replies.{IsLawfulReply, reply_of};
ghost use Rattle.syn_path.specs.Sides.{which_of};
ghost use Rattle.syn_model.specs.Event.{Event};
ghost use Rattle.syn_model.specs.Refusal.{Refusal as Cause};

use crate::lists::Lists;
use crate::{CoordinatorHost, CoordinatorOutcome, SideHost, SideOutcome, SimulatedDisk};
use syn_disk::Disk;
use syn_message::Reply;
use syn_path::Side;

mod coordinators;
mod deliver;
mod disks;
mod machines;
mod openings;
mod run;
mod sessions;
mod sides;

/// The machines of a world, with its lists. Each step takes them and gives them back, as an error
/// where memory was refused for what the world keeps.
#[derive(Drop)]
pub struct Running<D: Disk> {
    pub(crate) pair: u64,
    pub(crate) left: SideHost<D>,
    pub(crate) right: SideHost<D>,
    pub(crate) coordinator: CoordinatorHost<D>,
    pub(crate) lists: Lists,
}

impl<D: SimulatedDisk> Running<D> {
    ghost use Rattle.syn_world.specs.Outcomes.{Acknowledges, Tells, refused_in};
    ghost use Rattle.syn_world.specs.Failures.{disks_in, last_of};
    ghost use Rattle.syn_world.specs.Worlds.{EndsSo, Goes, Grows, GrowsBy, IsListed};
    ghost use Rattle.syn_world.specs.Worlds.{RunsMachines};

    /// What came of a side's step is in the lists. The machines stay as they are.
    fn noted(self, side: Side, outcome: SideOutcome) -> Result<Running<D>, Running<D>>
        ensures ends { (old new : ModelWorld) (events : List Event) → RunsMachines self new
            → IsListed self.lists old → Acknowledges outcome events
            → Grows old new (which_of side) events outcome → EndsSo result new }
        ensures disks { disks_in (last_of result) ≡ disks_in self }
    {
        let mut world = self;
        if world.lists.note(side, outcome) {
            Ok(world)
        } else {
            Err(world)
        }
    }

    /// A side's answer to the request with that number is in the lists. The machines stay as they
    /// are.
    fn heard(
        self,
        side: Side,
        session: u64,
        number: u32,
        reply: Option<Reply>,
        outcome: SideOutcome,
    ) -> Result<Running<D>, Running<D>>
        ensures ends { (old new : ModelWorld) (events : List Event) → RunsMachines self new
            → IsListed self.lists old → Acknowledges outcome events → refused_in outcome ≡ []
            → IfSome reply (λ said. IsLawfulReply (reply_of said))
            → GrowsBy old new (which_of side)
            (says (which_of side) session number (option_map reply_of reply)) events
            → EndsSo result new }
        ensures disks { disks_in (last_of result) ≡ disks_in self }
    {
        let mut world = self;
        let heard = world.lists.hear(side, session, number, reply);
        let noted = world.lists.note(side, outcome);
        if heard && noted {
            Ok(world)
        } else {
            Err(world)
        }
    }

    /// What came of a step of the coordinator is in the lists. There is none where memory for it
    /// was refused. The machines stay as they are.
    fn told(self, outcome: Option<CoordinatorOutcome>) -> Result<Running<D>, Running<D>>
        ensures ends { (old new : ModelWorld) (made : Call) (refusals : List Cause)
            → RunsMachines self new → IsListed self.lists old
            → IfSome outcome (λ told. Tells told made refusals) → Goes old new made refusals
            → EndsSo result new }
        ensures disks { disks_in (last_of result) ≡ disks_in self }
    {
        let mut world = self;
        match outcome {
            Some(outcome) => {
                if world.lists.take(outcome) {
                    Ok(world)
                } else {
                    Err(world)
                }
            }
            None => Err(world),
        }
    }
}
