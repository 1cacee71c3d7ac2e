//! A world on which lines are played.
ghost use Rattle.std.specs.Prelude.{◌≡◌, ◌≤◌, ◌↔◌, ◌∷◌, ◌++◌, [], IfOk, length, true};
ghost use Rattle.syn_runs.specs.World.{World as ModelWorld, Deliver};
ghost use Rattle.syn_simulate.specs.Drains.{IsNextLeft};
ghost use Rattle.syn_simulate.specs.Lines.{Says, ToDrain, deliveries, said};
ghost use Rattle.syn_simulate.specs.Players.{PlaysAllTo, PlaysTo, IsPlayer, world_of};
ghost use Rattle.syn_simulate.specs.States.{State, fresh};
ghost use Rattle.syn_simulate.specs.Turns.{turn_of, turns_of};
ghost use Rattle.syn_world.specs.Steps.{step_of};
ghost use Rattle.syn_world.specs.Worlds.{IsWorld, sent_in};

use crate::Line;
use crate::notes::{lowest_unset, note_step};
use crate::turn::{PlayedStep, add_turn};
use std::alloc::Global;
use syn_disk::Disk;
use syn_world::{Disks, SimulatedDisk, Step, World};

/// A draining delivers at most so many messages, so that it ends whatever the machines say.
pub const MOST_DRAINED: usize = 100_000;

/// A world on which lines are played, with which of its messages were delivered already and the
/// turns that were played.
///
/// Each call that plays takes it and gives it back, or the disks of its world where memory is
/// refused.
#[derive(Drop)]
pub struct Player<D: Disk> {
    world: World<D>,
    /// Whether the message with each number was delivered. Those after the end were not.
    delivered: Vec<bool>,
    /// Each message with a lower number was delivered.
    lowest: usize,
    /// The steps that were played, in order.
    turns: Vec<PlayedStep>,
}

impl<D: SimulatedDisk> Player<D> {
    /// The world, as if none of its messages was delivered yet. It takes no memory.
    pub fn new(alloc: Global, world: World<D>) -> Player<D>
        ensures world { world_of result ≡ world }
        ensures fresh { (model : ModelWorld) → IsWorld world model
            → IsPlayer result (fresh model) }
        ensures turns { turns_of result ≡ [] }
    {
        Player {
            world,
            delivered: Vec::new(alloc),
            lowest: 0,
            turns: Vec::new(alloc),
        }
    }

    /// The world as it is now.
    pub fn world(&self) -> &World<D>
        ensures { result.now ≡ world_of self.now }
    {
        &self.world
    }

    /// The world, with no note of what was delivered.
    pub fn into_world(self) -> World<D>
        ensures { result ≡ world_of self }
    {
        self.world
    }

    /// The steps that were played, in order, each with what the world had heard before it.
    pub fn turns(&self) -> &[PlayedStep]
        ensures { result.now ≡ turns_of self.now }
    {
        &self.turns
    }

    /// Makes a step of the world, and notes its turn and a message that it delivers.
    pub fn step(self, alloc: Global, step: Step) -> Result<Player<D>, Disks<D>>
        ensures plays { (state : State) → IsPlayer self state
            → PlaysTo (Says (step_of step ∷ [])) state result }
        ensures turns { IfOk result (λ player. turns_of player
            ≡ turns_of self ++ turn_of (world_of self) step ∷ []) }
    {
        let Player {
            world,
            delivered,
            lowest,
            turns,
        } = self;
        let Some(turns) = add_turn(turns, PlayedStep::of(&world, &step)) else {
            return Err(world.into_disks());
        };
        let Some(delivered) = note_step(world.sent().len(), delivered, &step) else {
            return Err(world.into_disks());
        };
        let mut world = world;
        match world.step(alloc, &step) {
            Ok(()) => Ok(Player {
                world,
                delivered,
                lowest,
                turns,
            }),
            Err(_) => Err(world.into_disks()),
        }
    }

    /// Delivers the message that was sent with this number, again if it was before. The first has
    /// the number 0. One that was never sent does nothing.
    pub fn deliver(self, alloc: Global, number: usize) -> Result<Player<D>, Disks<D>>
        ensures { (state : State) → IsPlayer self state
            → PlaysTo (Says (Deliver number ∷ [])) state result }
    {
        self.step(alloc, Step::Deliver(number))
    }

    /// Delivers the messages from the first number to the last, in rising order, none if the last
    /// is lower. A number that was not sent when its turn comes does nothing.
    ///
    /// At such a number it ends: none of the later ones was sent either, and none is sent any more.
    pub fn deliver_all(
        self,
        alloc: Global,
        first: usize,
        last: usize,
    ) -> Result<Player<D>, Disks<D>>
        ensures { (state : State) → IsPlayer self state
            → PlaysTo (Says (deliveries first last)) state result }
    {
        let mut player = self;
        for number in first..=last {
            if player.is_unsent(number) {
                return Ok(player);
            }
            match player.deliver(alloc, number) {
                Ok(next) => player = next,
                Err(disks) => return Err(disks),
            }
        }
        Ok(player)
    }

    /// Delivers each message that was not delivered yet, the lowest number first, with those that
    /// this sends, until none is left or `MOST_DRAINED` were delivered.
    pub fn drain(self, alloc: Global) -> Result<Player<D>, Disks<D>>
        ensures { (state : State) → IsPlayer self state → PlaysTo ToDrain state result }
    {
        let mut player = self;
        for _drained in 0..MOST_DRAINED {
            let Some(number) = player.next_left() else {
                return Ok(player);
            };
            player.lowest = number;
            match player.deliver(alloc, number) {
                Ok(next) => player = next,
                Err(disks) => return Err(disks),
            }
        }
        Ok(player)
    }

    /// The lowest number of a message that was sent and not delivered yet, if there is one.
    pub fn next_left(&self) -> Option<usize>
        ensures { (state : State) → IsPlayer self.now state → IsNextLeft state result }
    {
        lowest_unset(
            self.delivered.as_slice(),
            self.lowest,
            self.world.sent().len(),
        )
    }

    /// Whether no message was sent with the number yet.
    fn is_unsent(&self, number: usize) -> bool
        ensures { (result ≡ true) ↔ (length (sent_in (world_of self.now)) ≤ number) }
    {
        self.world.sent().len() <= number
    }

    /// Plays a line. What a stop leaves on a disk is the disk's own concern.
    pub fn play(self, alloc: Global, line: Line) -> Result<Player<D>, Disks<D>>
        ensures { (state : State) → IsPlayer self state → PlaysTo (said line) state result }
    {
        match line {
            Line::Edit(side, user, edit) => self.step(alloc, Step::Edit(side, user, edit)),
            Line::Start(preference) => self.step(alloc, Step::Start(preference)),
            Line::Tick => self.step(alloc, Step::Tick),
            Line::Deliver(first, last) => self.deliver_all(alloc, first as usize, last as usize),
            Line::Drain => self.drain(alloc),
            Line::Checkpoint(machine) => self.step(alloc, Step::Checkpoint(machine)),
            Line::Fail(machine, call) => self.step(alloc, Step::Fail(machine, call)),
            Line::Stop(machine, calls, _) => self.step(alloc, Step::Stop(machine, calls)),
            Line::Open(machine) => self.step(alloc, Step::Open(machine)),
            Line::Reopen(machine) => self.step(alloc, Step::Reopen(machine)),
        }
    }

    /// Plays the lines, one after another. Where memory is refused, the disks come back as the
    /// steps until then left them.
    pub fn play_all(self, alloc: Global, lines: Vec<Line>) -> Result<Player<D>, Disks<D>>
        ensures { (state : State) → IsPlayer self state → PlaysAllTo lines.items state result }
    {
        let mut player = self;
        for line in lines {
            match player.play(alloc, line) {
                Ok(next) => player = next,
                Err(disks) => return Err(disks),
            }
        }
        Ok(player)
    }
}
