//! What a world had heard before each of its steps.
ghost use Rattle.std.specs.Prelude.{◌≡◌, ◌++◌, ◌∷◌, [], IfSome};
ghost use Rattle.syn_simulate.specs.Turns.{delivery_of, is_up, moment_of, turn_of};

use syn_disk::Disk;
use syn_path::Side;
use syn_world::{Machine, Step, World};

/// How long each list of a world was at some moment, and which of its machines were up. No list
/// ever loses an item, so this and the lists of a later world tell what was heard until then.
#[derive(Clone, Copy, Debug, PartialEq, Eq)]
pub struct Moment {
    /// How many messages were sent.
    pub sent: usize,
    /// How many acknowledgements were heard.
    pub acknowledged: usize,
    /// How many refusals were heard.
    pub refusals: usize,
    /// How many reports were heard.
    pub reports: usize,
    pub is_left_up: bool,
    pub is_coordinator_up: bool,
    pub is_right_up: bool,
}

impl Moment {
    /// The world as it is now.
    pub(crate) fn of<D: Disk>(world: &World<D>) -> Moment
        ensures { result ≡ moment_of world.now }
    {
        Moment {
            sent: world.sent().len(),
            acknowledged: world.acknowledged().len(),
            refusals: world.refusals().len(),
            reports: world.reports().len(),
            is_left_up: world.replica(Side::Left).is_some(),
            is_coordinator_up: world.archive().is_some(),
            is_right_up: world.replica(Side::Right).is_some(),
        }
    }

    /// Whether the machine was up.
    pub(crate) fn is_up(&self, machine: Machine) -> bool
        ensures { result ≡ is_up self.now machine }
    {
        match machine {
            Machine::Side(Side::Left) => self.is_left_up,
            Machine::Coordinator => self.is_coordinator_up,
            Machine::Side(Side::Right) => self.is_right_up,
        }
    }
}

/// A step that was played.
#[derive(Clone, Copy, Debug, PartialEq, Eq)]
pub struct PlayedStep {
    /// The world before the step.
    pub before: Moment,
    /// The number of the message that the step delivers, if it is a delivery.
    pub delivered: Option<usize>,
}

impl PlayedStep {
    /// The turn in which the step is made of the world.
    pub(crate) fn of<D: Disk>(world: &World<D>, step: &Step) -> PlayedStep
        ensures { result ≡ turn_of world.now step.now }
    {
        PlayedStep {
            before: Moment::of(world),
            delivered: delivery_of(step),
        }
    }
}

/// The number of the message that the step delivers, if it is a delivery.
fn delivery_of(step: &Step) -> Option<usize>
    ensures { result ≡ delivery_of step.now }
{
    match step {
        Step::Deliver(number) => Some(*number),
        _ => None,
    }
}

/// The turns with one more. None where memory for it is refused.
pub(crate) fn add_turn(turns: Vec<PlayedStep>, turn: PlayedStep) -> Option<Vec<PlayedStep>>
    ensures { IfSome result (λ more. more.items ≡ turns.items ++ turn ∷ []) }
{
    let mut more = turns;
    match more.push(turn) {
        Ok(()) => Some(more),
        Err(_) => None,
    }
}
