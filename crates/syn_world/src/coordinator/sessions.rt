//! The coordinator's sessions: it starts one, takes the answers of the sides, and waits for them.
ghost use Rattle.std.specs.Prelude.{◌≡◌, ◌≢◌, ℕ, false, true, option_map};
ghost use Rattle.syn_machine.specs.Coordinator.{CoordinatorMachine, CoordinatorTakes};
ghost use Rattle.syn_machine.specs.Coordinator.{CoordinatorTicks, Starts, no_call};
ghost use Rattle.syn_machine.specs.MachineSteps.{refused_by};
ghost use Rattle.syn_world.specs.CoordinatorSteps.{CallIsStep, Settles, Unrefused};
ghost use Rattle.syn_message.specs.Replies.{IsLawfulReply, reply_of};
ghost use Rattle.syn_path.specs.Sides.{which_of};
ghost use Rattle.syn_coordinator.specs.Coordinators.{Stands, device_of, written};
ghost use Rattle.syn_session.specs.Sendings.{messages_of};

use super::settle::{ended, halted, settle};
use super::{CoordinatorCall, CoordinatorHost};
use crate::disk::SimulatedDisk;
use crate::outcome::CoordinatorOutcome;
use std::alloc::Global;
use syn_coordinator::{Coordinator, StartError};
use syn_message::Reply;
use syn_path::Side;
use syn_session::Sending;

impl<D: SimulatedDisk> CoordinatorHost<D> {
    ghost use Rattle.syn_world.specs.Coordinators.{IsCoordinator, archive_disk};

    /// A session starts, which prefers a side or none, unless the machine is down. Its number is
    /// acknowledged, and both sides are asked to begin it.
    ///
    /// Refused 10 while the archive is halted, 12 while a session runs, 7 where the last session
    /// has the greatest number, 8 where its record does not fit in the archive's journal, 11 where
    /// memory is refused, and 9 where a device call fails.
    pub fn start(self, alloc: Global, preference: Option<Side>) -> CoordinatorCall<D>
        ensures { (pair : ℕ) (machine : CoordinatorMachine) → IsCoordinator pair self machine
            → CallIsStep pair machine (D.Limit.failures (archive_disk self))
            (Starts pair (option_map which_of preference) machine) result }
    {
        match self {
            CoordinatorHost::Up(coordinator) => begin(alloc, coordinator, preference),
            CoordinatorHost::Down(rest) => CoordinatorHost::Down(rest).refused(alloc, None),
        }
    }

    /// An answer of a side is delivered, under the session and the number of its request. What it
    /// leads to in the archive is acknowledged, and what is asked next is sent. A machine that is
    /// down takes none.
    pub fn hear(
        self,
        alloc: Global,
        from: Side,
        session: u64,
        number: u32,
        reply: Reply,
    ) -> CoordinatorCall<D>
        requires lawful { IsLawfulReply (reply_of reply) }
        ensures { (pair : ℕ) (machine : CoordinatorMachine) → IsCoordinator pair self machine
            → CallIsStep pair machine (D.Limit.failures (archive_disk self))
            (Unrefused (CoordinatorTakes pair machine (which_of from) session number
            (reply_of reply))) result }
    {
        match self {
            CoordinatorHost::Up(coordinator) => {
                take(alloc, coordinator, from, session, number, reply)
            }
            CoordinatorHost::Down(rest) => CoordinatorHost::Down(rest).refused(alloc, None),
        }
    }

    /// Some time went by without an answer. Each request that waits is sent again; or the session
    /// ends, 25 where one was sent again eight times already and 11 where memory is refused.
    /// Without a session nothing is done.
    pub fn tick(self, alloc: Global) -> CoordinatorCall<D>
        ensures { (pair : ℕ) (machine : CoordinatorMachine) → IsCoordinator pair self machine
            → CallIsStep pair machine (D.Limit.failures (archive_disk self))
            (Unrefused (CoordinatorTicks machine)) result }
    {
        match self {
            CoordinatorHost::Up(coordinator) => resend(alloc, coordinator),
            CoordinatorHost::Down(rest) => CoordinatorHost::Down(rest).refused(alloc, None),
        }
    }
}

/// The start of a coordinator that is up.
fn begin<D: SimulatedDisk>(
    alloc: Global,
    coordinator: Coordinator<D>,
    preference: Option<Side>,
) -> CoordinatorCall<D>
    ensures { (pair : ℕ) (machine : CoordinatorMachine) → Stands coordinator pair machine
        → CallIsStep pair machine (D.Limit.failures (device_of coordinator))
        (Starts pair (option_map which_of preference) machine) result }
{
    let mut coordinator = coordinator;
    match coordinator.start(alloc, preference) {
        Ok(sent) => settle_started(alloc, coordinator, sent),
        Err(error) => {
            if is_device(error) {
                return settle_started(alloc, coordinator, Vec::new(alloc));
            }
            CoordinatorHost::Up(coordinator).refused(alloc, Some(error.refusal()))
        }
    }
}

/// Whether a device call failed.
fn is_device(error: StartError) -> bool
    ensures device { result ≡ true → error ≡ StartError.Device }
    ensures other { result ≡ false → error ≢ StartError.Device }
{
    error == StartError::Device
}

/// The coordinator after a start that was made, and sent this. Where its device failed, it is
/// refused 9.
fn settle_started<D: SimulatedDisk>(
    alloc: Global,
    coordinator: Coordinator<D>,
    sent: Vec<Sending>,
) -> CoordinatorCall<D>
    ensures { Settles coordinator (record no_call {
      kept = written coordinator;
      messages = messages_of sent.items;
    }) refused_by result }
{
    let refused = halted(&coordinator);
    let outcome = CoordinatorOutcome::gathered(alloc, coordinator.kept().0, sent, None, refused);
    settle(alloc, coordinator, outcome)
}

/// An answer that is taken by a coordinator that is up.
fn take<D: SimulatedDisk>(
    alloc: Global,
    coordinator: Coordinator<D>,
    from: Side,
    session: u64,
    number: u32,
    reply: Reply,
) -> CoordinatorCall<D>
    requires lawful { IsLawfulReply (reply_of reply) }
    ensures { (pair : ℕ) (machine : CoordinatorMachine) → Stands coordinator pair machine
        → CallIsStep pair machine (D.Limit.failures (device_of coordinator))
        (Unrefused (CoordinatorTakes pair machine (which_of from) session number (reply_of reply)))
        result }
{
    let mut coordinator = coordinator;
    let ran = coordinator.is_running();
    let sent = coordinator.on_reply(alloc, from, session, number, reply);
    let report = ended(&coordinator, ran);
    let outcome = CoordinatorOutcome::gathered(alloc, coordinator.kept().0, sent, report, None);
    settle(alloc, coordinator, outcome)
}

/// The tick of a coordinator that is up.
fn resend<D: SimulatedDisk>(alloc: Global, coordinator: Coordinator<D>) -> CoordinatorCall<D>
    ensures { (pair : ℕ) (machine : CoordinatorMachine) → Stands coordinator pair machine
        → CallIsStep pair machine (D.Limit.failures (device_of coordinator))
        (Unrefused (CoordinatorTicks machine)) result }
{
    let mut coordinator = coordinator;
    let ran = coordinator.is_running();
    let sent = coordinator.on_tick(alloc);
    let report = ended(&coordinator, ran);
    let outcome = CoordinatorOutcome::gathered(alloc, &[], sent, report, None);
    settle(alloc, coordinator, outcome)
}
