//! A session over two connections.
ghost use Rattle.std.specs.Prelude.{◌≡◌, [], ℕ, true, false, IfErr, IfSome, MatchResult, OnOk};
ghost use Rattle.std.specs.Prelude.{Some, option_map};
ghost use Rattle.syn_disk.specs.Arms.{is_stopped};
ghost use Rattle.syn_machine.specs.Coordinator.{CoordinatorMachine, CoordinatorTakes};
ghost use Rattle.syn_machine.specs.Network.{Left, Right, Which};
ghost use Rattle.syn_message.specs.Replies.{IsLawfulReplyMessage, reply_message_of};
ghost use Rattle.syn_path.specs.Sides.{which_of};
ghost use Rattle.syn_model.specs.Refusal.{JournalFull, first_cause};
ghost use Rattle.syn_refusal.specs.Refusals.{cause_of};
ghost use Rattle.syn_coordinator.specs.Coordinators.{Does, Stands, archive_of, device_of, runs};
ghost use Rattle.syn_coordinator.specs.Coordinators.{all_causes, is_waiting, written};
ghost use Rattle.syn_session.specs.Sendings.{message_of, messages_of};
ghost use Rattle.syn_sync.specs.Drivers.{ConnectionStates, states_of, connection_at, outlets_of};
ghost use Rattle.syn_sync.specs.States.{HearsAll};
ghost use Rattle.syn_sync.specs.Outlets.{Writes};
ghost use Rattle.syn_sync.specs.Refusals.{Refuses};
ghost use Rattle.syn_sync.specs.Runs.{Begins, Drives, answer_in, frame_to, frames_to, taking};
ghost use Rattle.syn_sync.specs.inner.Calling.{Calls, IsUnended, Starting};

use crate::readiness::Readiness;
use crate::session_connection::SessionConnection;
use crate::watch::SessionWatch;
use std::alloc::Global;
use std::io::{Read, Write};
use syn_coordinator::{Coordinator, StartError};
use syn_disk::Disk;
use syn_message::ReplyMessage;
use syn_path::Side;
use syn_refusal::Refusal;
use syn_session::{MOST_RESENDS, Sending};

/// After so many ticks without an answer a session has ended: the last one finds a request that was
/// sent again as often as it may be.
const MOST_TICKS: u8 = MOST_RESENDS + 1;

/// What runs sessions over two connections, one for each side.
#[derive(Drop)]
pub struct Driver<R, W> {
    left: SessionConnection<R, W>,
    right: SessionConnection<R, W>,
}

impl<R: Read, W: Write> Driver<R, W> {
    /// A driver over these connections. It takes no memory.
    pub fn new(left: SessionConnection<R, W>, right: SessionConnection<R, W>) -> Driver<R, W>
        ensures left { connection_at result Left ≡ left }
        ensures right { connection_at result Right ≡ right }
    {
        Driver { left, right }
    }

    /// The connections, left first.
    pub fn into_parts(self) -> (SessionConnection<R, W>, SessionConnection<R, W>)
        ensures { result ≡ (connection_at self Left, connection_at self Right) }
    {
        (self.left, self.right)
    }

    /// Runs a session to its end, which prefers a side or none: the coordinator starts it, its
    /// requests go to their sides, and the replies come back to it. Where both sides have to
    /// answer, the one that is ready is read, and the left one where both are. Where the start is
    /// refused 8, a checkpoint makes room in the archive, once. The watch is told of each reply,
    /// and of what the coordinator settled with it.
    ///
    /// Where a connection closes, no side is ready in time, the watch wants no more, or the
    /// coordinator waits for nothing, the session is given up: it ends 25, and what that would send
    /// again is dropped. The coordinator has the report.
    ///
    /// Refused as `start` is, or as the checkpoint is; then no session ran. Refused 9 also where
    /// the coordinator's machine was stopped, and 25 where the session could not be ended.
    pub fn run<D: Disk, S: Readiness, V: SessionWatch>(
        &mut self,
        alloc: Global,
        coordinator: &mut Coordinator<D>,
        preference: Option<Side>,
        readiness: &mut S,
        watch: &mut V,
    ) -> Result<(), Refusal>
        ensures drives { (pair : ℕ) (machine : CoordinatorMachine)
            → Stands coordinator.old pair machine
            → (heard : ConnectionStates) × (drives : Drives coordinator.new pair machine
            (states_of R.remaining self.old) heard
            (outlets_of W.contents self.old) (outlets_of W.contents self.new))
            × OnOk result (Begins (option_map which_of preference) drives.acts) }
        ensures refused { (pair : ℕ) (machine : CoordinatorMachine)
            → Stands coordinator.old pair machine
            → IfErr result (λ why. Refuses coordinator.old coordinator.new pair machine
            (cause_of why)) }
        ensures ended { OnOk result (runs coordinator.new ≡ false) }
        ensures goes { OnOk result (is_stopped (D.Disk.arms (device_of coordinator.new))
            ≡ false) }
    {
        let sends = match start(alloc, coordinator, preference) {
            Ok(sends) => sends,
            Err(why) => return Err(why),
        };
        if coordinator.is_cut() {
            return Err(Refusal::Device);
        }
        self.send_all(alloc, &sends);
        self.go_on(alloc, coordinator, readiness, watch);
        end_if_running(alloc, coordinator)
    }

    /// Goes on with the session until it ends, a connection closes, neither side is ready in time,
    /// the watch wants no more, or the coordinator waits for nothing.
    fn go_on<D: Disk, S: Readiness, V: SessionWatch>(
        &mut self,
        alloc: Global,
        coordinator: &mut Coordinator<D>,
        readiness: &mut S,
        watch: &mut V,
    )
        requires goes { is_stopped (D.Disk.arms (device_of coordinator.old)) ≡ false }
        ensures { (pair : ℕ) (machine : CoordinatorMachine)
            → Stands coordinator.old pair machine
            → (heard : ConnectionStates) × Drives coordinator.new pair machine
            (states_of R.remaining self.old) heard
            (outlets_of W.contents self.old) (outlets_of W.contents self.new) }
    {
        for _ in 0..u64::MAX {
            let Some(from) = self.next_side(coordinator, readiness) else {
                return;
            };
            let Some(answered) = self.receive(alloc, from) else {
                return;
            };
            if !watch.heard(from, &answered) {
                return;
            }
            let sends = hear(alloc, coordinator, from, answered);
            if coordinator.is_cut() {
                return;
            }
            tell_settled(watch, coordinator);
            self.send_all(alloc, &sends);
        }
    }

    /// The side that is read next, for which the coordinator waits: the one that is ready where it
    /// waits for both. None where a connection is closed, neither is ready in time, or it waits for
    /// none, as once the session has ended.
    fn next_side<D: Disk, S: Readiness>(
        &self,
        coordinator: &Coordinator<D>,
        readiness: &mut S,
    ) -> Option<Side>
        ensures { (pair : ℕ) (machine : CoordinatorMachine) → Stands coordinator.now pair machine
            → IfSome result (λ side. is_waiting machine.running (which_of side) ≡ true) }
    {
        if !self.left.is_open() || !self.right.is_open() {
            return None;
        }
        let left = coordinator.waits_on(Side::Left);
        let right = coordinator.waits_on(Side::Right);
        match (left, right) {
            (true, true) => self.ready_side(readiness),
            (true, false) => Some(Side::Left),
            (false, true) => Some(Side::Right),
            (false, false) => None,
        }
    }

    /// The side that is ready: one whose next reply came already, or else one with bytes to read.
    /// The left one where both are, and none where neither is in time.
    fn ready_side<S: Readiness>(&self, readiness: &mut S) -> Option<Side> {
        if self.left.holds_reply() {
            return Some(Side::Left);
        }
        if self.right.holds_reply() {
            return Some(Side::Right);
        }
        readiness.wait()
    }

    /// The next reply of the side; none where its connection is closed, or comes to be.
    fn receive(&mut self, alloc: Global, from: Side) -> Option<ReplyMessage>
        ensures heard { IfSome result (λ answered. (side : Which)
            → HearsAll (states_of R.remaining self.old side)
            (answer_in side (taking (which_of from) (reply_message_of answered)))
            (states_of R.remaining self.new side)) }
        ensures lawful { IfSome result
            (λ answered. IsLawfulReplyMessage (reply_message_of answered)) }
        ensures written { (side : Which) → Writes (outlets_of W.contents self.old side)
            (outlets_of W.contents self.new side) []
            (outlets_of W.contents self.new side).goes }
    {
        match from {
            Side::Left => self.left.receive(alloc),
            Side::Right => self.right.receive(alloc),
        }
    }

    /// Sends each request to its side, in their order.
    fn send_all(&mut self, alloc: Global, sends: &[Sending])
        ensures written { (side : Which) → Writes (outlets_of W.contents self.old side)
            (outlets_of W.contents self.new side) (frames_to side (messages_of sends.now))
            (outlets_of W.contents self.new side).goes }
        ensures states { (side : Which) → states_of R.remaining self.new side
            ≡ states_of R.remaining self.old side }
    {
        for sending in sends {
            self.send(alloc, sending);
        }
    }

    /// Sends the request to its side.
    fn send(&mut self, alloc: Global, sending: &Sending)
        ensures written { (side : Which) → Writes (outlets_of W.contents self.old side)
            (outlets_of W.contents self.new side)
            (frame_to side (message_of sending.now))
            (outlets_of W.contents self.new side).goes }
        ensures states { (side : Which) → states_of R.remaining self.new side
            ≡ states_of R.remaining self.old side }
    {
        match sending.to {
            Side::Left => self.left.send(alloc, &sending.message),
            Side::Right => self.right.send(alloc, &sending.message),
        }
    }
}

/// Tells the watch what became of the items so far, and what the coordinator wrote into its archive
/// for them now.
fn tell_settled<D: Disk, V: SessionWatch>(watch: &mut V, coordinator: &Coordinator<D>) {
    let (written, _) = coordinator.kept();
    watch.settled(&coordinator.settled(), written);
}

/// The coordinator takes the reply of the side, and answers what is to be sent.
fn hear<D: Disk>(
    alloc: Global,
    coordinator: &mut Coordinator<D>,
    from: Side,
    answered: ReplyMessage,
) -> Vec<Sending>
    requires { IsLawfulReplyMessage (reply_message_of answered) }
    ensures { (pair : ℕ) (machine : CoordinatorMachine) → Stands coordinator.old pair machine
        → Does coordinator.old coordinator.new pair
        (CoordinatorTakes pair machine (which_of from) (reply_message_of answered).session
        (reply_message_of answered).number (reply_message_of answered).reply)
        (written coordinator.new) (messages_of result.items) }
{
    let ReplyMessage {
        session,
        number,
        reply,
    } = answered;
    coordinator.on_reply(alloc, from, session, number, reply)
}

/// Starts a session, and answers what is to be sent. Refused as `run` is.
fn start<D: Disk>(
    alloc: Global,
    coordinator: &mut Coordinator<D>,
    preference: Option<Side>,
) -> Result<Vec<Sending>, Refusal>
    ensures { (pair : ℕ) (machine : CoordinatorMachine) → Stands coordinator.old pair machine
        → MatchResult result
        (λ sends. Starting (option_map which_of preference) coordinator.new pair machine
        (messages_of sends.items))
        (λ why. Calls coordinator.new pair machine []
        × Refuses coordinator.old coordinator.new pair machine (cause_of why)) }
{
    match coordinator.start(alloc, preference) {
        Ok(sends) => Ok(sends),
        Err(StartError::JournalFull) => start_after(alloc, coordinator, preference),
        Err(error) => Err(error.refusal()),
    }
}

/// Starts a session after a checkpoint, which makes room for its number. It was refused 8 before.
fn start_after<D: Disk>(
    alloc: Global,
    coordinator: &mut Coordinator<D>,
    preference: Option<Side>,
) -> Result<Vec<Sending>, Refusal>
    ensures { (pair : ℕ) (machine : CoordinatorMachine) → Stands coordinator.old pair machine
        → first_cause (all_causes pair machine) ≡ Some JournalFull
        → MatchResult result
        (λ sends. Starting (option_map which_of preference) coordinator.new pair machine
        (messages_of sends.items))
        (λ why. Calls coordinator.new pair machine []
        × Refuses coordinator.old coordinator.new pair machine (cause_of why)) }
{
    if let Err(error) = coordinator.checkpoint(alloc) {
        return Err(error.refusal());
    }
    if coordinator.is_cut() {
        return Err(Refusal::Device);
    }
    match coordinator.start(alloc, preference) {
        Ok(sends) => Ok(sends),
        Err(error) => Err(error.refusal()),
    }
}

/// Ends the session where it still runs, for lack of an answer. A session of the model ends so by
/// ticks alone, and so this is as many ticks as end any; a session that has ended takes none of
/// them. What they would send again is dropped.
///
/// Refused 9 where the machine is stopped, and 25 where the session still runs. No clause rules
/// that out; by the code only a session that waits for nothing comes to it.
fn end_if_running<D: Disk>(alloc: Global, coordinator: &mut Coordinator<D>) -> Result<(), Refusal>
    ensures calls { (pair : ℕ) (machine : CoordinatorMachine)
        → Stands coordinator.old pair machine → Calls coordinator.new pair machine [] }
    ensures stopped { is_stopped (D.Disk.arms (device_of coordinator.old)) ≡ true
        → coordinator.new ≡ coordinator.old }
    ensures refused { IfErr result (λ why. IsUnended coordinator.new why) }
    ensures ended { OnOk result (runs coordinator.new ≡ false) }
    ensures goes { OnOk result (is_stopped (D.Disk.arms (device_of coordinator.new)) ≡ false) }
{
    if coordinator.is_cut() {
        return Err(Refusal::Device);
    }
    for _ in 0..MOST_TICKS {
        tick(alloc, coordinator);
    }
    if coordinator.is_running() {
        return Err(Refusal::NoAnswer);
    }
    Ok(())
}

/// Lets time go by where a session runs. It makes no device call.
fn tick<D: Disk>(alloc: Global, coordinator: &mut Coordinator<D>)
    ensures calls { (pair : ℕ) (machine : CoordinatorMachine)
        → Stands coordinator.old pair machine → Calls coordinator.new pair machine [] }
    ensures archive { archive_of coordinator.new ≡ archive_of coordinator.old }
{
    if coordinator.is_running() {
        let _ = coordinator.on_tick(alloc);
    }
}
