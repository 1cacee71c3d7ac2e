//! A coordinator over its archive.
ghost use Rattle.std.specs.Prelude.{◌≡◌, ◌≢◌, [], ℕ, is_some, Some, None, Err};
ghost use Rattle.std.specs.Prelude.{IfErr, IfOk, MatchResult, OnOk, false, map, option_map};
ghost use Rattle.std.specs.Prelude.{◌+◌, ◌<◌, ◌^◌, ◌&&◌, not};
ghost use Rattle.syn_archive.specs.Archive.{IsHalted, session_shown};
ghost use Rattle.syn_coordinator.specs.inner.Walking.{ended_by};
ghost use Rattle.syn_disk.specs.Arms.{is_stopped};
ghost use Rattle.syn_machine.specs.Coordinator.{CoordinatorMachine, CoordinatorStarts};
ghost use Rattle.syn_machine.specs.Coordinator.{CoordinatorTicks, Running, report_of};
ghost use Rattle.syn_coordinator.specs.Machines.{IsMachine, Journal};
ghost use Rattle.syn_path.specs.Sides.{which_of};
ghost use Rattle.syn_refusal.specs.Refusals.{cause_of};
ghost use Rattle.syn_model.specs.Archive.{Archive as Keeping, Session as Begun};
ghost use Rattle.syn_model.specs.Refusal.{Memory, first_cause};
ghost use Rattle.syn_coordinator.specs.Refusals.{CountsFailures, refusal_of};
ghost use Rattle.syn_session.specs.Reports.{report_model};
ghost use Rattle.syn_session.specs.Sendings.{messages_of};
ghost use Rattle.syn_session.specs.Sessions.{IsSession, Tells, begin_messages, begun};
ghost use Rattle.syn_session.specs.declared.session.Session.{Session as Ran};
ghost use Rattle.syn_image.specs.Archives.{kept_of};

use crate::plan_runner::PlanRunner;
use crate::session_end::SessionEnd;
use crate::{StartError, TriedRecord};
use std::alloc::{AllocError, Global};
use syn_archive::Archive;
use syn_disk::Disk;
use syn_image::{Kept, SESSION_LENGTH};
use syn_path::Side;
use syn_refusal::Refusal;
use syn_session::{Report, Sending, Session};

mod answers;
mod journal;
mod opening;
mod settled;

/// What runs sessions between the two replicas of a pair, one at a time, over the archive of what
/// both last agreed on.
#[derive(Drop)]
pub struct Coordinator<D: Disk> {
    plan_runner: PlanRunner<D>,
    running: Option<Session>,
    report: Option<Report>,
}

impl<D: Disk> Coordinator<D> {
    ghost use Rattle.syn_coordinator.specs.Coordinators.{Does, HaltsByFailure, Stands, all_causes};
    ghost use Rattle.syn_coordinator.specs.Coordinators.{archive_of};
    ghost use Rattle.syn_coordinator.specs.Coordinators.{in_doubt, device_of, refusals_of};
    ghost use Rattle.syn_coordinator.specs.Coordinators.{is_waiting, report_shown, runs};
    ghost use Rattle.syn_coordinator.specs.Coordinators.{tried_shown, written};

    /// A coordinator over the archive, with no session. It takes no memory.
    pub fn new(alloc: Global, archive: Archive<D>) -> Coordinator<D>
        ensures archive { archive_of result ≡ archive }
        // An archive that was just opened is writing nothing.
        ensures stands { (pair : ℕ) (journal : Journal) → IsMachine archive pair journal
            → journal.writing ≡ None
            → Stands result pair (record { journal = journal; running = None }) }
        ensures report { report_shown result ≡ None }
        ensures kept { (written result ≡ []) × (in_doubt result ≡ None) }
        ensures tried { tried_shown result ≡ None }
    {
        Coordinator {
            plan_runner: PlanRunner::new(alloc, archive),
            running: None,
            report: None,
        }
    }

    /// The archive, as it is now.
    pub fn archive(&self) -> &Archive<D>
        ensures { result.now ≡ archive_of self.now }
    {
        &self.plan_runner.archive
    }

    /// Whether its machine has stopped, so that no device call is made any more.
    pub fn is_cut(&self) -> bool
        ensures { result ≡ is_stopped (D.Disk.arms (device_of self.now)) }
    {
        self.plan_runner.archive.is_cut()
    }

    /// The archive. A session that runs is given up.
    pub fn into_archive(self) -> Archive<D>
        ensures { result ≡ archive_of self }
    {
        let (archive, tried) = self.into_parts();
        drop(tried);
        archive
    }

    /// The archive, and what was tried and not kept. A session that runs is given up.
    pub fn into_parts(self) -> (Archive<D>, Option<TriedRecord>)
        ensures archive { result.0 ≡ archive_of self }
        ensures tried { result.1 ≡ tried_shown self }
    {
        // By calls, or the prover would look here at all that each holds.
        drop(self.running);
        drop(self.report);
        self.plan_runner.into_parts()
    }

    /// Whether a session runs.
    pub fn is_running(&self) -> bool
        ensures { result ≡ runs self.now }
    {
        self.running.is_some()
    }

    /// Whether a request of the session that runs waits for its answer from the side.
    pub fn waits_on(&self, side: Side) -> bool
        ensures { (pair : ℕ) (machine : CoordinatorMachine) → Stands self.now pair machine
            → result ≡ is_waiting machine.running (which_of side) }
    {
        match &self.running {
            Some(session) => session.waits_on(side),
            None => false,
        }
    }

    /// What the session that ended last reported; none before the first ends, and from the start of
    /// the next one on.
    pub fn report(&self) -> Option<&Report>
        ensures { option_map (λ report. report_model report.now) result ≡ report_shown self.now }
    {
        self.report.as_ref()
    }

    /// The records that the last writing call wrote, in order, and the one that it sent to the disk
    /// and whose write failed (9), if any. A writing call is a `start` that was answered Ok or 9,
    /// or an `on_reply`. The archive may have the failed record when it is opened again, which
    /// changes neither answer. A checkpoint that failed before a record sent none.
    pub fn kept(&self) -> (&[Kept], Option<&Kept>)
        ensures written { map kept_of result.0.now ≡ written self.now }
        ensures in_doubt { option_map (λ kept. kept_of kept.now) result.1 ≡ in_doubt self.now }
    {
        self.plan_runner.kept()
    }

    /// The record that was being written as a device call failed or the machine stopped, until the
    /// archive is opened again.
    pub fn tried(&self) -> Option<&TriedRecord>
        ensures { option_map (λ tried. tried.now) result ≡ tried_shown self.now }
    {
        self.plan_runner.tried()
    }

    /// Starts a session: its number is kept in the archive, and both sides are to begin it. It
    /// answers what is to be sent. Where both sides changed a path, what the preferred side has
    /// goes to the other; with no preference each keeps what it has.
    ///
    /// Refused 10 while the archive is halted, 12 while a session runs, 7 where the last session
    /// has the greatest number, 8 where the record does not fit in the archive's journal, 11 where
    /// memory is refused, and 9 where a device call fails. After 9 the archive is halted; after
    /// any other refusal nothing changed.
    pub fn start(
        &mut self,
        alloc: Global,
        preference: Option<Side>,
    ) -> Result<Vec<Sending>, StartError>
        // It is the step of a coordinator that starts, also where its device fails or is stopped.
        ensures step { (pair : ℕ) (machine : CoordinatorMachine) → Stands self.old pair machine
            → MatchResult result
            (λ sends. Does self.old self.new pair (CoordinatorStarts pair
            (option_map which_of preference) machine)
            (written self.new) (messages_of sends.items))
            (λ e. e ≡ StartError.Device
            → Does self.old self.new pair (CoordinatorStarts pair
            (option_map which_of preference) machine) [] []) }

        // Any other refusal is the first cause that stands, and changes nothing.
        ensures refused { (pair : ℕ) (machine : CoordinatorMachine) → Stands self.old pair machine
            → IfErr result (λ e. e ≢ StartError.Device
            → (first_cause (all_causes pair machine) ≡ Some (refusal_of e))
            × Stands self.new pair machine) }

        // It starts, or its device fails, only where no cause stands: no session runs then.
        ensures allowed { (pair : ℕ) (machine : CoordinatorMachine) → Stands self.old pair machine
            → MatchResult result (λ _. first_cause (refusals_of pair machine) ≡ None)
            (λ e. e ≡ StartError.Device → first_cause (refusals_of pair machine) ≡ None) }
        ensures failures { MatchResult result
            (λ _. D.failures (device_of self.new) ≡ D.failures (device_of self.old))
            (λ e. CountsFailures e (D.failures (device_of self.old))
            (D.failures (device_of self.new))) }
        ensures halts { HaltsByFailure self.old self.new }

        // What `report` and `kept` answer then.
        ensures report { MatchResult result (λ _. report_shown self.new ≡ None)
            (λ _. report_shown self.new ≡ report_shown self.old) }
        ensures whole { OnOk result (in_doubt self.new ≡ None) }
        ensures breaks { result ≡ Err StartError.Device → (written self.new ≡ [])
            × (in_doubt self.new ≡ Some (Begun (session_shown (archive_of self.old) + 1))) }
        ensures stays { IfErr result (λ e. e ≢ StartError.Device
            → (written self.new ≡ written self.old) × (in_doubt self.new ≡ in_doubt self.old)
            × (tried_shown self.new ≡ tried_shown self.old)) }
    {
        self.check_start()?;
        let archive = &self.plan_runner.archive;
        let number = archive.last_session() + 1;
        let (session, sends) = first_requests(alloc, number, archive.pair(), preference)?;
        match self.plan_runner.keep_session(alloc, number) {
            Ok(()) => {
                self.run(session);
                Ok(sends)
            }
            Err(error) => {
                drop(session);
                drop(sends);
                Err(error)
            }
        }
    }

    /// Why a session cannot be started, but for lack of memory and a device that fails.
    fn check_start(&self) -> Result<(), StartError>
        ensures refused { (pair : ℕ) (machine : CoordinatorMachine) → Stands self.now pair machine
            → MatchResult result (λ _. first_cause (refusals_of pair machine) ≡ None)
            (λ e. first_cause (refusals_of pair machine) ≡ Some (refusal_of e)) }
        ensures no_call { IfErr result (λ e. e ≢ StartError.Device) }
        ensures idle { OnOk result (runs self.now ≡ false) }
        ensures up { OnOk result (¬ IsHalted (archive_of self.now)) }
        ensures fits { OnOk result (session_shown (archive_of self.now) + 1 < 2 ^ 64) }
    {
        if self.plan_runner.archive.is_halted() {
            return Err(StartError::Halted);
        }
        if self.running.is_some() {
            return Err(StartError::Busy);
        }
        if self.plan_runner.archive.last_session() == u64::MAX {
            return Err(StartError::Full);
        }
        if self.plan_runner.archive.room() < SESSION_LENGTH {
            return Err(StartError::JournalFull);
        }
        Ok(())
    }

    /// Lets the session run, whose number was kept.
    fn run(&mut self, session: Session)
        ensures plan_runner { self.new.plan_runner ≡ self.old.plan_runner }
        ensures running { self.new.running ≡ Some session }
        ensures report { self.new.report ≡ None }
    {
        // What was there is let go by calls, as in `into_parts`.
        drop(self.running.replace(session));
        drop(self.report.take());
    }

    /// Some time went by without an answer: each request that waits is to be sent again. It answers
    /// these. Where one was sent again eight times already the session ends 25, and where memory is
    /// refused it ends 11. It makes no device call.
    pub fn on_tick(&mut self, alloc: Global) -> Vec<Sending>
        ensures step { (pair : ℕ) (machine : CoordinatorMachine) → Stands self.old pair machine
            → Does self.old self.new pair (CoordinatorTicks machine) [] (messages_of result.items) }
        ensures archive { archive_of self.new ≡ archive_of self.old }
        ensures report { (runs self.old && not (runs self.new)) ≡ false
            → report_shown self.new ≡ report_shown self.old }
        ensures kept { (written self.new ≡ written self.old) × (in_doubt self.new ≡ in_doubt
            self.old)
            × (tried_shown self.new ≡ tried_shown self.old) }
    {
        let Some(session) = &mut self.running else {
            return Vec::new(alloc);
        };
        if session.is_worn() {
            return self.end(alloc, SessionEnd::Early(Refusal::NoAnswer));
        }
        match session.waiting(alloc) {
            Ok(sends) => {
                session.count_resend();
                sends
            }
            Err(_) => self.end(alloc, SessionEnd::Early(Refusal::Memory)),
        }
    }

    /// Ends the session that runs, if one does, and keeps its report. Nothing is sent then. It
    /// takes no memory.
    fn end(&mut self, alloc: Global, ended: SessionEnd) -> Vec<Sending>
        ensures running { self.new.running ≡ None }
        ensures plan_runner { self.new.plan_runner ≡ self.old.plan_runner }
        ensures report { (session : Ran) (running : Running) → self.old.running ≡ Some session
            → Tells session running
            → report_shown self.new ≡ Some (report_of running (ended_by ended)) }
        ensures silent { result.items ≡ [] }
    {
        if let Some(session) = self.running.take() {
            let report = session.into_report(alloc, refusal_in(ended));
            drop(self.report.replace(report));
        }
        Vec::new(alloc)
    }
}

/// A session with this preference of which nothing was answered, with its first requests. Refused
/// 11 where memory is refused.
fn first_requests(
    alloc: Global,
    number: u64,
    pair: u64,
    preference: Option<Side>,
) -> Result<(Session, Vec<Sending>), AllocError>
    ensures begun { (archive : Keeping)
        → IfOk result (λ first. IsSession archive first.0
        (begun (option_map which_of preference) number pair)) }
    ensures sends { IfOk result (λ first. messages_of first.1.items
        ≡ begin_messages number pair) }
    ensures number { IfOk result (λ first. first.0.number ≡ number) }
    ensures fits { pair < 2 ^ 64 }
{
    let session = Session::new(alloc, number, pair, preference)?;
    match session.waiting(alloc) {
        Ok(sends) => Ok((session, sends)),
        Err(error) => {
            drop(session);
            Err(error)
        }
    }
}

/// What ended the session early, if anything did.
fn refusal_in(ended: SessionEnd) -> Option<Refusal>
    ensures { option_map cause_of result ≡ ended_by ended }
{
    match ended {
        SessionEnd::PlanDone => None,
        SessionEnd::Early(why) => Some(why),
        SessionEnd::Failed => Some(Refusal::Device),
    }
}
