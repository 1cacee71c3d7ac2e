//! How the plan of a session is carried out.
ghost use Rattle.std.specs.Prelude.{◌≡◌, ℕ, List, MatchResult, None, Some, slice_get};
ghost use Rattle.std.specs.Prelude.{IfErr, IfOk, MatchOption, OnErr};
ghost use Rattle.syn_coordinator.specs.inner.Walking.{IsAtItem};
ghost use Rattle.syn_machine.specs.Coordinator.{Exchange, IsDue};
ghost use Rattle.syn_machine.specs.Planning.{Planned};
ghost use Rattle.syn_machine.specs.Session.{record_for};
ghost use Rattle.syn_model.specs.Archive.{Archive as Keeping};
ghost use Rattle.syn_coordinator.specs.Machines.{IsMachine, Journal};
ghost use Rattle.syn_propagate.specs.Transfers.{IsReady, spec_of};
ghost use Rattle.syn_scan.specs.Found.{Found};
ghost use Rattle.syn_session.specs.Carrying.{AsksOne};
ghost use Rattle.syn_session.specs.Stages.{AreAskedBefore, Carries, IsCarriedFor, IsCarriageOf};
ghost use Rattle.syn_session.specs.Stages.{IsPlanProgress, Reached, plan_in};
ghost use Rattle.syn_image.specs.Archives.{kept_for};

use super::PlanRunner;
use crate::RecordOutcome;
use crate::session_end::SessionEnd;
use std::alloc::Global;
use syn_disk::Disk;
use syn_image::ItemRecord;
use syn_model::plan_laws;
use syn_propagate::Next;
use syn_refusal::Refusal;
use syn_scan::Scan;
use syn_session::{Asks, Carrying, Doing, PlanProgress};

impl<D: Disk> PlanRunner<D> {
    ghost use Rattle.syn_coordinator.specs.inner.Advancing.{Breaks};
    ghost use Rattle.syn_coordinator.specs.inner.Settling.{AsksSo, EndsSo, IsPast, IsQuiet};
    ghost use Rattle.syn_coordinator.specs.inner.Settling.{PassesOn};

    /// Keeps in the archive what is due for the item that the session has come to, and goes past
    /// the item. The session ends as its record does, and 11 where memory is refused.
    pub(super) fn record_item(
        &mut self,
        alloc: Global,
        progress: &mut PlanProgress,
        item_record: ItemRecord,
    ) -> Result<(), SessionEnd>
        ensures step { (pair : ℕ) (journal : Journal) (left right : Found) (taken : Exchange)
            (before : Reached) (planned : Planned) → IsMachine self.old.archive pair journal
            → IsQuiet self.old journal → IsPlanProgress progress.old left right before
            → slice_get (plan_in progress.old left right) progress.old.cursor ≡ Some planned
            → IsDue progress.old.cursor planned taken (kept_for item_record)
            → MatchResult result
            (λ _. IsPast self.old self.new pair taken journal before progress.new left right)
            (EndsSo self.old self.new pair taken journal before progress.new left right) }
        ensures breaks { Breaks self.old self.new result }
    {
        let outcome = self.keep(alloc, item_record);
        if self.archive.is_cut() {
            return Err(SessionEnd::Failed);
        }
        match outcome {
            RecordOutcome::Recorded => {
                progress.pass_kept();
                Ok(())
            }
            RecordOutcome::Refused(why) => Ok(progress.refuse(alloc, why)?),
            RecordOutcome::Ends(why) => Err(SessionEnd::Early(why)),
            RecordOutcome::Unsent => Err(SessionEnd::Failed),
            RecordOutcome::Tried => Err(SessionEnd::Failed),
        }
    }

    /// Asks for the first piece of the item that the session has come to, which is carried; or goes
    /// past the item where the archive refuses its record. The session ends 11 where memory is
    /// refused.
    fn carry(
        &self,
        alloc: Global,
        progress: &mut PlanProgress,
        carrying: Carrying,
    ) -> Result<Option<Asks>, SessionEnd>
        requires { IsReady carrying.transfer }
        ensures step { (pair : ℕ) (journal : Journal) (left right : Found) (taken : Exchange)
            (all : List Exchange) (before : Reached) (planned : Planned)
            → IsMachine self.now.archive pair journal → IsQuiet self.now journal
            → IsAtItem progress.old left right all before
            → slice_get (plan_in progress.old left right) progress.old.cursor ≡ Some planned
            → IsCarriageOf (spec_of carrying.transfer) planned progress.old.cursor
            → record_for planned planned.item ≡ Some (kept_for carrying.item_record)
            → MatchResult result (λ next. MatchOption next
            (IsPast self.now self.now pair taken journal before progress.new left right)
            (AsksSo self.now self.now pair taken journal before progress.new left right all))
            (EndsSo self.now self.now pair taken journal before progress.new left right) }
        ensures memory { IfErr result (λ ended. ended ≡ SessionEnd.Early Refusal.Memory) }
    {
        if let Err(error) = self.archive.fits(&carrying.item_record) {
            progress.refuse(alloc, error.refusal())?;
            return Ok(None);
        }
        Ok(Some(ask_first(alloc, progress, carrying)?))
    }

    /// Handles one item after another until a side has to be asked, or the session ends. The
    /// session ends without a refusal after the last item, and otherwise as an item ends it. The
    /// loop is bounded by more items than a plan can have; past them the session would end 11.
    pub(super) fn walk(
        &mut self,
        alloc: Global,
        progress: &mut PlanProgress,
        left: &Scan,
        right: &Scan,
    ) -> Result<Asks, SessionEnd>
        ensures step { (pair : ℕ) (journal : Journal) (taken : Exchange) (all : List Exchange)
            (before : Reached) → IsMachine self.old.archive pair journal
            → IsQuiet self.old journal → IsAtItem progress.old left.now right.now all before
            → MatchResult result
            (AsksSo self.old self.new pair taken journal before progress.new left.now right.now all)
            (EndsSo self.old self.new pair taken journal before progress.new left.now right.now) }
        ensures breaks { Breaks self.old self.new result }
    {
        for _ in 0..u64::MAX {
            if let Some(asks) = self.pass(alloc, progress, left, right)? {
                return Ok(asks);
            }
        }
        Err(SessionEnd::Early(Refusal::Memory))
    }

    /// Goes past the item that the session has come to, or asks for its first piece. The session
    /// ends without a refusal where no item is left, 11 where memory is refused, and else as the
    /// record of the item does.
    fn pass(
        &mut self,
        alloc: Global,
        progress: &mut PlanProgress,
        left: &Scan,
        right: &Scan,
    ) -> Result<Option<Asks>, SessionEnd>
        ensures step { (pair : ℕ) (journal : Journal) (taken : Exchange) (all : List Exchange)
            (before : Reached) → IsMachine self.old.archive pair journal
            → IsQuiet self.old journal → IsAtItem progress.old left.now right.now all before
            → MatchResult result (λ next. MatchOption next
            (PassesOn self.old self.new pair taken journal before progress.new left.now right.now
            all)
            (AsksSo self.old self.new pair taken journal before progress.new left.now right.now
            all))
            (EndsSo self.old self.new pair taken journal before progress.new left.now right.now) }
        ensures breaks { Breaks self.old self.new result }
    {
        match progress.doing(alloc, left, right)? {
            Doing::Nothing => Err(SessionEnd::PlanDone),
            Doing::Conflict(path) => {
                progress.pass_conflict(path)?;
                Ok(None)
            }
            Doing::Mark(item_record) => {
                self.record_item(alloc, progress, item_record)?;
                Ok(None)
            }
            Doing::Carry(carrying) => self.carry(alloc, progress, carrying),
        }
    }
}

/// Asks for the first piece of the item that the session has come to, which is carried. The session
/// ends 11 where memory is refused.
fn ask_first(
    alloc: Global,
    progress: &mut PlanProgress,
    carrying: Carrying,
) -> Result<Asks, SessionEnd>
    requires { IsReady carrying.transfer }
    ensures step { (archive : Keeping) (left right : Found) (all : List Exchange)
        (before : Reached) (planned : Planned) → IsPlanProgress progress.old left right before
        → slice_get (plan_in progress.old left right) progress.old.cursor ≡ Some planned
        → IsCarriedFor archive carrying planned progress.old.cursor
        → AreAskedBefore (plan_in progress.old left right) progress.old.cursor all
        → IfOk result (λ asks. Carries archive progress.new left right all before
        (λ transfer. AsksOne transfer all asks)) }
    ensures memory { IfErr result (λ ended. ended ≡ SessionEnd.Early Refusal.Memory) }
    ensures stays { OnErr result (progress.new ≡ progress.old) }
{
    plan_laws();
    let mut carrying = carrying;
    match carrying.transfer.step(alloc, None) {
        Ok(Next::Ask(ask)) => {
            drop(progress.carrying.replace(carrying));
            Ok(Asks::One(ask))
        }
        Ok(_) => unreachable!(),
        Err(error) => {
            drop(carrying);
            Err(SessionEnd::Early(error.refusal()))
        }
    }
}
