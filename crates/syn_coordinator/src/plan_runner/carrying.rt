//! How a session goes on after an answer for the item that is carried.
ghost use Rattle.std.specs.Prelude.{◌≡◌, ℕ, List, MatchResult};
ghost use Rattle.syn_machine.specs.Coordinator.{Exchange, IsDue, IsFor};
ghost use Rattle.syn_machine.specs.Network.{Which};
ghost use Rattle.syn_machine.specs.Side.{Request as Asked, Refused};
ghost use Rattle.syn_coordinator.specs.Machines.{IsMachine, Journal};
ghost use Rattle.syn_message.specs.Replies.{reply_of};
ghost use Rattle.syn_propagate.specs.Transfers.{WaitsFor};
ghost use Rattle.syn_refusal.specs.Refusals.{cause_of};
ghost use Rattle.syn_session.specs.Answering.{exchange_of};
ghost use Rattle.syn_session.specs.Stages.{Carries, Reached};
ghost use Rattle.syn_image.specs.Archives.{kept_for};

use super::PlanRunner;
use crate::session_end::SessionEnd;
use std::alloc::Global;
use syn_disk::Disk;
use syn_image::ItemRecord;
use syn_message::Reply;
use syn_propagate::{Next, transfer_laws};
use syn_refusal::Refusal;
use syn_scan::Scan;
use syn_session::{Asks, PlanProgress};

impl<D: Disk> PlanRunner<D> {
    ghost use Rattle.syn_coordinator.specs.inner.Advancing.{Breaks};
    ghost use Rattle.syn_coordinator.specs.inner.Carrying.{CarriesOn, EndsCarrying, LeavesItem};
    ghost use Rattle.syn_coordinator.specs.inner.Settling.{IsQuiet};

    /// Takes the answer for the item that the session has come to, which is carried, and goes on
    /// through the plan until it asks for something, or the session ends.
    ///
    /// It ends 23 where the answer does not belong to what was asked, 11 where memory is refused,
    /// and else as the walk through the plan does.
    pub(super) fn carry_on(
        &mut self,
        alloc: Global,
        progress: &mut PlanProgress,
        left: &Scan,
        right: &Scan,
        reply: Reply,
    ) -> Result<Asks, SessionEnd>
        ensures step { (pair : ℕ) (journal : Journal) (all : List Exchange) (before : Reached)
            (to : Which) (number : ℕ) (request : Asked)
            → IsMachine self.old.archive pair journal → IsQuiet self.old journal
            → Carries journal.value progress.old left.now right.now all before
            (λ transfer. WaitsFor transfer all to request)
            → let taken = exchange_of to number request (reply_of reply) in MatchResult result
            (CarriesOn self.old self.new pair taken journal before progress.new left.now right.now
            all)
            (EndsCarrying self.old self.new pair taken journal before progress.new left.now
            right.now all) }
        ensures breaks { Breaks self.old self.new result }
    {
        transfer_laws();
        let Some(mut carrying) = progress.carrying.take() else {
            return Err(SessionEnd::Early(Refusal::BadMessage));
        };
        // By calls, or the prover would look here at all that each holds.
        match carrying.transfer.step(alloc, Some(reply)) {
            Ok(Next::Ask(ask)) => {
                drop(progress.carrying.replace(carrying));
                Ok(Asks::One(ask))
            }
            Ok(Next::Done) => {
                drop(carrying.transfer);
                self.walk_after(alloc, progress, left, right, carrying.item_record)
            }
            Ok(Next::Refused(why)) => {
                drop(carrying);
                self.walk_past(alloc, progress, left, right, why)
            }
            Err(error) => {
                drop(carrying);
                Err(SessionEnd::Early(error.refusal()))
            }
        }
    }

    /// Keeps in the archive what is due for an item that is in its place on the other side, and
    /// goes on through the plan.
    fn walk_after(
        &mut self,
        alloc: Global,
        progress: &mut PlanProgress,
        left: &Scan,
        right: &Scan,
        item_record: ItemRecord,
    ) -> Result<Asks, SessionEnd>
        ensures step { LeavesItem self.old self.new progress.old progress.new left.now right.now
            (λ planned taken. IsDue progress.old.cursor planned taken (kept_for item_record))
            result }
        ensures breaks { Breaks self.old self.new result }
    {
        self.record_item(alloc, progress, item_record)?;
        self.walk(alloc, progress, left, right)
    }

    /// Goes past an item for which a side refused what it was asked, and on through the plan.
    fn walk_past(
        &mut self,
        alloc: Global,
        progress: &mut PlanProgress,
        left: &Scan,
        right: &Scan,
        why: Refusal,
    ) -> Result<Asks, SessionEnd>
        ensures step { LeavesItem self.old self.new progress.old progress.new left.now right.now
            (λ planned taken. (taken.reply ≡ Refused (cause_of why))
            × IsFor progress.old.cursor planned taken.request) result }
        ensures breaks { Breaks self.old self.new result }
    {
        progress.refuse(alloc, why)?;
        self.walk(alloc, progress, left, right)
    }
}
