//! How a session goes past the items of its plan.
ghost use Rattle.std.specs.Prelude.{◌≡◌, ◌+◌, ◌<◌, ◌^◌, Some, OnErr, OnOk, false, slice_get};
ghost use Rattle.std.specs.Prelude.{IsOk, true};
ghost use Rattle.syn_machine.specs.Planning.{Planned};
ghost use Rattle.syn_machine.specs.Report.{conflict_at, is_carrying};
ghost use Rattle.syn_machine.specs.Session.{record_for};
ghost use Rattle.syn_model.specs.Archive.{Kept};
ghost use Rattle.syn_model.specs.Decision.{Conflict, path_of};
ghost use Rattle.syn_recon.specs.Items.{item_of};
ghost use Rattle.syn_refusal.specs.Refusals.{cause_of};
ghost use Rattle.syn_scan.specs.Found.{Found};

use crate::plan_progress::PlanProgress;
use std::alloc::{AllocError, Global};
use syn_model::plan_laws;
use syn_path::Path;
use syn_recon::Item;
use syn_refusal::Refusal;

impl PlanProgress {
    ghost use Rattle.std.specs.Prelude.{None};
    ghost use Rattle.syn_session.specs.Passing.{kept_at, past_at, refused_at};
    ghost use Rattle.syn_session.specs.Stages.{IsPlanProgress, Reached, plan_in};

    /// Counts the current item as a conflict, and moves to the next. Refused 11 where memory is
    /// refused.
    pub fn pass_conflict(&mut self, path: Path) -> Result<(), AllocError>
        ensures passes { (left right : Found) (reached : Reached) (planned : Planned)
            → IsPlanProgress self.old left right reached
            → slice_get (plan_in self.old left right) self.old.cursor ≡ Some planned
            → planned.item ≡ Conflict path
            → OnOk result (IsPlanProgress self.new left right (past_at reached)) }
        ensures stays { (left right : Found) (reached : Reached)
            → IsPlanProgress self.old left right reached
            → OnErr result (IsPlanProgress self.new left right reached) }
    {
        self.conflicts.push(path)?;
        self.cursor = one_more(self.cursor);
        Ok(())
    }

    /// Counts the current item, which is at the path, as refused, and moves to the next. Refused 11
    /// where memory is refused.
    pub(crate) fn pass_refused(&mut self, why: Refusal, path: Path) -> Result<(), AllocError>
        ensures passes { (left right : Found) (reached : Reached) (planned : Planned)
            → IsPlanProgress self.old left right reached
            → slice_get (plan_in self.old left right) self.old.cursor ≡ Some planned
            → path_of planned.item ≡ path → conflict_at planned.item ≡ None
            → OnOk result (IsPlanProgress self.new left right
            (refused_at reached (cause_of why) planned)) }
        ensures stays { (left right : Found) (reached : Reached)
            → IsPlanProgress self.old left right reached
            → OnErr result (IsPlanProgress self.new left right reached) }
    {
        self.refused.push((why, path))?;
        self.cursor = one_more(self.cursor);
        Ok(())
    }

    /// Counts the current item as refused, and moves to the next. Where no item is left it does
    /// nothing. Refused 11 where memory is refused.
    pub fn refuse(&mut self, alloc: Global, why: Refusal) -> Result<(), AllocError>
        ensures passes { (left right : Found) (reached : Reached) (planned : Planned)
            → IsPlanProgress self.old left right reached
            → slice_get (plan_in self.old left right) self.old.cursor ≡ Some planned
            → conflict_at planned.item ≡ None → OnOk result (IsPlanProgress self.new left right
            (refused_at reached (cause_of why) planned)) }
        ensures stays { (left right : Found) (reached : Reached)
            → IsPlanProgress self.old left right reached
            → OnErr result (IsPlanProgress self.new left right reached) }
        ensures none { (left right : Found)
            → slice_get (plan_in self.old left right) self.old.cursor ≡ None
            → IsOk result × (self.new ≡ self.old) }
    {
        let Some(item) = self.items.get(self.cursor as usize) else {
            return Ok(());
        };
        let path = item.path().copy(alloc)?;
        self.pass_refused(why, path)
    }

    /// Counts the current item, whose record is kept, as carried or marked, and moves to the next.
    /// Where no item is left it does nothing.
    pub fn pass_kept(&mut self)
        ensures passes { (left right : Found) (reached : Reached) (planned : Planned) (what : Kept)
            → IsPlanProgress self.old left right reached
            → slice_get (plan_in self.old left right) self.old.cursor ≡ Some planned
            → record_for planned planned.item ≡ Some what
            → IsPlanProgress self.new left right (kept_at reached what) }
    {
        let Some(item) = self.items.get(self.cursor as usize) else {
            return;
        };
        if is_carried(item) {
            self.pass_carried();
        } else {
            self.pass_marked();
        }
    }

    /// Counts the current item, whose record is kept, as carried, and moves to the next.
    pub(crate) fn pass_carried(&mut self)
        ensures passes { (left right : Found) (reached : Reached) (planned : Planned) (what : Kept)
            → IsPlanProgress self.old left right reached
            → slice_get (plan_in self.old left right) self.old.cursor ≡ Some planned
            → record_for planned planned.item ≡ Some what → is_carrying planned.item ≡ true
            → IsPlanProgress self.new left right (kept_at reached what) }
    {
        plan_laws();
        self.done = one_more(self.done);
        self.cursor = one_more(self.cursor);
    }

    /// Counts the current item, whose record is kept, as marked, and moves to the next.
    pub(crate) fn pass_marked(&mut self)
        ensures passes { (left right : Found) (reached : Reached) (planned : Planned) (what : Kept)
            → IsPlanProgress self.old left right reached
            → slice_get (plan_in self.old left right) self.old.cursor ≡ Some planned
            → record_for planned planned.item ≡ Some what → is_carrying planned.item ≡ false
            → IsPlanProgress self.new left right (kept_at reached what) }
    {
        plan_laws();
        self.marked = one_more(self.marked);
        self.cursor = one_more(self.cursor);
    }
}

/// One more, as far as that fits.
fn one_more(count: u32) -> u32
    ensures { count + 1 < 2 ^ 32 → result ≡ count + 1 }
{
    count.saturating_add(1)
}

/// Whether what stands at its path goes from one side to the other.
fn is_carried(item: &Item) -> bool
    ensures { result ≡ is_carrying (item_of item.now) }
{
    matches!(item, Item::ToLeft(_) | Item::ToRight(_))
}
