//! What is to be done for an item of the plan.
ghost use Rattle.std.specs.Prelude.{IfOk};
ghost use Rattle.syn_recon.specs.Items.{item_of};
ghost use Rattle.syn_session.specs.Doings.{BeginsAnew};
ghost use Rattle.syn_session.specs.inner.Items.{IsDoingFor, IsMarked};

use crate::plan_progress::{Carrying, PlanProgress};
use std::alloc::{AllocError, Global};
use syn_image::ItemRecord;
use syn_model::plan_laws;
use syn_path::{Path, Side};
use syn_recon::Item;
use syn_scan::Scan;

/// What is to be done for the item that a session has come to.
#[derive(Debug, Drop)]
pub enum Doing {
    /// No item is left.
    Nothing,
    /// Both sides changed there: nothing is done.
    Conflict(Path),
    /// The archive is to have what both sides have.
    Mark(ItemRecord),
    /// A side is to have what the other has.
    Carry(Carrying),
}

impl PlanProgress {
    ghost use Rattle.syn_session.specs.Doings.{BeginsAnew, IsDoing};
    ghost use Rattle.syn_session.specs.Stages.{IsPlanProgress, Reached};

    /// What is to be done for the item at the cursor. Refused 11 where memory is refused.
    pub fn doing(&self, alloc: Global, left: &Scan, right: &Scan) -> Result<Doing, AllocError>
        ensures ok { (reached : Reached) → IsPlanProgress self.now left.now right.now reached
            → IfOk result (IsDoing self.now left.now right.now) }
        ensures ready { IfOk result BeginsAnew }
    {
        plan_laws();
        let Some(item) = self.items.get(self.cursor as usize) else {
            return Ok(Doing::Nothing);
        };
        doing_for(alloc, item, self.cursor, left, right)
    }
}

/// What is to be done for the item with this number. Refused 11 where memory is refused.
pub(crate) fn doing_for(
    alloc: Global,
    item: &Item,
    number: u32,
    left: &Scan,
    right: &Scan,
) -> Result<Doing, AllocError>
    ensures ok { IfOk result (IsDoingFor (item_of item.now) number left.now right.now) }
    ensures ready { IfOk result BeginsAnew }
{
    match item {
        Item::Conflict(path) => Ok(Doing::Conflict(path.copy(alloc)?)),
        Item::MarkSame(path) => mark(alloc, path, left),
        Item::MarkDir(path) => Ok(Doing::Mark(ItemRecord::Dir(path.copy(alloc)?))),
        Item::ToLeft(path) => {
            let carrying = Carrying::new(alloc, Side::Right, number, path, right, left)?;
            Ok(Doing::Carry(carrying))
        }
        Item::ToRight(path) => {
            let carrying = Carrying::new(alloc, Side::Left, number, path, left, right)?;
            Ok(Doing::Carry(carrying))
        }
    }
}

/// The archive is to have what both sides have at the path. Refused 11 where memory is refused.
fn mark(alloc: Global, path: &Path, left: &Scan) -> Result<Doing, AllocError>
    ensures ok { IfOk result (IsMarked path.now left.now) }
    ensures ready { IfOk result BeginsAnew }
{
    let marks = left.tree().copy_at(alloc, path)?;
    Ok(Doing::Mark(ItemRecord::Record(path.copy(alloc)?, marks)))
}
