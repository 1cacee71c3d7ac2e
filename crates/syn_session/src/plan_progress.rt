//! How a session goes through its plan.
ghost use Rattle.std.specs.Prelude.{◌≡◌, IfOk, option_map};
ghost use Rattle.syn_path.specs.Sides.{which_of};
ghost use Rattle.syn_model.specs.Plan.{plan};
ghost use Rattle.syn_recon.specs.Items.{items_of};
ghost use Rattle.syn_scan.specs.Found.{scan_of};

use std::alloc::{AllocError, Global};
use syn_image::ItemRecord;
use syn_mark::MarkTree;
use syn_path::{Path, Side};
use syn_propagate::Transfer;
use syn_recon::{Item, plan};
use syn_refusal::Refusal;
use syn_scan::Scan;

/// A plan of more items than this is refused.
const MOST_ITEMS: usize = 0xffff_ffff;

/// What is carried for an item, and what the archive is to have once that is done.
#[derive(Debug, Drop)]
pub struct Carrying {
    pub transfer: Transfer,
    pub item_record: ItemRecord,
}

/// The plan of a session, the item that it has come to, and what became of those before.
#[derive(Debug, Drop)]
pub struct PlanProgress {
    pub items: Vec<Item>,
    pub cursor: u32,
    /// What is carried for the item at the cursor, while the session waits for an answer.
    pub carrying: Option<Carrying>,
    /// How many items were carried to the other side and recorded.
    pub(crate) done: u32,
    /// How many items were recorded since both sides agreed already.
    pub(crate) marked: u32,
    pub(crate) conflicts: Vec<Path>,
    pub(crate) refused: Vec<(Refusal, Path)>,
}

impl PlanProgress {
    ghost use Rattle.syn_session.specs.Passing.{first_reached};
    ghost use Rattle.syn_session.specs.Stages.{IsPlanProgress, plan_in};

    /// The plan of two scans and the archive, where a side is preferred or none, of which nothing
    /// is carried out yet. Refused 11 where memory is refused, or where the plan has 2^32 items or
    /// more.
    pub fn new(
        alloc: Global,
        left: &Scan,
        right: &Scan,
        archive: &MarkTree,
        preference: Option<Side>,
    ) -> Result<PlanProgress, AllocError>
        ensures begun { IfOk result (λ progress. IsPlanProgress progress left.now right.now
            (first_reached (plan_in progress left.now right.now))) }
        ensures items { IfOk result (λ progress. items_of progress.items.items
            ≡ plan (option_map which_of preference) (scan_of left.now) (scan_of right.now)
            archive.now) }
        ensures cursor { IfOk result (λ progress. progress.cursor ≡ 0) }
    {
        let Ok(items) = plan(alloc, left, right, archive, preference) else {
            return Err(AllocError);
        };
        if items.len() > MOST_ITEMS {
            return Err(AllocError);
        }
        Ok(PlanProgress {
            items,
            cursor: 0,
            carrying: None,
            done: 0,
            marked: 0,
            conflicts: Vec::new(alloc),
            refused: Vec::new(alloc),
        })
    }
}
