//! The plan of two trees and marks.
ghost use Rattle.std.specs.Prelude.{◌≡◌, IfErr, IfOk, option_map};
ghost use Rattle.syn_model.specs.Plan.{plan, scan_of as scan_of_tree};
ghost use Rattle.syn_model.specs.Refusal.{Memory};
ghost use Rattle.syn_path.specs.Sides.{which_of};
ghost use Rattle.syn_refusal.specs.Refusals.{cause_of};
ghost use Rattle.syn_recon.specs.Items.{items_of};
ghost use Rattle.syn_scan.specs.Found.{scan_of};

use crate::tree_scan::scan_tree;
use crate::{Item, plan};
use std::alloc::Global;
use syn_mark::MarkTree;
use syn_path::Side;
use syn_refusal::Refusal;
use syn_scan::Scan;
use syn_tree::Tree;

/// What is to be done so that two trees and marks agree, and what a scan finds of both trees.
#[derive(Debug, Drop)]
pub struct Compared {
    pub left: Scan,
    pub right: Scan,
    /// What is to be done, in path order.
    pub items: Vec<Item>,
}

/// The plan of two trees and of the marks that both agreed on, where a side is preferred or none.
///
/// Refused 11 where memory is refused, and for no other cause: no tree has more nodes than a scan
/// may have.
pub fn compare(
    alloc: Global,
    left: &Tree,
    right: &Tree,
    archive: &MarkTree,
    preference: Option<Side>,
) -> Result<Compared, Refusal>
    ensures items { IfOk result (λ compared. items_of compared.items.items
        ≡ plan (option_map which_of preference) (scan_of_tree left.now)
        (scan_of_tree right.now) archive.now) }
    ensures left { IfOk result (λ compared. scan_of compared.left ≡ scan_of_tree left.now) }
    ensures right { IfOk result (λ compared. scan_of compared.right ≡ scan_of_tree right.now) }
    ensures memory { IfErr result (λ why. cause_of why ≡ Memory) }
{
    let left = match scan_tree(alloc, left) {
        Ok(scan) => scan,
        Err(error) => return Err(error.refusal()),
    };
    let right = match scan_tree(alloc, right) {
        Ok(scan) => scan,
        Err(error) => return Err(error.refusal()),
    };
    match plan(alloc, &left, &right, archive, preference) {
        Ok(items) => Ok(Compared { left, right, items }),
        Err(error) => Err(error.refusal()),
    }
}
