//! What is carried for an item of the plan.
ghost use Rattle.std.specs.Prelude.{◌≡◌, IfOk};
ghost use Rattle.syn_model.specs.Archive.{Recorded};
ghost use Rattle.syn_model.specs.Path.{parent};
ghost use Rattle.syn_model.specs.Tree.{subtree};
ghost use Rattle.syn_propagate.specs.Transfers.{IsReady, spec_of};
ghost use Rattle.syn_scan.specs.Found.{position_of};
ghost use Rattle.syn_image.specs.Archives.{kept_for};

use crate::plan_progress::Carrying;
use std::alloc::{AllocError, Global};
use syn_image::ItemRecord;
use syn_path::{Path, Side};
use syn_propagate::{Transfer, TransferSpec};
use syn_scan::Scan;

impl Carrying {
    /// What stands at the path on the source is carried to the other side, for the item with this
    /// number. Refused 11 where memory is refused.
    pub(crate) fn new(
        alloc: Global,
        source: Side,
        item: u32,
        path: &Path,
        from: &Scan,
        to: &Scan,
    ) -> Result<Carrying, AllocError>
        ensures item { IfOk result (λ carrying. (spec_of carrying.transfer).item ≡ item) }
        ensures source { IfOk result (λ carrying. (spec_of carrying.transfer).source ≡ source) }
        ensures path { IfOk result (λ carrying. (spec_of carrying.transfer).path ≡ path.now) }
        ensures source_since { IfOk result (λ carrying.
            (spec_of carrying.transfer).source_since ≡ position_of from.now (parent path.now)) }
        ensures target_since { IfOk result (λ carrying.
            (spec_of carrying.transfer).target_since ≡ position_of to.now (parent path.now)) }
        ensures record { IfOk result (λ carrying. kept_for carrying.item_record
            ≡ Recorded path.now (subtree from.now.marks path.now)) }
        ensures ready { IfOk result (λ carrying. IsReady carrying.transfer) }
    {
        let marks = from.tree().copy_at(alloc, path)?;
        let spec = TransferSpec {
            source,
            item,
            path: path.copy(alloc)?,
            source_since: from.position(path),
            target_since: to.position(path),
        };
        Ok(Carrying {
            transfer: Transfer::new(spec),
            item_record: ItemRecord::Record(path.copy(alloc)?, marks),
        })
    }
}
