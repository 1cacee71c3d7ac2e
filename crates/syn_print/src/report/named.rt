//! The items that a report names.
ghost use Rattle.std.specs.Prelude.{◌≡◌, IfOk, map};
ghost use Rattle.syn_session.specs.Reports.{report_model};
ghost use Rattle.syn_print.specs.Reports.{in_order, is_earlier, named_in};
ghost use Rattle.syn_print.specs.inner.Named.{named_of};

use std::alloc::{AllocError, Global};
use syn_path::Path;
use syn_refusal::Refusal;
use syn_session::Report;

/// An item that a report names. It is a conflict where it was not refused.
#[derive(Drop)]
pub(crate) struct Named<'a> {
    pub(crate) path: &'a Path,
    pub(crate) refused: Option<Refusal>,
}

/// The items that the report names, in path order.
pub(crate) fn items_of<'a>(alloc: Global, report: &'a Report) -> Result<Vec<Named<'a>>, AllocError>
    ensures { IfOk result (λ items. map named_of items.items
        ≡ in_order is_earlier (named_in (report_model report.now))) }
{
    let mut items = named_in(alloc, report)?;
    items.sort_by_key(|item| item.path)?;
    Ok(items)
}

/// The items that the report names, first its conflicts, and then what was refused.
fn named_in<'a>(alloc: Global, report: &'a Report) -> Result<Vec<Named<'a>>, AllocError>
    ensures { IfOk result (λ items. map named_of items.items
        ≡ named_in (report_model report.now)) }
{
    let conflicts = report.conflicts.iter().map(|path| Named {
        path,
        refused: None,
    });
    let refused = report.refused.iter().map(|(why, path)| Named {
        path,
        refused: Some(*why),
    });
    conflicts.chain(refused).collect(alloc)
}
