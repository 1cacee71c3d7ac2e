//! What came of a step of a machine.
ghost use Rattle.std.specs.Prelude.{◌≡◌, IfSome, map, option_map};
ghost use Rattle.syn_session.specs.Reports.{report_model};
ghost use Rattle.syn_image.specs.Archives.{kept_of};

use crate::copies::{copy_kept, copy_report};
use std::alloc::Global;
use syn_image::Kept;
use syn_refusal::Refusal;
use syn_session::{Report, Sending};

/// What came of a step of a side.
#[derive(Debug, Drop)]
pub enum SideOutcome {
    /// Nothing was acknowledged, and nothing refused.
    Nothing,
    /// This event was acknowledged, as it is spelled. It was added; or an opening gave it, and it
    /// was being written as the device failed or the machine stopped.
    Acknowledged(Vec<u8>),
    /// It was refused.
    Refused(Refusal),
}

/// What came of a step of the coordinator.
#[derive(Debug, Drop)]
pub struct CoordinatorOutcome {
    /// What its archive kept, in order.
    pub kept: Vec<Kept>,
    /// The requests that it sent, in order.
    pub sent: Vec<Sending>,
    /// The report of the session that ended in it, if one did.
    pub ended: Option<Report>,
    /// What it was refused with, if it was refused.
    pub refused: Option<Refusal>,
}

impl CoordinatorOutcome {
    ghost use Rattle.syn_world.specs.Outcomes.{TellsKept, TellsRefused};

    /// Nothing was kept, sent or reported. It takes no memory.
    pub(crate) fn refused_with(alloc: Global, refused: Option<Refusal>) -> CoordinatorOutcome
        ensures { TellsRefused result refused }
    {
        CoordinatorOutcome {
            kept: Vec::new(alloc),
            sent: Vec::new(alloc),
            ended: None,
            refused,
        }
    }

    /// What is heard where the machine stopped in that step: what was kept before. It takes no
    /// memory.
    pub(crate) fn kept_alone(self, alloc: Global) -> CoordinatorOutcome
        ensures { TellsKept result self.kept }
    {
        CoordinatorOutcome {
            kept: self.kept,
            sent: Vec::new(alloc),
            ended: None,
            refused: None,
        }
    }

    /// What came of a call, of which the coordinator lends what was kept and the report of a
    /// session that ended. None where memory for it is refused.
    pub(crate) fn gathered(
        alloc: Global,
        kept: &[Kept],
        sent: Vec<Sending>,
        ended: Option<&Report>,
        refused: Option<Refusal>,
    ) -> Option<CoordinatorOutcome>
        ensures kept { IfSome result (λ outcome. map kept_of outcome.kept.items
            ≡ map kept_of kept.now) }
        ensures sent { IfSome result (λ outcome. outcome.sent ≡ sent) }
        ensures ended { IfSome result (λ outcome. option_map report_model outcome.ended
            ≡ option_map (λ report. report_model report.now) ended.entry) }
        ensures refused { IfSome result (λ outcome. outcome.refused ≡ refused) }
    {
        let kept = copy_kept(alloc, kept).ok()?;
        let ended = copy_ended(alloc, ended)?;
        Some(CoordinatorOutcome {
            kept,
            sent,
            ended,
            refused,
        })
    }
}

/// The same report, if there is one. None where memory for it is refused.
fn copy_ended(alloc: Global, ended: Option<&Report>) -> Option<Option<Report>>
    ensures { IfSome result (λ copy. option_map report_model copy
        ≡ option_map (λ report. report_model report.now) ended.entry) }
{
    match ended {
        Some(report) => Some(Some(copy_report(alloc, report).ok()?)),
        None => Some(None),
    }
}
