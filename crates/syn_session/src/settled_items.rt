//! What became so far of the items of a session.
ghost use Rattle.std.specs.Prelude.{◌≡◌, None, length, option_map};
ghost use Rattle.syn_machine.specs.Coordinator.{Running, report_of};
ghost use Rattle.syn_session.specs.Reports.{report_model};
ghost use Rattle.syn_session.specs.Sessions.{Tells};
ghost use Rattle.syn_session.specs.SettledItems.{nothing_settled, settled_by, settled_in};

use crate::report::Report;
use crate::session::Session;
use syn_path::Path;
use syn_refusal::Refusal;

/// What became so far of the items of a session, as its report will have it.
#[derive(Clone, Copy, Debug)]
pub struct SettledItems<'a> {
    /// How many items the plan has; none before it is made, and once its session has ended.
    pub planned: Option<usize>,
    /// How many items were carried to the other side and recorded.
    pub done: u32,
    /// How many items were recorded since both sides agreed already.
    pub marked: u32,
    /// The paths that were changed on both sides, in path order.
    pub conflicts: &'a [Path],
    /// The items that were refused, in path order, each with the refusal.
    pub refused: &'a [(Refusal, Path)],
}

impl<'a> SettledItems<'a> {
    /// No item is settled.
    pub fn nothing() -> SettledItems<'a>
        ensures settled { settled_by result ≡ nothing_settled }
        ensures planned { result.planned ≡ None }
    {
        SettledItems {
            planned: None,
            done: 0,
            marked: 0,
            conflicts: &[],
            refused: &[],
        }
    }
}

impl Session {
    /// What became so far of the items of its plan; nothing before the plan is made.
    pub fn settled(&self) -> SettledItems<'_>
        ensures settled { (running : Running) → Tells self.now running
            → settled_by result ≡ settled_in (report_of running None) }
        ensures planned { result.planned
            ≡ option_map (λ progress. length progress.items.items) self.now.progress }
    {
        match &self.progress {
            Some(progress) => SettledItems {
                planned: Some(progress.items.len()),
                done: progress.done,
                marked: progress.marked,
                conflicts: &progress.conflicts,
                refused: &progress.refused,
            },
            None => SettledItems::nothing(),
        }
    }
}

impl Report {
    /// What became of the items of the session that reports it.
    pub fn settled(&self) -> SettledItems<'_>
        ensures settled { settled_by result ≡ settled_in (report_model self.now) }
        ensures planned { result.planned ≡ None }
    {
        SettledItems {
            planned: None,
            done: self.done,
            marked: self.marked,
            conflicts: &self.conflicts,
            refused: &self.refused,
        }
    }
}
