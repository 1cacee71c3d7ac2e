//! What a command that was done came to.
ghost use Rattle.std.specs.Prelude.{◌≡◌, ◌<◌};
ghost use Rattle.syn_command.specs.Status.{outcome_by};

use syn_session::{End, Report};

/// What a command that was done came to.
#[derive(Clone, Copy, Debug, PartialEq, Eq)]
pub enum Outcome {
    /// It did what it was to do. Where it ran a session, that is complete, with no conflict.
    Done,
    /// Its session is incomplete: it ended early, an item was refused, or a path changed its kind
    /// while it was scanned.
    Incomplete,
    /// Its session is complete, and has conflicts, or one that is planned would have some.
    Conflicts,
    /// The session that is planned would do something, and have no conflict.
    Work,
}

/// What the session came to.
pub fn outcome_of(report: &Report) -> Outcome
    ensures { result ≡ outcome_by report.now.end report.now.conflicts.items }
{
    match report.end {
        End::Incomplete => Outcome::Incomplete,
        End::Complete => match report.conflicts.as_slice() {
            [] => Outcome::Done,
            [_, ..] => Outcome::Conflicts,
        },
    }
}

/// What there is to do by a plan of so many items, of which so many are conflicts.
pub fn outcome_planned(items: usize, conflicts: usize) -> Outcome
    ensures conflicts { 0 < conflicts → result ≡ Outcome.Conflicts }
    ensures work { conflicts ≡ 0 → 0 < items → result ≡ Outcome.Work }
    ensures nothing { conflicts ≡ 0 → items ≡ 0 → result ≡ Outcome.Done }
{
    if conflicts > 0 {
        Outcome::Conflicts
    } else if items > 0 {
        Outcome::Work
    } else {
        Outcome::Done
    }
}
