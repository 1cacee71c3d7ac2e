//! What holds of every layout of a journal, for the crates that prove over it.
ghost use Rattle.syn_journal.specs.Batches.{LeftBehindPayloads};
ghost use Rattle.syn_journal.specs.Calls.{StaysFree};
ghost use Rattle.syn_journal.specs.Layout.{LeftBehindPayload};

/// A record takes its bytes of those that are left, and so do many.
pub fn layout_laws()
    ensures left { LeftBehindPayload }
    ensures left_all { LeftBehindPayloads }
{}

/// An opening leaves nothing armed at a disk at which nothing was.
pub fn opening_laws()
    ensures { StaysFree }
{}
