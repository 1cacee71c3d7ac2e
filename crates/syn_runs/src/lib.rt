//! The world of three machines, and what holds of every run of it.
//!
//! `syn_machine` says what one machine does, with no world. Here the world's steps lift it
//! (`specs/World.antt`), and the sentences hold of every list of such steps (`Runs`). The product
//! stands on the machines alone. What it owes is that each call is such a step, and nothing about
//! runs, so only the world and the simulator stand on this crate.
//!
//! # What is promised of runs
//!
//! Each sentence over runs speaks of a picture of the world (`Picture`): what each machine stands
//! for and was writing, and what was sent, acknowledged and reported. It has no rooms, generations,
//! arms and transcripts. `Follows` says what a step may do to it, and what its user is refused. It
//! is of that very step: an edit is made as the user asked at that side, a session prefers what its
//! start asked for, and the message that a delivery names is taken. A step changes nothing only for
//! a cause (`IsIdle`), which its user is told where there is one. That each run of the exact world
//! is one of the picture by the same steps, with the same refusals, is a law (`pictured` of
//! `run_laws`). So the exact machines, of which the rest speaks, are read for what a session owes.
//!
//! # What is proved of runs
//!
//! `run_laws` says that each replacement is legal, each archive entry was held, nothing was asked
//! twice, and each plan is logged. Each report is that of a session of the run, with the causes of
//! its end and of its refusals (`EachReportTells`), and no session ends 23: each side answers what
//! it was asked (`AnswersBelong`). An answer that a session waits for is taken (`TakesExpected`). A
//! replacement that a side has is answered done as long as it is the last, and old after that
//! (`RepeatsAreAnswered`).
//!
//! `session_laws` says what a complete session leaves, reports, counts and marks. What it leaves on
//! the two sides (`synchronized`) has one premise: no two files that the session found at one path,
//! one on each side, have one digest and different bytes. No other sentence has a premise.
//!
//! # What machines over a network do
//!
//! A server and a coordinator know of no world. What each does is a trace of its own: the holds of
//! a side (`HoldsAll`) and the acts of the coordinator (`ActsAll`). `merge_laws` says that what is
//! merged of three such traces is a run (`IsMerged`, `IsRunOf`), with the same journals, events,
//! refusals, reports and plans, and the same steps. So all that is promised of runs is promised of
//! it. `specs/Merged.antt` says which order the merge has to be in.
#![tactic(auto)]

ghost use Rattle.syn_runs.specs.Laws.{ServesAllowed, PiecesAreUntouched, RepeatsAreDone};
ghost use Rattle.syn_runs.specs.Laws.{LaterAreOld, DeadAreOld, ServesByReading};
ghost use Rattle.syn_runs.specs.Headline.{formatted, IsPair, UnmarkedIsPair};
ghost use Rattle.syn_runs.specs.Runs.{OfEachRun, RunsArePictured, RunsStand};
ghost use Rattle.syn_runs.specs.Headline.{EachReplacementIsLegal, EachTokenOnce};
ghost use Rattle.syn_runs.specs.Headline.{RecoveredIsLegal, EachEntryWasHeld, LeavesPair};
ghost use Rattle.syn_runs.specs.Headline.{LogsPlans, Owes, CompleteSessionsSynchronize};
ghost use Rattle.syn_runs.specs.Headline.{CompleteSessionsReconcile, ReportsItsConflicts};
ghost use Rattle.syn_runs.specs.Headline.{PreferenceLeavesOne, CountsItsItems, CarriedIsMarked};
ghost use Rattle.syn_runs.specs.Headline.{HeldIsMarked, StandsFor};
ghost use Rattle.syn_runs.specs.Reported.{AnswersBelong, EachReportTells};
ghost use Rattle.syn_runs.specs.Delivered.{RepeatsAreAnswered, TakesExpected};
ghost use Rattle.syn_runs.specs.Merged.{MergesAreRuns, OfEachMerge};

/// A step of a side leaves its history or adds one allowed event, and is the one that its staged
/// bytes spell. It answers a fetch only where nothing touched the path since its position, and a
/// repeat as done or as old.
pub fn side_laws()
    ensures serves { ServesAllowed }
    ensures reading { ServesByReading }
    ensures pieces { PiecesAreUntouched }
    ensures repeats { RepeatsAreDone }
    ensures later { LaterAreOld }
    ensures dead { DeadAreOld }
{}

/// Three formatted disks are a pair, and an archive without marks makes one of any two sides that
/// have begun no session after its last.
///
/// Every run, with stops and failing devices, is one of the picture by the same steps. In it the
/// machines stand for what was acknowledged, each replacement is legal, each plan is logged, and
/// each report tells of its session, which no answer ends that does not belong to what was asked.
pub fn run_laws()
    ensures formatted { IsPair formatted }
    ensures unmarked { UnmarkedIsPair }
    ensures pictured { RunsArePictured }
    ensures stands { RunsStand }
    ensures legal { OfEachRun EachReplacementIsLegal }
    ensures recovered { OfEachRun RecoveredIsLegal }
    ensures tokens { OfEachRun EachTokenOnce }
    ensures archive { OfEachRun EachEntryWasHeld }
    ensures pair { OfEachRun LeavesPair }
    ensures logged { OfEachRun LogsPlans }
    ensures owe { OfEachRun Owes }
    ensures reports { OfEachRun EachReportTells }
    ensures belong { OfEachRun AnswersBelong }
    ensures taken { TakesExpected }
    ensures repeats { RepeatsAreAnswered }
{}

/// In every run a complete session without edits leaves the synchronization of what it found and
/// the archive of it, and equal sides where it prefers one; it reports its conflicts, counts its
/// items, and marks what was carried before it.
pub fn session_laws()
    ensures synchronized { OfEachRun CompleteSessionsSynchronize }
    ensures reconciled { OfEachRun CompleteSessionsReconcile }
    ensures preferred { OfEachRun PreferenceLeavesOne }
    ensures conflicts { OfEachRun ReportsItsConflicts }
    ensures counts { OfEachRun CountsItsItems }
    ensures marked { OfEachRun CarriedIsMarked }
    ensures held { OfEachRun HeldIsMarked }
{}

/// What two sides that are served over connections and one coordinator did, each by itself, is a
/// run, where it is merged into one list so that each request which changes a side, and each reply
/// that is taken, had been sent. So what the other laws say of runs holds of it: the machines stand
/// for what was acknowledged, each replacement is legal, both sides held what the archive has, each
/// report tells of its session, and a complete session without edits leaves the synchronization of
/// what it found.
pub fn merge_laws()
    ensures merged { MergesAreRuns }
    ensures stands { OfEachMerge StandsFor }
    ensures legal { OfEachMerge EachReplacementIsLegal }
    ensures archive { OfEachMerge EachEntryWasHeld }
    ensures pair { OfEachMerge LeavesPair }
    ensures reports { OfEachMerge EachReportTells }
    ensures synchronized { OfEachMerge CompleteSessionsSynchronize }
    ensures reconciled { OfEachMerge CompleteSessionsReconcile }
{}
