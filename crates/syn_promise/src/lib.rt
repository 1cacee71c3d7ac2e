//! What is promised of a run, in one record, and that every run keeps it.
//!
//! # What it promises
//!
//! `Promised before steps told now` (`specs/Promise.antt`) is the promise of a run by these steps,
//! over four things that its user has: what the three disks stood for before it, the steps, what
//! it told (`Told`), and what the disks stand for now, after a stop of all machines. Each of its
//! fields is one sentence. No machine, message, disk or byte is in it.
//!
//! - `Come` (`Steps.antt`): each step was made as it was asked for, or its user was told why not,
//!   or its machine was off, as stops and openings leave it (`Power.antt`). What a machine was
//!   making as it stopped is in its `Condition`: at most that stands beside what was acknowledged.
//! - `KeepsToPlan` (`Records.antt`): each change of a session kept to its plan when it was written,
//!   and so did one that a stop cut off. A replacement is legal, and a record is of an item of the
//!   last session's plan, whose part was put before it.
//! - `IsPlanned`, `IsLegal`, `Synchronizes` and `Tells` (`Sessions.antt`): what a session looks at,
//!   puts, leaves and reports.
//!
//! `asked` says that a run of the picture does what its steps ask for, and nothing that none asks
//! for. So a run that makes an edit of its own, in which a session prefers a side of its own, or
//! that does nothing and tells nobody, is none.
//!
//! `promise` says that every run of the world keeps it. Each sentence follows from those of
//! `syn_runs`, of the world's picture: what a side answered was so, since no answer of a run is
//! false. It also says that the rules of the model allow each change as it is written
//! (`AllowsEachChange`): no session adds to a side that has begun a later one.
#![tactic(auto)]

ghost use Rattle.syn_promise.specs.Asked.{EditsAreAsked, PreferencesAreAsked, EditsAreMade};
ghost use Rattle.syn_promise.specs.Asked.{StartsAreMade};
ghost use Rattle.syn_promise.specs.Laws.{AllowsEachChange, RunsKeepPromise};
ghost use Rattle.syn_promise.specs.Records.{RecordsKeepToPlan};
ghost use Rattle.syn_runs.specs.Runs.{OfEachRun};

/// A run of the picture does what its steps ask for, and nothing that none asks for. Each edit that
/// a side acknowledges, or was making, is a step, and so is a start with the preference of each
/// session. What the archive records keeps to a plan. An edit and a start that are refused for
/// nothing, and leave their machine up, are made.
pub fn asked()
    ensures edits { EditsAreAsked }
    ensures preferences { PreferencesAreAsked }
    ensures records { RecordsKeepToPlan }
    ensures made { EditsAreMade }
    ensures started { StartsAreMade }
{}

/// Every run of the world keeps its promise, whatever its disks may stand for after it, and the
/// rules allow each change that it acknowledges.
pub fn promise()
    ensures kept { RunsKeepPromise }
    ensures allowed { OfEachRun AllowsEachChange }
{
    syn_runs::run_laws();
    syn_runs::session_laws();
    asked();
}
