//! The definitions from path to plan that the other crates cite, and the laws that hold of them.
//!
//! # What it promises
//!
//! - There is one synchronization that the definition asks for, and the plan gives it (`one`,
//!   `synchronizes`). This holds unless two files at one path, one on each side, have one digest
//!   and different bytes. In any case the plan gives its archive (`reconciles`).
//! - What a history leaves is a tree within the limits (`tree`, `fits`).
//! - No spelling of a part of a tree begins that of another, nor one of marks (`tells`).
//! - Each lawful image of a replica or an archive fits a half of a journal's disk (`image_fits`).
//! - A formatted disk stands for no events, and a payload goes on from there (`formatted`,
//!   `payload`).
//! - From the floor on the touches that an image keeps tell what was touched (`touches`).
#![tactic(auto)]

ghost use Rattle.syn_model.specs.Laws.{SameAtEachPath, SubtreeHas, ReplacedHas, ReplacedIsThere};
ghost use Rattle.syn_model.specs.Laws.{OthersStay, ReplacedIsPart, SubtreeIsPart, SubtreeFits};
ghost use Rattle.syn_model.specs.Laws.{SubtreeFitsPaths, SpellingUnfolds, NoSpellingBeginsAnother};
ghost use Rattle.syn_model.specs.Laws.{DirtyIsClosed, DirtyIsSafe, OneSynchronization, NothingToDo};
ghost use Rattle.syn_model.specs.Laws.{HistoryIsTree, HistoryFits, PutFits, AllowedGoesOn};
ghost use Rattle.syn_model.specs.Laws.{StandingSteps, StandingAllows, TouchesTell, FormattedStands};
ghost use Rattle.syn_model.specs.Laws.{PayloadGoesOn, ImageStands, ImagesFit, HistoryImagesFit};
ghost use Rattle.syn_model.specs.Laws.{PathsGoByKey, MarkHas, MarkOfSubtree, MarkIsDigests};
ghost use Rattle.syn_model.specs.Plan.{NamesAreOnly, PlanIsInOrder, PlanIsOrderly, PlanIsDecided};
ghost use Rattle.syn_model.specs.Plan.{PlanSynchronizes, PlanReconciles, PlanHasDecided};
ghost use Rattle.syn_model.specs.Plan.{PlanOverwritesLawfully, ConflictsArePlanned};
ghost use Rattle.syn_model.specs.Plan.{ItemFindsArchive, ItemFindsSides, PreferenceSettles};
ghost use Rattle.syn_model.specs.ArchiveImage.{KeepingStaysSound, StandsForSound};
ghost use Rattle.syn_model.specs.ArchiveImage.{ArchiveImageStands, ArchiveImagesFit};
ghost use Rattle.syn_model.specs.ArchiveImage.{NewArchiveStands, RecordGoesOn};
ghost use Rattle.syn_model.specs.MarkSpelling.{NoMarkSpellingBeginsAnother};
ghost use Rattle.syn_model.specs.Rows.{ItemsOfOneNameHold, Floors, RefusedEditsHold, Spellings};

mod ranges;

pub use ranges::{are_bytes, is_long, is_short};

/// Paths compare as bytes: by their names, each followed by one zero byte.
pub fn path_laws()
    ensures order { PathsGoByKey }
{}

/// What a tree has after a part of it is taken or replaced.
pub fn tree_laws()
    ensures same { SameAtEachPath }
    ensures subtree { SubtreeHas }
    ensures replaced { ReplacedHas }
    ensures there { ReplacedIsThere }
    ensures others { OthersStay }
    ensures part { ReplacedIsPart }
    ensures below { SubtreeIsPart }
    ensures fits { SubtreeFits }
    ensures fits_paths { SubtreeFitsPaths }
{}

/// The spelling of a tree, or of a part of one, tells it.
pub fn spelling_laws()
    ensures unfolds { SpellingUnfolds }
    ensures tells { NoSpellingBeginsAnother }
{}

/// Marks are taken path by path.
pub fn mark_laws()
    ensures has { MarkHas }
    ensures subtree { MarkOfSubtree }
    ensures digests { MarkIsDigests }

    // Their spelling tells them, as long as they are no more than an archive holds.
    ensures tells { NoMarkSpellingBeginsAnother }
{}

/// A scan's dirty paths are closed upward, and none is missed.
pub fn dirty_laws()
    ensures closed { DirtyIsClosed }
    ensures safe { DirtyIsSafe }
{}

/// A synchronization is determined by the two trees and what is dirty on each side.
pub fn synchronization_laws()
    ensures one { OneSynchronization }
    ensures nothing { NothingToDo }
{}

/// The items of a plan stand in order, and carrying them out gives a synchronization, and the
/// archive of it.
pub fn plan_laws()
    ensures names { NamesAreOnly }
    ensures order { PlanIsInOrder }
    ensures orderly { PlanIsOrderly }
    ensures decided { PlanIsDecided }
    ensures overwrites { PlanOverwritesLawfully }
    ensures has { PlanHasDecided }
    ensures conflicts { ConflictsArePlanned }
    ensures archive { ItemFindsArchive }
    ensures sides { ItemFindsSides }
    ensures synchronizes { PlanSynchronizes }
    ensures reconciles { PlanReconciles }
    ensures settles { PreferenceSettles }
{}

/// What a history of allowed events leaves is a tree within the limits, and an allowed event goes
/// on it.
pub fn history_laws()
    ensures tree { HistoryIsTree }
    ensures fits { HistoryFits }
    ensures put { PutFits }
    ensures goes_on { AllowedGoesOn }

    // An image keeps of a history what the next events need.
    ensures steps { StandingSteps }
    ensures allows { StandingAllows }
    ensures touches { TouchesTell }

    // And an image with the payloads of allowed events stands for their history.
    ensures formatted { FormattedStands }
    ensures payload { PayloadGoesOn }
    ensures image { ImageStands }
    ensures standing_fits { ImagesFit }
    ensures image_fits { HistoryImagesFit }
{}

/// An archive's image with the payloads of records stands for the archive that they leave.
pub fn archive_laws()
    ensures keeping { KeepingStaysSound }
    ensures sound { StandsForSound }
    ensures image { ArchiveImageStands }
    ensures image_fits { ArchiveImagesFit }
    ensures formatted { NewArchiveStands }
    ensures record { RecordGoesOn }
{}

/// The definitions give what the worked examples say.
pub fn worked_rows()
    ensures items { ItemsOfOneNameHold }
    ensures floors { Floors }
    ensures refused { RefusedEditsHold }
    ensures spellings { Spellings }
{}
