//! What an event adds to a trail. A replica moves the bytes of an edit into its tree, so the event
//! itself is gone when its step is recorded.
ghost use Rattle.std.specs.Prelude.{◌≡◌, IfOk, IfErr};
ghost use Rattle.syn_history.specs.Events.{event_of};
ghost use Rattle.syn_history.specs.Trails.{step_of};

use crate::error::HistoryError;
use crate::event::Event;
use crate::token::Token;
use crate::touched_path::TouchedPath;
use std::alloc::Global;
use syn_path::Path;
use syn_tree::Edit;

/// What an event adds to a trail, ready with all memory for it: the event without what it puts.
#[derive(Debug, Drop)]
pub enum TrailStep {
    /// A user changes what is at the path.
    Edited(TouchedPath),
    /// The session with this number begins.
    Began(u64),
    /// A session's item replaces what is at the path.
    Replaced(Token, TouchedPath),
}

impl TrailStep {
    /// The step of the event, with a slot for its path if that is wanted. Refused 11 where memory
    /// is refused, and for no other cause; the begin of a session takes none.
    pub(crate) fn of(
        alloc: Global,
        event: &Event,
        has_slot: bool,
    ) -> Result<TrailStep, HistoryError>
        ensures step { IfOk result (λ step. step ≡ step_of (event_of event.now)) }
        ensures memory { IfErr result (λ e. e ≡ HistoryError.Memory) }
    {
        match event {
            Event::Edited { edit, .. } => {
                Ok(TrailStep::Edited(TouchedPath::of(alloc, edited_path(edit), has_slot)?))
            }
            Event::Began { session } => Ok(TrailStep::Began(*session)),
            Event::Replaced { token, path, .. } => {
                Ok(TrailStep::Replaced(*token, TouchedPath::of(alloc, path, has_slot)?))
            }
        }
    }
}

ghost use Rattle.syn_model.specs.Event.{edited_path as path_of_edit};
ghost use Rattle.syn_tree.specs.Edits.{edit_of};

/// The path that the edit changes.
fn edited_path(edit: &Edit) -> &Path
    ensures { result.now ≡ path_of_edit (edit_of edit.now) }
{
    match edit {
        Edit::Put(path, _) | Edit::MakeDir(path) | Edit::Remove(path) | Edit::Chmod(path, _) =>
            path,
    }
}
