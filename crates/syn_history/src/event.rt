//! The events of a replica's history.

ghost use Rattle.std.specs.Prelude.{◌≡◌, IfOk};
ghost use Rattle.syn_history.specs.Events.{event_of};
ghost use Rattle.syn_tree.specs.Nodes.{part_of};

use crate::token::Token;
use std::alloc::{AllocError, Global};
use syn_path::Path;
use syn_tree::{Edit, Node};

/// What changes a replica. The event at position k takes its history from k to k + 1 events.
#[derive(Debug, Drop)]
pub enum Event {
    /// The user changes the tree: puts a file, makes a directory, changes a file's mode, or removes
    /// what is there.
    Edited {
        user: u32,
        edit: Edit,
    },
    /// The session with this number has begun.
    Began {
        session: u64,
    },
    /// A session's item puts what is given in the place of all that is at and below the path, or
    /// takes it out. No event from the position `since` on had touched the path.
    Replaced {
        token: Token,
        path: Path,
        since: u64,
        new: Option<Node>,
    },
}

impl Event {
    /// An equal one of its own. Refused where memory is refused.
    pub fn copy(&self, alloc: Global) -> Result<Event, AllocError>
        ensures { IfOk result (λ copy. event_of copy ≡ event_of self.now) }
    {
        match self {
            Event::Edited { user, edit } => {
                let edit = edit.copy(alloc)?;
                Ok(Event::Edited { user: *user, edit })
            }
            Event::Began { session } => Ok(Event::Began { session: *session }),
            Event::Replaced {
                token,
                path,
                since,
                new,
            } => {
                let path = path.copy(alloc)?;
                let new = copy_part(alloc, new)?;
                Ok(Event::Replaced {
                    token: *token,
                    path,
                    since: *since,
                    new,
                })
            }
        }
    }
}

/// An equal part of its own, or nothing. Refused where memory is refused.
fn copy_part(alloc: Global, part: &Option<Node>) -> Result<Option<Node>, AllocError>
    ensures { IfOk result (λ copy. part_of copy ≡ part_of part.now) }
{
    match part {
        Some(node) => Ok(Some(node.copy(alloc)?)),
        None => Ok(None),
    }
}
