//! Edits and replacements one after the other, of any form of a tree.
ghost use Rattle.std.specs.Prelude.{◌≡◌, IfOk, OnErr};
ghost use Rattle.syn_tree.specs.Turns.{Goes, RunsAgree, IsAnswer, after_answer};

use crate::form::TreeForm;
use crate::{Edit, Node, TreeError};
use std::alloc::Global;
use syn_path::Path;

/// An edit, or a replacement of all that is at and below a path.
#[derive(Debug, Drop)]
pub enum Turn {
    /// An edit.
    Edit(Edit),
    /// A replacement by what is given, or a removal.
    Replace(Path, Option<Node>),
}

/// Makes the turns one after the other. Each has an answer: none where it was made, else why it was
/// refused; a refused one changes nothing.
///
/// Refused 11 where memory for the answers is refused; then no turn was made.
pub fn run<T: TreeForm>(
    alloc: Global,
    form: &mut T,
    turns: Vec<Turn>,
) -> Result<Vec<Option<TreeError>>, TreeError>
    ensures goes { IfOk result (λ answers.
        Goes (T.tree form.old) turns.items answers.items (T.tree form.new)) }
    ensures same { OnErr result (form.new ≡ form.old) }
{
    let mut answers = Vec::with_capacity(alloc, turns.len())?;
    for turn in turns {
        let _ = answers.push(make(alloc, form, turn));
    }
    Ok(answers)
}

/// Makes the turn, and answers none or why it was refused.
fn make<T: TreeForm>(alloc: Global, form: &mut T, turn: Turn) -> Option<TreeError>
    ensures answer { IsAnswer (T.tree form.old) turn result }
    ensures after { T.tree form.new ≡ after_answer (T.tree form.old) turn result }
{
    let made = match turn {
        Turn::Edit(edit) => form.apply(alloc, edit),
        Turn::Replace(path, new) => form.replace(alloc, &path, new),
    };
    made.err()
}

/// Two forms of a tree that stand for equal trees, and meet no lack of memory, answer each turn
/// alike and stand for equal trees after it.
pub fn turn_laws()
    ensures { RunsAgree }
{}
