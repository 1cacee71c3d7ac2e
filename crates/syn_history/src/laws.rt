//! What holds of trails.
ghost use Rattle.syn_history.specs.Past.{PastSteps, PastGoesOn};

use syn_model::history_laws;

/// What is kept beside a tree goes on by an event whatever the tree is, and so does that of a
/// history.
pub fn trail_laws()
    ensures steps { PastSteps }
    ensures goes_on { PastGoesOn }
{
    history_laws();
}
