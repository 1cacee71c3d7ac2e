//! What holds of marks that are put into others.
ghost use Rattle.syn_mark.specs.Changes.{PutPartFits};

use syn_model::tree_laws;

/// What may be put somewhere within the limits of an archive is within them by itself.
pub fn replacement_laws()
    ensures fits { PutPartFits }
{
    tree_laws();
}
