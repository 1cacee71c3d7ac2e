//! What a lawful disk is not refused for.
ghost use Rattle.syn_replica.specs.Lawful.{LawfulDisksOpen};

use crate::opening_laws;

/// A disk that stands for a history of the wanted pair opens, unless a device call fails or memory
/// is refused.
pub fn disk_laws()
    ensures { LawfulDisksOpen }
{
    opening_laws();
}
