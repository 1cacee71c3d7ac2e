//! What holds of every course of a replacement, at whatever moment it is cut off.
ghost use Rattle.syn_folder.specs.Courses.{IsMendedByStart, IsOverWithoutNote, KeepsWhatItTook};
ghost use Rattle.syn_folder.specs.Courses.{MayBeTakenUp};

/// What was taken away from a path is never lost, and a stop at any moment, with a start after it,
/// leaves at the path what it had, or what it was to get, or what somebody else put there.
pub(super) fn stop_laws()
    ensures kept { KeepsWhatItTook }
    ensures taken_up { MayBeTakenUp }
    ensures over { IsOverWithoutNote }
    ensures mended { IsMendedByStart }
{}
