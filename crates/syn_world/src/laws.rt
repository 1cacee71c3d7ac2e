//! What the laws of all runs say of the bytes of three disks.
ghost use Rattle.std.specs.Prelude.{◌≡◌, ◌<◌, ◌^◌, ℕ};
ghost use Rattle.syn_archive.specs.Archive as archives;
ghost use Rattle.syn_archive.specs.Archive.{archive_after};
ghost use Rattle.syn_model.specs.History.{History};
ghost use Rattle.syn_runs.specs.Headline.{unmarked};
ghost use Rattle.syn_world.specs.CrashSafety.{DisksAreStart, RunsKeepPair, RunsRecover};
ghost use Rattle.syn_world.specs.CrashSafety.{UnmarkedStand};
ghost use Rattle.syn_world.specs.Following.{BeganUpTo, MeetPremise, disks_under};

use syn_archive::Archive;
use syn_disk::Disk;
use syn_replica::Replica;

/// Three disks of a pair are a start. Whatever they may hold after a run from them stands for what
/// the run acknowledged, with at most the one change that each machine was making, and is a start
/// again. An archive without marks makes such disks with those of any two replicas of its pair,
/// where neither has begun a session after the archive's last one.
pub fn disk_laws()
    ensures start { DisksAreStart }
    ensures recovered { RunsRecover }
    ensures pair { RunsKeepPair }
    ensures unmarked { UnmarkedStand }
{
    syn_runs::run_laws();
}

/// An archive that [`Archive::format_after`] left goes on with any two replicas of its pair, of
/// whatever histories, where neither has begun a session after the one that it was given: the three
/// disks meet the premise of a run.
pub fn following_laws<D: Disk>(left: &Replica<D>, right: &Replica<D>, archive: &Archive<D>)
    ensures premise { (pair session : ℕ) (on_left on_right : History) → pair < 2 ^ 64
        → BeganUpTo pair session on_left left.now → BeganUpTo pair session on_right right.now
        → archives.pair_of archive.now ≡ pair → archives.Stands archive.now (archive_after session)
        → MeetPremise D.Disk pair (disks_under left.now right.now archive.now)
        (unmarked on_left on_right session) }
{
    let _ = left;
    let _ = right;
    let _ = archive;
    disk_laws();
}
