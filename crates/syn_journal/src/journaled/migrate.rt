//! A migration: what a disk gives in an older version is written as one image.
ghost use Rattle.std.specs.Prelude.{None, Some, IfOk, IfErr, MatchResult};
ghost use Rattle.syn_journal.specs.Endings.{Reads};
ghost use Rattle.syn_journal.specs.Migrations.{Migrates, NotMigrated};
ghost use Rattle.syn_journal.specs.Openings.{NotOpened};

use super::Journaled;
use crate::state::State;
use crate::{Journal, Opened};
use std::alloc::Global;
use syn_disk::Disk;

impl<D: Disk, S: State + Drop> Journaled<D, S> {
    ghost use Rattle.syn_journal.specs.Journaled.{disk_of, Opened as IsOpened};
    ghost use Rattle.syn_journal.specs.Migrations.{Migrated};

    /// Opens what the disk holds in an older version, and writes it as one image.
    ///
    /// Refused as the journal is opened, and as no state is read. Refused 7 where the generation is
    /// the greatest that can be written or the image is too long, 11 where memory is refused, and 9
    /// where a device call fails. The disk comes back, and only after 9 may it have been written. A
    /// stop during the call leaves what the disk held, or the image alone with the next generation.
    pub fn migrate(alloc: Global, disk: D) -> Result<Journaled<D, S>, (S::Error, D)>
        ensures migrated { IfOk result (Migrated S.pair S.gives_old S.spelling (D.seen disk)) }
        ensures refused { IfErr result (λ refused. NotMigrated S.pair S.gives_old S.spelling
            S.of_journal S.unread_old refused.0 (D.seen disk)) }
        ensures device { MatchResult result
            (λ machine. Migrates D.Disk S.pair S.gives_old S.spelling None disk (disk_of machine))
            (λ refused. Migrates D.Disk S.pair S.gives_old S.spelling (Some (S.why refused.0)) disk
            refused.1) }
    {
        let mut machine = Journaled::open_old(alloc, disk)?;
        match machine.checkpoint(alloc) {
            Ok(()) => Ok(machine),
            Err(error) => Err((error, machine.into_disk())),
        }
    }

    /// Opens what the disk holds in an older version. Nothing is written.
    fn open_old(alloc: Global, disk: D) -> Result<Journaled<D, S>, (S::Error, D)>
        ensures opened { IfOk result (IsOpened S.pair S.gives_old (D.seen disk)) }
        ensures refused { IfErr result (λ refused.
            NotOpened S.of_journal (S.unread_old refused.0) refused.0 (D.seen disk)) }
        ensures device { MatchResult result
            (λ machine. Reads D.Disk None disk (disk_of machine))
            (λ refused. Reads D.Disk (Some (S.why refused.0)) disk refused.1) }
    {
        let opened = match Journal::open(alloc, disk) {
            Ok(opened) => opened,
            Err((error, disk)) => return Err((S::refused(error), disk)),
        };
        let Opened { journal, contents } = opened;
        match S::read_old(alloc, &contents.image, &contents.payloads) {
            Ok(state) => Ok(Journaled { journal, state }),
            Err(error) => Err((error, journal.into_disk())),
        }
    }
}
