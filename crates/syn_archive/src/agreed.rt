//! What an archive has in memory, and how its disk spells it.
ghost use Rattle.std.specs.Prelude.{◌≡◌};
ghost use Rattle.syn_archive.specs.inner.Agreements.{Gives, GivesOld, IsReady, IsUnread};
ghost use Rattle.syn_archive.specs.inner.Agreements.{IsUnreadAgain, IsUnreadOld, agreed_archive};
ghost use Rattle.syn_archive.specs.inner.Agreements.{after_update, kept_as};
ghost use Rattle.syn_archive.specs.Refusals.{refusal_of, of_journal};
ghost use Rattle.syn_model.specs.Archive.{Archive as KeptArchive, Kept as KeptRecord};
ghost use Rattle.syn_model.specs.MarkSpelling.{archive_spelling};

use crate::error::ArchiveError;
use crate::laws::opening_laws;
use crate::opening::{read_archive, read_own, read_wanted};
use std::alloc::Global;
use syn_image::{ArchiveImage, encode_archive};
use syn_journal::{JournalError, State};
use syn_mark::{MarkChange, MarkTree};
use syn_model::archive_laws;
use syn_refusal::Refusal;
use syn_wire::Version;

/// What both sides last agreed on, for one pair.
#[derive(Drop)]
pub(crate) struct Agreed {
    /// The number of the pair.
    pub(crate) pair: u64,
    /// The number of the last session; 0 before the first.
    pub(crate) last_session: u64,
    /// The marks.
    pub(crate) marks: MarkTree,
}

impl From<ArchiveImage> for Agreed {
    ghost use Rattle.std.specs.Prelude.{◌≡◌};
    ghost use Rattle.syn_archive.specs.inner.Agreements.{agreed_of};

    ghost from_gives = { λ read agreed. agreed ≡ agreed_of read };

    fn from(read: ArchiveImage) -> Agreed {
        let ArchiveImage {
            pair,
            last_session,
            marks,
        } = read;
        Agreed {
            pair,
            last_session,
            marks,
        }
    }
}

/// What a record changes of it, with all memory for it.
#[derive(Drop)]
pub(crate) enum Update {
    /// The session that begins.
    Session(u64),
    /// Marks that stand at a path.
    Marks(MarkChange),
}

impl State for Agreed {
    type Update = Update;

    type Error = ArchiveError;

    ghost why = { λ error. refusal_of error };

    ghost of_journal = { λ error. of_journal error };

    ghost pair = { λ agreed. agreed.pair };

    ghost spelling = { λ agreed. archive_spelling agreed.pair (agreed_archive agreed) };

    ghost gives = { Gives };

    ghost unread = { IsUnread };

    ghost gives_old = { GivesOld };

    ghost unread_old = { IsUnreadOld };

    ghost follows = { λ old new. new.pair ≡ old.pair };

    ghost unread_again = { IsUnreadAgain };

    ghost Kept = { KeptArchive };

    ghost Added = { KeptRecord };

    ghost kept_as = { kept_as };

    ghost ready = { IsReady };

    ghost makes = { λ old update new. new ≡ after_update old update };

    fn keeping_laws() {
        archive_laws();
        opening_laws();
    }

    fn refused(error: JournalError) -> ArchiveError {
        ArchiveError::from(error)
    }

    fn refusal(error: &ArchiveError) -> Refusal {
        error.refusal()
    }

    fn image(&self, alloc: Global) -> Option<Vec<u8>> {
        encode_archive(alloc, self.pair, self.last_session, &self.marks).ok()
    }

    fn read(
        alloc: Global,
        image: &[u8],
        payloads: &[Vec<u8>],
        wanted: Option<u64>,
    ) -> Result<Agreed, ArchiveError> {
        opening_laws();
        let read = read_wanted(alloc, image, wanted, payloads)?;
        Ok(Agreed::from(read))
    }

    fn read_old(alloc: Global, image: &[u8], payloads: &[Vec<u8>]) -> Result<Agreed, ArchiveError> {
        opening_laws();
        let read = read_archive(alloc, Version::One, image, payloads)?;
        Ok(Agreed::from(read))
    }

    fn read_again(
        &self,
        alloc: Global,
        image: &[u8],
        payloads: &[Vec<u8>],
    ) -> Result<Agreed, ArchiveError> {
        opening_laws();
        let read = read_own(alloc, image, self.pair, payloads)?;
        Ok(Agreed::from(read))
    }

    fn make(&mut self, update: Update) {
        match update {
            Update::Session(session) => self.last_session = session,
            Update::Marks(change) => self.marks.make(change),
        }
    }
}
