//! What a replica has in memory, and how its disk spells it.
ghost use Rattle.std.specs.Prelude.{◌<◌, ◌^◌};
ghost use Rattle.syn_model.specs.Event.{Event};
ghost use Rattle.syn_model.specs.History.{History};
ghost use Rattle.syn_model.specs.Image.{image_spelling};
ghost use Rattle.syn_replica.specs.ErrorRefusals.{refusal_of};
ghost use Rattle.syn_replica.specs.Updates.{IsReady};
ghost use Rattle.syn_replica.specs.declared.error.ReplicaError.TheVariants.{Journal};
ghost use Rattle.syn_replica.specs.inner.Memories.{Gives, GivesOld, IsUnread, IsUnreadOld};
ghost use Rattle.syn_replica.specs.inner.Memories.{IsUnreadAgain, MayFollow, StepsBy, kept_as};

use crate::reading::read_replica;
use crate::{ReplicaError, Standing, Update, opening_laws};
use std::alloc::Global;
use syn_image::{encode_replica, is_old_replica};
use syn_journal::{JournalError, State};
use syn_model::{history_laws, is_long};
use syn_refusal::Refusal;
use syn_wire::Version;

/// What a replica has in memory, for one pair.
#[derive(Drop)]
pub(crate) struct Remembered {
    /// The number of the pair.
    pub(crate) pair: u64,
    /// What is kept of the history.
    pub(crate) standing: Standing,
}

impl State for Remembered {
    type Update = Update;

    type Error = ReplicaError;

    ghost why = { λ error. refusal_of error };

    ghost of_journal = { λ error. Journal error };

    ghost pair = { λ memory. memory.pair };

    ghost spelling = { λ memory. image_spelling memory.pair memory.standing };

    ghost gives = { Gives };

    ghost unread = { IsUnread };

    ghost gives_old = { GivesOld };

    ghost unread_old = { IsUnreadOld };

    ghost follows = { MayFollow };

    ghost unread_again = { IsUnreadAgain };

    ghost Kept = { History };

    ghost Added = { Event };

    ghost kept_as = { kept_as };

    ghost ready = { λ memory update. IsReady memory.standing update };

    ghost makes = { StepsBy };

    fn keeping_laws() {
        history_laws();
        opening_laws();
    }

    fn refused(error: JournalError) -> ReplicaError {
        ReplicaError::from(error)
    }

    fn refusal(error: &ReplicaError) -> Refusal {
        error.refusal()
    }

    fn image(&self, alloc: Global) -> Option<Vec<u8>> {
        let standing = &self.standing;
        encode_replica(alloc, self.pair, standing.tree(), standing.trail()).ok()
    }

    fn read(
        alloc: Global,
        image: &[u8],
        payloads: &[Vec<u8>],
        wanted: Option<u64>,
    ) -> Result<Remembered, ReplicaError> {
        if is_old_replica(image) {
            return Err(ReplicaError::OldVersion);
        }
        read_replica(alloc, Version::Two, image, wanted, payloads)
    }

    fn read_old(
        alloc: Global,
        image: &[u8],
        payloads: &[Vec<u8>],
    ) -> Result<Remembered, ReplicaError> {
        read_replica(alloc, Version::One, image, None, payloads)
    }

    /// Refused 19 too where the image is of another pair, and where both give fewer events than are
    /// remembered, so that no reopening goes back.
    fn read_again(
        &self,
        alloc: Global,
        image: &[u8],
        payloads: &[Vec<u8>],
    ) -> Result<Remembered, ReplicaError> {
        opening_laws();
        is_long(self.pair);
        let read = read_replica(alloc, Version::Two, image, None, payloads)?;
        if read.pair != self.pair {
            return Err(ReplicaError::Damaged);
        }
        if read.standing.trail().position() < self.standing.trail().position() {
            return Err(ReplicaError::Damaged);
        }
        Ok(read)
    }

    fn make(&mut self, update: Update) {
        self.standing.make(update);
    }
}
