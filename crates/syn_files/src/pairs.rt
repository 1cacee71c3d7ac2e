//! Whether an archive and its sides belong together, and what it keeps of them.
ghost use Rattle.std.specs.Prelude.{IfOk};
ghost use Rattle.syn_daemon.specs.Sessions.{BelongTo};

use crate::named::{Beside, NamedDisks};
use std::alloc::Global;
use std::io;
use syn_archive::Archive;
use syn_command::CommandError;
use syn_disk::{Access, Disk};
use syn_history::Identity;
use syn_image::Kept;
use syn_message::{Reply, ReplyMessage};
use syn_pair::{
    ArchiveStatus, Belonging, KnownSides, LAST_PLACE, SideStatus, check_pair, decode_known,
    encode_known,
};
use syn_path::Side;
use syn_refusal::Refusal;
use syn_replica::Replica;
use syn_session::{Report, SettledItems};
use syn_sync::SessionWatch;

/// What is known of the sides of an archive, which is kept beside it.
#[derive(Drop)]
pub(crate) struct PairKeeper<'a, N> {
    alloc: Global,
    disks: &'a N,
    archive: &'a str,
    known: Option<KnownSides>,
}

impl<'a, N: NamedDisks> PairKeeper<'a, N> {
    /// What is kept beside the archive of that name, if anything is.
    ///
    /// Refused 9 where it cannot be read, 19 where it is nothing that was kept so, and 11 where
    /// memory is refused.
    pub fn open(
        alloc: Global,
        disks: &'a N,
        archive: &'a str,
    ) -> Result<PairKeeper<'a, N>, CommandError> {
        let known = match disks.read_beside(alloc, archive, Beside::Sides)? {
            None => None,
            Some(bytes) => match decode_known(alloc, &bytes) {
                Ok(Some(known)) => Some(known),
                Ok(None) => return Err(CommandError::from(Refusal::Damaged)),
                Err(_) => return Err(CommandError::Memory),
            },
        };
        Ok(PairKeeper {
            alloc,
            disks,
            archive,
            known,
        })
    }

    /// What is known of the sides, if anything is.
    pub fn known(&self) -> Option<&KnownSides> {
        self.known.as_ref()
    }

    /// Whether a session of the archive may begin with the sides. Refused as `check_pair` is.
    pub fn check<D: Disk>(
        &self,
        archive: &Archive<D>,
        found: &KnownSides,
    ) -> Result<Belonging, CommandError>
        ensures { IfOk result (BelongTo archive.now) }
    {
        let status = ArchiveStatus {
            pair: archive.pair(),
            session: archive.last_session(),
            has_marks: archive.tree().node_count() > 1,
        };
        match check_pair(&status, self.known.as_ref(), &found.left, &found.right) {
            Ok(belonging) => Ok(belonging),
            Err(mismatch) => Err(CommandError::Apart(mismatch)),
        }
    }

    /// Keeps what was found of the sides, whole and durably.
    ///
    /// Refused 9 where it cannot be written, and 11 where memory is refused: then what was kept
    /// before is kept.
    pub fn keep(&self, found: &KnownSides) -> Result<(), CommandError> {
        self.keep_found(found)
    }

    /// Keeps what was found of the sides as a session ended, and knows it from then on.
    pub fn learn(&mut self, found: KnownSides) -> Result<(), CommandError> {
        self.keep(&found)?;
        self.known = Some(found);
        Ok(())
    }
}

/// What a replica in a file says of itself. Where `access` is to write, its disk gets an identity
/// if it has none.
///
/// Refused 9 where the identity cannot be read or written, and 11 where memory is refused.
pub(crate) fn status_in<N: NamedDisks, D: Disk>(
    alloc: Global,
    disks: &N,
    name: &str,
    access: Access,
    replica: &Replica<D>,
    side: Side,
    known: Option<&KnownSides>,
) -> Result<SideStatus, CommandError> {
    let identity = disks.identity(alloc, name, access)?;
    let place = match known {
        Some(known) => known.entry_for(side, identity).status.place,
        None => LAST_PLACE,
    };
    status_at(alloc, identity, replica, place)
}

/// What a replica of this identity says of itself, asked about the place.
///
/// Refused 11 where memory is refused.
pub(crate) fn status_at<D: Disk>(
    alloc: Global,
    identity: Option<Identity>,
    replica: &Replica<D>,
    place: u64,
) -> Result<SideStatus, CommandError> {
    let status = replica.status(alloc, place)?;
    Ok(SideStatus { identity, status })
}

/// Keeps what was found of both sides.
pub(crate) trait KeepsFound {
    /// Keeps it, whole and durably. Refused 9 where it cannot be written, and 11 where memory is
    /// refused.
    fn keep_found(&self, found: &KnownSides) -> Result<(), CommandError>;
}

impl<N: NamedDisks> KeepsFound for PairKeeper<'_, N> {
    fn keep_found(&self, found: &KnownSides) -> Result<(), CommandError> {
        let Ok(bytes) = encode_known(self.alloc, found) else {
            return Err(CommandError::Memory);
        };
        let (alloc, archive) = (self.alloc, self.archive);
        self.disks
            .write_beside(alloc, archive, Beside::Sides, &bytes)
    }
}

/// Has a session go on only once it is kept which sides have begun it.
///
/// A session lists nothing before both sides have begun it. What is kept then says of each that it
/// has begun the session, so that a copy of its disk from before is an older one from then on,
/// whatever stops later.
#[derive(Drop)]
pub(crate) struct BegunWatch<'w, V, K> {
    watch: &'w mut V,
    keeper: &'w K,
    found: KnownSides,
    has_left_begun: bool,
    has_right_begun: bool,
    /// Whether it was kept, once both have begun.
    kept: Option<Result<(), CommandError>>,
}

impl<'w, V, K: KeepsFound> BegunWatch<'w, V, K> {
    /// Neither side has begun. This was found of them before.
    pub fn new(watch: &'w mut V, keeper: &'w K, found: KnownSides) -> BegunWatch<'w, V, K> {
        BegunWatch {
            watch,
            keeper,
            found,
            has_left_begun: false,
            has_right_begun: false,
            kept: None,
        }
    }

    /// What is known of the sides where both have begun, and none where they have not. Refused
    /// where it could not be kept.
    pub fn into_found(self) -> Result<Option<KnownSides>, CommandError> {
        let BegunWatch { found, kept, .. } = self;
        match kept {
            None => Ok(None),
            Some(Ok(())) => Ok(Some(found)),
            Some(Err(error)) => Err(error),
        }
    }

    /// The side has begun the session, at this position.
    fn begin(&mut self, from: Side, session: u64, position: u64) {
        let side = match from {
            Side::Left => {
                self.has_left_begun = true;
                &mut self.found.left
            }
            Side::Right => {
                self.has_right_begun = true;
                &mut self.found.right
            }
        };
        side.status.session = session;
        side.status.position = side.status.position.max(position);
    }

    /// Keeps that both sides have begun, once they have. Whether the session may go on.
    fn keep_begun(&mut self) -> bool {
        if !self.has_left_begun || !self.has_right_begun || self.kept.is_some() {
            return true;
        }
        let kept = self.keeper.keep_found(&self.found);
        let goes_on = kept.is_ok();
        self.kept = Some(kept);
        goes_on
    }
}

impl<V: SessionWatch, K: KeepsFound> SessionWatch for BegunWatch<'_, V, K> {
    fn unreached(&mut self, side: Side, why: &io::Error) {
        self.watch.unreached(side, why);
    }

    fn heard(&mut self, from: Side, answered: &ReplyMessage) -> bool {
        if let Reply::Begun { position } = answered.reply {
            self.begin(from, answered.session, position);
        }
        self.keep_begun() && self.watch.heard(from, answered)
    }

    fn settled(&mut self, settled: &SettledItems<'_>, kept: &[Kept]) {
        self.watch.settled(settled, kept);
    }

    fn ended(&mut self, report: &Report) {
        self.watch.ended(report);
    }
}
