//! What is done after a session, so that the next opening is short.

use std::alloc::Global;
use syn_coordinator::Coordinator;
use syn_disk::Disk;
use syn_shared::{ROOM_IN_SHORT_JOURNAL, SharedReplica, keep_up};

/// An archive's journal is short where it takes a payload of so many bytes. Its largest image has
/// 409,524 bytes, so a checkpoint makes each journal short.
const ROOM_IN_SHORT_ARCHIVE: usize = 3_700_000;

/// Makes a checkpoint of the replica where its journal is not short, or opens it again where a
/// device call had failed, as a server does (`keep_up`). Where that is refused, the replica opens
/// as it would have without it, and the session before it stands.
pub(crate) fn shorten<D: Disk>(alloc: Global, replica: &SharedReplica<D>) {
    if let Ok(mut pass) = replica.own().pass() {
        let _step = keep_up(alloc, replica, &mut pass, ROOM_IN_SHORT_JOURNAL);
    }
}

/// Makes a checkpoint of the coordinator's archive where its journal is not short.
pub(crate) fn shorten_archive<D: Disk>(alloc: Global, coordinator: &mut Coordinator<D>) {
    if coordinator.archive().room() < ROOM_IN_SHORT_ARCHIVE {
        let _made = coordinator.checkpoint(alloc);
    }
}
