//! An archive that goes on with two replicas which have a history, where theirs is lost.

use crate::asking::{Addresses, ask_both};
use crate::named::{NamedDisks, replica_in};
use crate::pairs::{PairKeeper, status_in};
use std::alloc::Global;
use std::net::{Net, TcpStream};
use syn_cli::Between;
use syn_command::CommandError;
use syn_daemon::Sides;
use syn_disk::Access;
use syn_pair::{KnownSides, session_after};
use syn_path::Side;
use syn_sync::Unwatched;

/// Makes an archive of the pair, without marks, that goes on with both sides as they are: its last
/// session is the greater one of theirs, and what they say of themselves is kept beside it. The
/// next session therefore marks what is equal, carries what one side alone has, and leaves the rest
/// as conflicts. It removes nothing.
///
/// A stop leaves the old archive or the new one. Where what is kept beside it is still the old one,
/// the next session is refused, or has no mark to go by; the command is then run again.
///
/// Refused as an opening of the sides is; 12 where both are one, or the archive is one of them; 20
/// where a side is of another pair; 7 where a side has begun the last session that there is; and as
/// a format is.
pub fn format_after<H: Net<Stream = TcpStream>, N: NamedDisks>(
    rt: &H,
    alloc: Global,
    disks: &N,
    archive: &str,
    pair: u64,
    between: Between<'_>,
) -> Result<(), CommandError> {
    match between {
        Between::Servers { left, right } => {
            let sides = Sides::reach(rt, left, right, &mut Unwatched)?;
            let addresses = Addresses { left, right };
            let found = ask_both(rt, alloc, addresses, &sides, None, &mut Unwatched)?;
            begin_after(alloc, disks, archive, pair, found)
        }
        Between::Files { left, right } => {
            let left_replica = replica_in(alloc, disks, left)?;
            let right_replica = replica_in(alloc, disks, right)?;
            let status = |name: &str, replica, side| {
                status_in(alloc, disks, name, Access::Write, replica, side, None)
            };
            let found = KnownSides {
                left: status(left, &left_replica, Side::Left)?,
                right: status(right, &right_replica, Side::Right)?,
            };
            // Both stay locked until the archive goes on with them.
            let begun = begin_after(alloc, disks, archive, pair, found);
            drop(left_replica);
            drop(right_replica);
            begun
        }
    }
}

/// Makes the archive that goes on with the sides, which were found so.
fn begin_after<N: NamedDisks>(
    alloc: Global,
    disks: &N,
    archive: &str,
    pair: u64,
    found: KnownSides,
) -> Result<(), CommandError> {
    let session = session_after(pair, &found.left, &found.right).map_err(CommandError::Apart)?;
    disks.format_after(alloc, archive, pair, session)?;
    PairKeeper::open(alloc, disks, archive)?.keep(&found)
}
