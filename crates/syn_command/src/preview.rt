//! What a session of two servers would do, where none runs.
ghost use Rattle.std.specs.Prelude.{◌≡◌, ◌⊎◌, IfErr, IfOk, option_map};
ghost use Rattle.syn_machine.specs.Side.{ListAt};
ghost use Rattle.syn_message.specs.Replies.{IsLawfulReply, reply_of};
ghost use Rattle.syn_path.specs.Sides.{which_of};
ghost use Rattle.syn_model.specs.Plan.{plan};
ghost use Rattle.syn_model.specs.Refusal.{Memory};
ghost use Rattle.syn_refusal.specs.Refusals.{cause_of};
ghost use Rattle.syn_command.specs.Listings.{IsScanned, IsUnlisted, NotScanned};
ghost use Rattle.syn_recon.specs.Items.{items_of};
ghost use Rattle.syn_scan.specs.Found.{scan_of};
ghost use Rattle.syn_user.specs.Sides.{IsReplied, side_state};

use std::alloc::Global;
use std::io::{Read, Write};
use syn_mark::{MOST_NODES, MarkTree};
use syn_message::Reply;
use syn_path::{Path, Side};
use syn_recon::{Compared, plan};
use syn_refusal::Refusal;
use syn_scan::Scan;
use syn_session::SideScan;
use syn_user::SideConnection;

/// The plan of a session of both sides with an archive of these marks, which prefers a side or
/// none.
///
/// Refused as a session that scans the sides ends early: with what a side refuses a listing, 22
/// where one has more than 4,096 nodes, 23 where its answers are none, and 11 where memory is
/// refused.
pub fn plan_between<R: Read, W: Write>(
    alloc: Global,
    left: &mut SideConnection<R, W>,
    right: &mut SideConnection<R, W>,
    archive: &MarkTree,
    preference: Option<Side>,
) -> Result<Compared, Refusal>
    ensures items { IfOk result (λ compared. items_of compared.items.items
        ≡ plan (option_map which_of preference) (scan_of compared.left) (scan_of compared.right)
        archive.now) }
    ensures left { IfOk result (λ compared.
        IsScanned (side_state R.remaining W.contents left.old) compared.left
        (side_state R.remaining W.contents left.new)) }
    ensures right { IfOk result (λ compared.
        IsScanned (side_state R.remaining W.contents right.old) compared.right
        (side_state R.remaining W.contents right.new)) }

    // Which side is not scanned, and why. The right is asked nothing where the left is not.
    ensures cause { IfErr result (λ why. (cause_of why ≡ Memory)
        ⊎ ((NotScanned (side_state R.remaining W.contents left.old) (cause_of why)
        (side_state R.remaining W.contents left.new) × (right.new ≡ right.old))
        ⊎ NotScanned (side_state R.remaining W.contents right.old) (cause_of why)
        (side_state R.remaining W.contents right.new))) }
{
    let left = scan_side(alloc, left)?;
    let right = scan_side(alloc, right)?;
    match plan(alloc, &left, &right, archive, preference) {
        Ok(items) => Ok(Compared { left, right, items }),
        Err(error) => Err(error.refusal()),
    }
}

/// What the side shows, once each of its directories was listed.
fn scan_side<R: Read, W: Write>(
    alloc: Global,
    side: &mut SideConnection<R, W>,
) -> Result<Scan, Refusal>
    ensures scanned { IfOk result (λ scan.
        IsScanned (side_state R.remaining W.contents side.old) scan
        (side_state R.remaining W.contents side.new)) }
    ensures cause { IfErr result (λ why. (cause_of why ≡ Memory)
        ⊎ NotScanned (side_state R.remaining W.contents side.old) (cause_of why)
        (side_state R.remaining W.contents side.new)) }
{
    let Ok(mut scan) = SideScan::new(alloc) else {
        return Err(Refusal::Memory);
    };
    // One call more than there can be directories says that none is left.
    for _ in 0..=MOST_NODES {
        match scan.next(alloc) {
            Ok(Some(path)) => {
                let reply = list_side(alloc, side, &path)?;
                scan.take(alloc, &path, reply)?;
            }
            Ok(None) => return Ok(scan.into_scan()),
            Err(_) => return Err(Refusal::Memory),
        }
    }
    Err(Refusal::TooLarge)
}

/// The reply of the side to a listing of the directory. Refused as `SideConnection::list` is.
fn list_side<R: Read, W: Write>(
    alloc: Global,
    side: &mut SideConnection<R, W>,
    path: &Path,
) -> Result<Reply, Refusal>
    ensures lawful { IfOk result (λ reply. IsLawfulReply (reply_of reply)) }
    ensures listed { IfOk result (λ reply. IsReplied (side_state R.remaining W.contents side.old)
        (side_state R.remaining W.contents side.new) (ListAt path.now) (reply_of reply)) }
    ensures refused { IfErr result (λ why. IsUnlisted (side_state R.remaining W.contents side.old)
        (side_state R.remaining W.contents side.new) path.now (cause_of why)) }
{
    side.list(alloc, path).map_err(|error| error.refusal())
}
