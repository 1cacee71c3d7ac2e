//! What a transfer carries, and what it asks for that.
ghost use Rattle.std.specs.Prelude.{◌≡◌, IfErr, IfOk};
ghost use Rattle.syn_machine.specs.Side.{IsLawfulBody, Fetch, Stage, Replace};
ghost use Rattle.syn_model.specs.Path.{IsPath};

use crate::error::TransferError;
use crate::next::{Next, SideRequest};
use std::alloc::{AllocError, Global};
use syn_message::{Request, StagedPiece};
use syn_model::{is_long, is_short};
use syn_path::{Path, Side};

/// An item that a session carries: what stands at the path on one side is put there on the other.
#[derive(Debug, Drop)]
pub struct TransferSpec {
    /// Where it is fetched. It is staged and put on the other side.
    pub source: Side,
    /// Its number in the session's plan.
    pub item: u32,
    pub path: Path,
    /// No event may have touched the path on the source from this position on.
    pub source_since: u64,
    /// The same on the other side.
    pub target_since: u64,
}

impl TransferSpec {
    ghost use Rattle.syn_propagate.specs.Carrying.{source_of, target_of};
    ghost use Rattle.syn_propagate.specs.Asking.{AsksFor};

    /// Asks the source for the piece from the offset on. Refused 11 where memory is refused.
    pub(crate) fn fetch(&self, alloc: Global, offset: u32) -> Result<Next, TransferError>
        ensures asks { IfOk result (λ next. AsksFor next (source_of self.now)
            (Fetch self.now.path self.now.source_since offset)) }
        ensures lawful { IsLawfulBody (Fetch self.now.path self.now.source_since offset) }
        ensures memory { IfErr result (λ e. e ≡ TransferError.Memory) }
    {
        let since = self.source_since;
        is_long(since);
        is_short(offset);
        let path = self.copy_path(alloc)?;
        let request = Request::Fetch {
            path,
            since,
            offset,
        };
        Ok(Next::Ask(SideRequest {
            to: self.source,
            request,
        }))
    }

    /// Asks the other side to stage a piece.
    pub(crate) fn stage(&self, offset: u32, piece: StagedPiece) -> Next
        ensures asks { AsksFor result (target_of self.now) (Stage self.now.item offset piece) }
        ensures lawful { IsLawfulBody (Stage self.now.item offset piece) }
    {
        let item = self.item;
        is_short(item);
        is_short(offset);
        let _ = piece.as_slice();
        let request = Request::Stage {
            item,
            offset,
            piece,
        };
        Next::Ask(SideRequest {
            to: self.source.other(),
            request,
        })
    }

    /// Asks the other side to put what is staged, of so many bytes. Refused 11 where memory is
    /// refused.
    pub(crate) fn replace(&self, alloc: Global, length: u32) -> Result<Next, TransferError>
        ensures asks { IfOk result (λ next. AsksFor next (target_of self.now)
            (Replace self.now.item self.now.path self.now.target_since length)) }
        ensures lawful { IsLawfulBody
            (Replace self.now.item self.now.path self.now.target_since length) }
        ensures memory { IfErr result (λ e. e ≡ TransferError.Memory) }
    {
        let item = self.item;
        let since = self.target_since;
        is_short(item);
        is_long(since);
        is_short(length);
        let path = self.copy_path(alloc)?;
        let request = Request::Replace {
            item,
            path,
            since,
            length,
        };
        Ok(Next::Ask(SideRequest {
            to: self.source.other(),
            request,
        }))
    }

    /// A copy of the path. Refused where memory is refused.
    fn copy_path(&self, alloc: Global) -> Result<Path, AllocError>
        ensures ok { IfOk result (λ path. path ≡ self.now.path) }
        ensures lawful { IsPath self.now.path }
    {
        let _ = self.path.names();
        self.path.copy(alloc)
    }
}
