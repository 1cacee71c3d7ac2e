//! What came of a reconciliation.
ghost use Rattle.std.specs.Prelude.{◌≡◌};
ghost use Rattle.syn_model.specs.Decision.{path_of};
ghost use Rattle.syn_recon.specs.Items.{item_of};
ghost use Rattle.syn_reconcile.specs.Settlements.{count_ended, settlement_of};
ghost use Rattle.syn_reconcile.specs.Settlements.{is_conflict, is_done, is_marked, is_refused};

use syn_path::Path;
use syn_recon::Item;
use syn_refusal::Refusal;

/// An item of a plan, and what came of it.
#[derive(Debug, Drop)]
pub struct Settled {
    pub item: Item,
    /// Why it was not carried out; none where it was.
    pub refused: Option<Refusal>,
}

/// How an item ended.
#[derive(Clone, Copy, Debug, PartialEq, Eq)]
pub enum Settlement {
    /// It went to the other side, and was recorded.
    Done,
    /// It was recorded, since both sides have it already.
    Marked,
    /// Both sides changed, and nothing was done.
    Conflict,
    /// It was not carried out, for this reason.
    Refused(Refusal),
}

impl Settled {
    /// How it ended.
    pub fn settlement(&self) -> Settlement
        ensures { result ≡ settlement_of self.now.item self.now.refused }
    {
        match self.refused {
            Some(why) => Settlement::Refused(why),
            None => match &self.item {
                Item::ToLeft(_) | Item::ToRight(_) => Settlement::Done,
                Item::MarkSame(_) | Item::MarkDir(_) => Settlement::Marked,
                Item::Conflict(_) => Settlement::Conflict,
            },
        }
    }

    /// The path that it is for.
    pub fn path(&self) -> &Path
        ensures { result.now ≡ path_of (item_of self.now.item) }
    {
        self.item.path()
    }

    fn is_done(&self) -> bool
        ensures { result ≡ is_done (settlement_of self.now.item self.now.refused) }
    {
        matches!(self.settlement(), Settlement::Done)
    }

    fn is_marked(&self) -> bool
        ensures { result ≡ is_marked (settlement_of self.now.item self.now.refused) }
    {
        matches!(self.settlement(), Settlement::Marked)
    }

    fn is_conflict(&self) -> bool
        ensures { result ≡ is_conflict (settlement_of self.now.item self.now.refused) }
    {
        matches!(self.settlement(), Settlement::Conflict)
    }

    fn is_refused(&self) -> bool
        ensures { result ≡ is_refused (settlement_of self.now.item self.now.refused) }
    {
        matches!(self.settlement(), Settlement::Refused(_))
    }
}

/// What came of a reconciliation.
#[derive(Debug, Drop)]
pub struct Report {
    /// Each item of the plan, and what came of it, in path order.
    pub settled: Vec<Settled>,
}

impl Report {
    /// How many items went to the other side and were recorded.
    pub fn done(&self) -> usize
        ensures { result ≡ count_ended is_done self.now.settled.items }
    {
        self.settled.iter().filter(|one| one.is_done()).count()
    }

    /// How many items were recorded since both sides have them already.
    pub fn marked(&self) -> usize
        ensures { result ≡ count_ended is_marked self.now.settled.items }
    {
        self.settled.iter().filter(|one| one.is_marked()).count()
    }

    /// How many paths were changed on both sides.
    pub fn conflicts(&self) -> usize
        ensures { result ≡ count_ended is_conflict self.now.settled.items }
    {
        self.settled.iter().filter(|one| one.is_conflict()).count()
    }

    /// How many items were refused.
    pub fn refused(&self) -> usize
        ensures { result ≡ count_ended is_refused self.now.settled.items }
    {
        self.settled.iter().filter(|one| one.is_refused()).count()
    }
}
