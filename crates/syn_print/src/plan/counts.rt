//! How many items of each kind a plan has.
ghost use Rattle.std.specs.Prelude.{◌≡◌, is_some};
ghost use Rattle.syn_machine.specs.Report.{conflict_at, is_carrying, is_marking};
ghost use Rattle.syn_recon.specs.Items.{item_of};
ghost use Rattle.syn_print.specs.Counting.{carried_in, conflicts_in, marked_in};

use syn_recon::Item;

/// How many items of each kind a plan has.
#[derive(Clone, Copy, Debug, PartialEq, Eq)]
pub struct Counts {
    /// So many are carried to the other side.
    pub carried: usize,
    /// So many are recorded in the archive, since both sides have them already.
    pub marked: usize,
    pub conflicts: usize,
}

/// How many of the items are of each kind.
pub fn counts_of(items: &[Item]) -> Counts
    ensures carried { result.carried ≡ carried_in items.now }
    ensures marked { result.marked ≡ marked_in items.now }
    ensures conflicts { result.conflicts ≡ conflicts_in items.now }
{
    Counts {
        carried: count_carried(items),
        marked: count_marked(items),
        conflicts: count_conflicts(items),
    }
}

fn count_carried(items: &[Item]) -> usize
    ensures { result ≡ carried_in items.now }
{
    items.iter().filter(|item| is_carried(item)).count()
}

fn count_marked(items: &[Item]) -> usize
    ensures { result ≡ marked_in items.now }
{
    items.iter().filter(|item| is_marked(item)).count()
}

fn count_conflicts(items: &[Item]) -> usize
    ensures { result ≡ conflicts_in items.now }
{
    items.iter().filter(|item| is_conflict(item)).count()
}

/// It goes to the other side.
fn is_carried(item: &Item) -> bool
    ensures { result ≡ is_carrying (item_of item.now) }
{
    matches!(item, Item::ToLeft(_) | Item::ToRight(_))
}

/// It is recorded, since both sides have it already.
fn is_marked(item: &Item) -> bool
    ensures { result ≡ is_marking (item_of item.now) }
{
    matches!(item, Item::MarkSame(_) | Item::MarkDir(_))
}

fn is_conflict(item: &Item) -> bool
    ensures { result ≡ is_some (conflict_at (item_of item.now)) }
{
    matches!(item, Item::Conflict(_))
}
