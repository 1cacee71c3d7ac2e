//! Where each path was touched last, so that a trail need not look at each touch.
ghost use Rattle.std.specs.Prelude.{◌≡◌, ◌<◌, ◌≤◌, ◌+◌, ◌++◌, ◌&&◌, List, nat_le, length, take};
ghost use Rattle.std.specs.Prelude.{IsTrue, ◌↔◌, true, OnOk, IfErr};
ghost use Rattle.std.specs.Option.{ForSome};
ghost use Rattle.std.specs.FinMap.{entries, len};
ghost use Rattle.std.specs.List.{list_any};
ghost use Rattle.syn_model.specs.Path.{IsPath, is_prefix};
ghost use Rattle.syn_model.specs.Standing.{Touch as Touched, most_touches};
ghost use Rattle.syn_history.specs.Index.{is_touched_at as touched_at, entry_tells, forgotten};
ghost use Rattle.syn_history.specs.Index.{GoesOn, last_positions, without};

use crate::error::HistoryError;
use crate::touch::Touch;
use std::alloc::Global;
use syn_path::{Key, Name, Path};
use syn_placed::{KeyMap, Slot};

/// So many touches are kept.
pub const MOST_TOUCHES: usize = 4096;

/// The position of the last touch of each path itself.
pub type Index = KeyMap<u64, MOST_TOUCHES>;

/// The path, or what is above or below it, was touched from the position on.
pub fn is_touched(index: &Index, path: &Path, since: u64) -> bool
    ensures { result ≡ list_any (entry_tells since path.now) (entries index.now) }
{
    is_touched_below(index, path, since) || is_touched_above(index, path.names(), since)
}

/// The path, or what is below it, was touched from the position on: one range of the index.
fn is_touched_below(index: &Index, path: &Path, since: u64) -> bool
    ensures { result ≡ list_any (λ entry. nat_le since entry.1 && is_prefix path.now entry.0)
        (entries index.now) }
{
    is_any_late(index.within(&path.key()), since)
}

/// One of the slots has a position from this one on.
fn is_any_late(slots: &[Slot<u64>], since: u64) -> bool
    ensures { result ≡ list_any (λ entry. nat_le since entry.1) slots.now }
{
    slots.iter().any(|slot| since <= *slot.value())
}

/// A path above the one of these names was touched from the position on.
fn is_touched_above(index: &Index, names: &[Name], since: u64) -> bool
    requires { IsPath names.now }
    ensures { IsTrue result ↔ ((depth : _) × (depth < length names.now)
        × (touched_at since index.now (take depth names.now) ≡ true)) }
{
    for depth in 0..names.len() {
        let (above, _) = names.split_at(depth);
        if is_touched_at(index, above, since) {
            return true;
        }
    }
    false
}

/// The path of these names was touched from the position on.
fn is_touched_at(index: &Index, names: &[Name], since: u64) -> bool
    requires { IsPath names.now }
    ensures { result ≡ touched_at since index.now names.now }
{
    match index.get(&Key::of(names)) {
        Some(last) => since <= *last,
        None => false,
    }
}

/// The index without the touch that was dropped, if any, and with the slot; none where there is no
/// index or no slot. It takes no memory.
pub fn index_after(
    index: Option<Index>,
    slot: Option<Slot<u64>>,
    dropped: &Option<Touch>,
) -> Option<Index>
    requires { ForSome index (λ positions. len (without positions dropped.now) < most_touches) }
    ensures { ForSome result (GoesOn index slot dropped.now) }
{
    let Some(mut index) = index else {
        return None;
    };
    let Some(slot) = slot else {
        return None;
    };
    forget_dropped(&mut index, dropped);
    index.insert(slot);
    Some(index)
}

/// Takes the touch that was dropped, if any, out of the index.
fn forget_dropped(index: &mut Index, dropped: &Option<Touch>)
    ensures { index.new ≡ without index.old dropped.now }
{
    match dropped {
        None => {}
        Some(oldest) => forget(index, oldest),
    }
}

/// Adds touches that come after those of the index.
pub fn add_later(alloc: Global, index: &mut Index, touches: &[Touch]) -> Result<(), HistoryError>
    requires { len index.old + length touches.now ≤ most_touches }
    ensures later { (earlier : List Touched) → index.old ≡ last_positions earlier
        → OnOk result (index.new ≡ last_positions (earlier ++ touches.now)) }
    ensures room { OnOk result (len index.new ≤ len index.old + length touches.now) }
    ensures memory { IfErr result (λ e. e ≡ HistoryError.Memory) }
{
    for touch in touches {
        index.insert(Slot::new(alloc, &touch.path().key(), touch.position())?);
    }
    Ok(())
}

/// Takes the touch out of the index, where it is the last of its path.
fn forget(index: &mut Index, touch: &Touch)
    ensures { index.new ≡ forgotten index.old touch.now }
{
    let key = touch.path().key();
    let is_last = match index.get(&key) {
        Some(last) => *last == touch.position(),
        None => false,
    };
    if is_last {
        index.remove(&key);
    }
}
