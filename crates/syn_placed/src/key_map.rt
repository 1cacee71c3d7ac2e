//! Values at keys, in path order, in room that is taken once.
ghost use Rattle.std.specs.Prelude.{◌≡◌, ◌<◌, ◌≤◌, length, filter, option_map, IfOk, IfErr};
ghost use Rattle.std.specs.Prelude.{vec_len, vec_capacity, insert};
ghost use Rattle.std.specs.Ordering.{eq_by_cmp};
ghost use Rattle.std.specs.FinMap as map;
ghost use Rattle.syn_model.specs.Path.{path_cmp, is_prefix};
ghost use Rattle.syn_placed.specs.Keyed.{IsRising, comes_before, stands_within, StandsAt};
ghost use Rattle.syn_placed.specs.Keyed.{WouldStandAt};

use crate::slot::Slot;
use std::alloc::{AllocError, Global};
use std::cmp::Ordering;
use std::marker::Model;
use syn_path::Key;

/// Values at keys, in path order, with room for so many from the start on: no change takes memory,
/// and none moves a value. Contracts see it as the finite map from paths to values.
#[derive(Debug, Drop)]
pub struct KeyMap<V, const ROOM: usize> {
    slots: Vec<Slot<V>>,
}

impl<V, const ROOM: usize> Model for KeyMap<V, ROOM> {
    ghost use Rattle.std.specs.Prelude.{vec_capacity};
    ghost use Rattle.std.specs.FinMap as map;
    ghost use Rattle.std.specs.Coded.{coded_list, coded_ℕ};
    ghost use Rattle.syn_model.specs.Path.{path_cmp};
    ghost use Rattle.syn_placed.specs.Keyed.{HasRoom};

    ghost Value = { map.FinMap path_cmp V };

    ghost coded = { map.code (coded_list (coded_list coded_ℕ)) V.code };

    ghost view = { λ m. map.from_sorted m.slots.items };

    ghost invariant = { λ m. HasRoom ROOM m.slots.items (vec_capacity m.slots) };
}

impl<V: Drop, const ROOM: usize> KeyMap<V, ROOM> {
    /// No value at any key. Refused where memory is refused.
    pub fn new(alloc: Global) -> Result<KeyMap<V, ROOM>, AllocError>
        ensures { IfOk result (λ empty. empty ≡ map.empty) }
    {
        let slots = Vec::with_capacity(alloc, ROOM)?;
        Ok(KeyMap { slots })
    }

    /// The value at the key; none where there is none.
    pub fn get(&self, at: &Key) -> Option<&V>
        ensures { option_map (λ value. value.now) result ≡ map.get self.now at.now }
    {
        match find(&self.slots, at) {
            Ok(place) => Some(self.slots[place].value()),
            Err(_) => None,
        }
    }

    /// The slots at the key and at those of the paths below it, in path order.
    pub fn within(&self, at: &Key) -> &[Slot<V>]
        ensures { result.now ≡ filter (stands_within at.now) (map.entries self.now) }
    {
        let (_, others) = self.slots.split_at(index_of(&self.slots, at));
        let (part, _) = others.split_at(others.partition_point(|slot| is_within(slot, at)));
        part
    }

    /// Puts the slot in, in the place of the one at its key, if any. It takes no memory.
    pub fn insert(&mut self, slot: Slot<V>)
        requires { map.len self.old < ROOM }
        ensures { self.new ≡ map.insert self.old slot.0 slot.1 }
    {
        match find(&self.slots, slot.key()) {
            Ok(place) => self.slots[place] = slot,
            Err(place) => put_in(&mut self.slots, place, slot),
        }
    }

    /// Takes the value at the key out, if any. It takes no memory.
    pub fn remove(&mut self, at: &Key)
        ensures { self.new ≡ map.remove self.old at.now }
    {
        if let Ok(place) = find(&self.slots, at) {
            self.slots.remove(place);
        }
    }
}

/// Where the slot at the key stands; else where it would.
fn find<V: Drop>(slots: &[Slot<V>], at: &Key) -> Result<usize, usize>
    requires { IsRising slots.now }
    ensures there { IfOk result (λ place. StandsAt at.now place slots.now) }
    ensures absent { IfErr result (λ place. WouldStandAt at.now place slots.now) }
{
    let place = index_of(slots, at);
    let Some(slot) = slots.get(place) else {
        return Err(place);
    };
    if is_at(slot, at) {
        Ok(place)
    } else {
        Err(place)
    }
}

/// Puts the slot in at the place.
fn put_in<V: Drop>(slots: &mut Vec<Slot<V>>, place: usize, slot: Slot<V>)
    requires bounds { place ≤ vec_len slots.old }
    requires room { vec_len slots.old < vec_capacity slots.old }
    ensures items { slots.new.items ≡ insert slots.old.items place slot }
    ensures room { vec_capacity slots.old ≤ vec_capacity slots.new }
{
    let _ = slots.insert(place, slot);
}

/// The slot stands before the key.
fn is_before<V: Drop>(slot: &Slot<V>, at: &Key) -> bool
    ensures { result ≡ comes_before at.now slot.now }
{
    slot.key().cmp(at) == Ordering::Less
}

/// The slot stands at the key.
fn is_at<V: Drop>(slot: &Slot<V>, at: &Key) -> bool
    ensures { result ≡ eq_by_cmp path_cmp at.now slot.now.0 }
{
    at.cmp(slot.key()) == Ordering::Equal
}

/// The slot stands at the key, or at that of a path below it.
fn is_within<V: Drop>(slot: &Slot<V>, at: &Key) -> bool
    ensures { result ≡ stands_within at.now slot.now }
{
    at.is_prefix(slot.key())
}

/// How many slots stand before the key.
fn index_of<V: Drop>(slots: &[Slot<V>], at: &Key) -> usize
    requires { IsRising slots.now }
    ensures { result ≡ length (filter (comes_before at.now) slots.now) }
{
    slots.partition_point(|slot| is_before(slot, at))
}
