//! The trail of a history: what a replica keeps of it beside the tree, so that it need not keep the
//! events.
ghost use Rattle.std.specs.Prelude.{◌≡◌, ◌↔◌, ◌⊎◌, ◌<◌, ◌≤◌, ◌+◌, ◌++◌, ◌∷◌, [], Err, not, length};
ghost use Rattle.std.specs.Prelude.{take, drop, option_map, All, IfOk, IfErr, IfSome, IfNone};
ghost use Rattle.std.specs.Prelude.{IsTrue, OnOk, OnErr};
ghost use Rattle.std.specs.List.{list_any};
ghost use Rattle.std.specs.Option.{ForSome, option_map_or};
ghost use Rattle.circular_buffer.specs.Buffer.{buffer};
ghost use Rattle.syn_model.specs.Event as model;
ghost use Rattle.syn_model.specs.Tree as model_tree;
ghost use Rattle.syn_model.specs.Path.{IsPath};
ghost use Rattle.syn_model.specs.Event.{IsLawfulToken};
ghost use Rattle.syn_model.specs.Limits.{greatest};
ghost use Rattle.syn_model.specs.Standing.{most_touches, surplus, above_last};
ghost use Rattle.syn_model.specs.History.{History, is_quiet};
ghost use Rattle.syn_model.specs.Image.{IsStanding};
ghost use Rattle.syn_history.specs.Events.{event_of, token_of};
ghost use Rattle.syn_history.specs.Past.{past_of, past_after, past_touched, standing_with};
ghost use Rattle.syn_history.specs.Past.{IsLawful, tells, are_between, is_lawful, past_with};
ghost use Rattle.syn_history.specs.Past.{is_of_session as is_session_of};
ghost use Rattle.syn_history.specs.Trails.{step_of, past_from};
ghost use Rattle.syn_history.specs.Index.{IsIndexed, last_positions};

use crate::error::HistoryError;
use crate::event::Event;
use crate::index::{Index, MOST_TOUCHES, add_later, index_after, is_touched};
use crate::step::TrailStep;
use crate::token::Token;
use crate::touch::Touch;
use crate::touched_path::TouchedPath;
use circular_buffer::HeapCircularBuffer;
use std::alloc::Global;
use std::marker::Model;
use syn_model::history_laws;
use syn_path::Path;
use syn_placed::{KeyMap, Slot};

/// What an image has of a trail.
#[derive(Debug, Drop)]
pub struct TrailParts {
    /// The number of events.
    pub position: u64,
    /// The position from which on the touches are whole.
    pub floor: u64,
    /// The last touches, the oldest first.
    pub touches: Vec<Touch>,
    /// The session begun last, and 0 while there is none.
    pub session: u64,
    /// The token of the last replacement.
    pub token: Option<Token>,
}

/// What a replica keeps of its history beside the tree: the number of its events, the last 4,096
/// touches with the position from which on they are whole (the floor), the session begun last, and
/// the token of the last replacement. Contracts see it as the standing of a history without the
/// tree.
#[derive(Debug, Drop)]
pub struct Trail {
    position: u64,
    floor: u64,
    /// The touches, the oldest first, with room for the most: no event takes memory for the list,
    /// and none moves another.
    touches: HeapCircularBuffer<Touch>,
    /// Where each of their paths was touched last, with room for as many; none while a journal is
    /// read, when nobody asks.
    index: Option<Index>,
    session: u64,
    token: Option<Token>,
}

impl Model for Trail {
    ghost use Rattle.std.specs.Prelude.{option_map};
    ghost use Rattle.syn_history.specs.Past.{Past, coded_past};

    ghost Value = { Past };

    ghost coded = { coded_past };

    ghost use Rattle.syn_history.specs.Events.{token_of};
    ghost use Rattle.syn_history.specs.Past.{IsKept};
    ghost use Rattle.syn_history.specs.Index.{IsIndexed};

    ghost view = { λ t. record {
      position = t.position;
      floor = t.floor;
      touches = t.touches.items;
      session = t.session;
      token = option_map token_of t.token;
    } };

    ghost invariant = { λ t. IsKept t.position t.touches.items t.touches.capacity
        × IsIndexed t.touches.items t.index };
}

impl Trail {
    /// The trail of no events. Refused 11 where memory is refused.
    pub fn new(alloc: Global) -> Result<Trail, HistoryError>
        ensures ok { IfOk result (λ trail. trail ≡ past_of []) }
        ensures memory { IfErr result (λ e. e ≡ HistoryError.Memory) }
    {
        let touches = HeapCircularBuffer::with_capacity(alloc, MOST_TOUCHES)?;
        let index = KeyMap::new(alloc)?;
        Ok(Trail {
            position: 0,
            floor: 0,
            touches,
            index: Some(index),
            session: 0,
            token: None,
        })
    }

    /// The trail of these parts, where they are lawful; else none. They are where the floor is not
    /// above the position, at most 4,096 touches rise from the floor on and before the position,
    /// and the token is of a session from 1 to the one begun last. It has no index yet.
    ///
    /// Refused 11 where memory is refused.
    pub fn from_parts(alloc: Global, parts: TrailParts) -> Result<Option<Trail>, HistoryError>
        ensures parts { IfOk result (λ read. IfSome read (λ trail. trail ≡ past_from parts)) }
        ensures lawful { IfOk result (λ read. IfSome read IsLawful) }
        ensures none { IfOk result (λ read. IfNone read
            ((tree : model_tree.Tree) → ¬ IsStanding (standing_with tree (past_from parts)))) }
        ensures memory { IfErr result (λ e. e ≡ HistoryError.Memory) }
    {
        let TrailParts {
            position,
            floor,
            touches: listed,
            session,
            token,
        } = parts;
        if !are_lawful(position, floor, &listed, session, &token) {
            return Ok(None);
        }
        let mut touches = HeapCircularBuffer::with_capacity(alloc, MOST_TOUCHES)?;
        for touch in listed {
            touches.push_back(touch);
        }
        Ok(Some(Trail {
            position,
            floor,
            touches,
            index: None,
            session,
            token,
        }))
    }

    /// Makes the index, where there is none, as after a journal was read: until then `touched`
    /// looks at each touch. Refused 11 where memory is refused.
    pub fn build_index(&mut self, alloc: Global) -> Result<(), HistoryError>
        ensures same { self.new ≡ self.old }
        ensures memory { IfErr result (λ e. e ≡ HistoryError.Memory) }
    {
        let _count = self.touches.len();
        let index = index_of(alloc, &self.touches)?;
        self.index = Some(index);
        Ok(())
    }

    /// The number of events.
    pub fn position(&self) -> u64
        ensures { result ≡ self.now.position }
    {
        self.position
    }

    /// The position from which on the touches are whole: 0 while none was dropped, and else one
    /// above the last that was.
    pub fn floor(&self) -> u64
        ensures { result ≡ self.now.floor }
    {
        self.floor
    }

    /// The session begun last, and 0 while there is none.
    pub fn last_session(&self) -> u64
        ensures { result ≡ self.now.session }
    {
        self.session
    }

    /// The token of the last replacement; none while there is none.
    pub fn last_token(&self) -> Option<Token>
        ensures { option_map token_of result ≡ self.now.token }
    {
        self.token
    }

    /// The last touches, the oldest first: those of the first slice, and then those of the second.
    /// At most 4,096.
    pub fn touches(&self) -> (&[Touch], &[Touch])
        ensures all { result.0.now ++ result.1.now ≡ self.now.touches }
        ensures count { length self.now.touches ≤ most_touches }
    {
        let _count = self.touches.len();
        self.touches.as_slices()
    }

    /// Whether an event from the position `since` on changed the path, or what is above or below
    /// it. It takes no memory.
    ///
    /// Refused 15 where `since` is below the floor or above the position.
    pub fn touched(&self, path: &Path, since: u64) -> Result<bool, HistoryError>
        ensures quiet { (history : History) → self.now ≡ past_of history
            → IfOk result (λ touched. touched
            ≡ not (is_quiet history since (length history) path.now)) }
        ensures kept { IfOk result (λ touched. touched
            ≡ list_any (tells since path.now) self.now.touches) }
        ensures below { (result ≡ Err HistoryError.BelowFloor)
            ↔ ((since < self.now.floor) ⊎ (self.now.position < since)) }
        ensures refusals { IfErr result (λ e. e ≡ HistoryError.BelowFloor) }
    {
        history_laws();
        if since < self.floor || self.position < since {
            return Err(HistoryError::BelowFloor);
        }
        match &self.index {
            Some(index) => Ok(is_touched(index, path, since)),
            None => {
                let (older, newer) = self.touches.as_slices();
                Ok(any_tells(older, path, since) || any_tells(newer, path, since))
            }
        }
    }

    /// The step of the event, ready to be recorded, with all memory for it. The trail stays as it
    /// is.
    ///
    /// Refused 7 where the position is the greatest, and 11 where memory is refused.
    pub fn prepare(&self, alloc: Global, event: &Event) -> Result<TrailStep, HistoryError>
        ensures step { IfOk result (λ step. step ≡ step_of (event_of event.now)) }
        ensures room { OnOk result (self.now.position < greatest) }
        ensures full { (result ≡ Err HistoryError.Full) ↔ (self.now.position ≡ greatest) }
        ensures refusals { IfErr result (λ e. (e ≡ HistoryError.Full) ⊎ (e ≡ HistoryError.Memory)) }
    {
        if self.position == u64::MAX {
            return Err(HistoryError::Full);
        }
        self.step(alloc, event)
    }

    /// The step of the event, for this trail, with no look at the position. Refused 11 where memory
    /// is refused, and for no other cause; the begin of a session takes none.
    pub fn step(&self, alloc: Global, event: &Event) -> Result<TrailStep, HistoryError>
        ensures step { IfOk result (λ step. step ≡ step_of (event_of event.now)) }
        ensures memory { IfErr result (λ e. e ≡ HistoryError.Memory) }
    {
        TrailStep::of(alloc, event, self.index.is_some())
    }

    /// Records the step of an event. It takes no memory.
    pub fn record(&mut self, step: TrailStep)
        requires { self.old.position < greatest }
        ensures { (event : model.Event) → step ≡ step_of event → self.new
            ≡ past_after self.old event }
    {
        match step {
            TrailStep::Edited(path) => self.touch(path),
            TrailStep::Began(session) => {
                self.session = session;
                self.position += 1;
            }
            TrailStep::Replaced(token, path) => {
                self.touch(path);
                self.token = Some(token);
            }
        }
    }

    /// Goes on by an event that changed the path.
    fn touch(&mut self, touched: TouchedPath)
        requires { self.old.position < greatest }
        ensures { self.new ≡ past_touched self.old touched }
    {
        let (path, slot) = touched.at(self.position);
        let touch = Touch::new(self.position, path);
        let index = self.index.take();
        let (index, floor) = add_touch(&mut self.touches, index, self.floor, touch, slot);
        self.index = index;
        self.floor = floor;
        self.position += 1;
    }

    /// Goes on by the event: a touch is added unless a session begins, and where there are 4,096
    /// the oldest goes, and the floor is one above it.
    ///
    /// Refused 7 where the position is the greatest, and 11 where memory is refused; then nothing
    /// changes.
    pub fn push(&mut self, alloc: Global, event: &Event) -> Result<(), HistoryError>
        ensures done { OnOk result (self.new ≡ past_after self.old (event_of event.now)) }
        ensures same { OnErr result (self.new ≡ self.old) }
        ensures full { (result ≡ Err HistoryError.Full) ↔ (self.old.position ≡ greatest) }
        ensures refusals { IfErr result (λ e. (e ≡ HistoryError.Full) ⊎ (e ≡ HistoryError.Memory)) }
    {
        let step = self.prepare(alloc, event)?;
        self.record(step);
        Ok(())
    }
}

/// The index of the touches, which rise. Refused 11 where memory is refused.
fn index_of(alloc: Global, touches: &HeapCircularBuffer<Touch>) -> Result<Index, HistoryError>
    requires { length touches.now.items ≤ most_touches }
    ensures index { IfOk result (λ index. index ≡ last_positions touches.now.items) }
    ensures memory { IfErr result (λ e. e ≡ HistoryError.Memory) }
{
    let (older, newer) = touches.as_slices();
    let mut index = KeyMap::new(alloc)?;
    add_later(alloc, &mut index, older)?;
    add_later(alloc, &mut index, newer)?;
    Ok(index)
}

/// Adds the touch, where the oldest goes if there are 4,096. The result is the index, with the slot
/// if there are both, and the floor then.
fn add_touch(
    touches: &mut HeapCircularBuffer<Touch>,
    index: Option<Index>,
    floor: u64,
    touch: Touch,
    slot: Option<Slot<u64>>,
) -> (Option<Index>, u64)
    requires room { touches.old.capacity ≡ most_touches }
    requires brief { All (λ older. older.position < greatest) touches.old.items }
    requires few { length touches.old.items ≤ most_touches }
    requires indexed { IsIndexed touches.old.items index }
    requires later { All (λ older. older.position < touch.position) touches.old.items }
    requires slot { ForSome slot (λ entry. entry ≡ (touch.path, touch.position)) }
    ensures touches { let all = touches.old.items ++ touch ∷ [] in touches.new
        ≡ buffer (drop (surplus most_touches all) all) most_touches }
    ensures indexed { IsIndexed touches.new.items result.0 }
    ensures floor { let all = touches.old.items ++ touch ∷ [] in result.1
        ≡ above_last floor (take (surplus most_touches all) all) }
{
    let _count = touches.len();
    let dropped = touches.push_back(touch);
    let index = index_after(index, slot, &dropped);
    (index, floor_after(floor, &dropped))
}

/// The floor, where this touch was dropped, if any.
fn floor_after(floor: u64, dropped: &Option<Touch>) -> u64
    requires { ForSome dropped.now (λ oldest. oldest.position < greatest) }
    ensures { result ≡ option_map_or (λ oldest. oldest.position + 1) dropped.now floor }
{
    match dropped {
        None => floor,
        Some(oldest) => oldest.position() + 1,
    }
}

/// One of the touches, from the position on, has a path that is the one, above it or below it.
fn any_tells(touches: &[Touch], path: &Path, since: u64) -> bool
    ensures { result ≡ list_any (tells since path.now) touches.now }
{
    touches.iter().any(|touch| since <= touch.position() && touch.path().comparable(path))
}

/// TrailParts like these are lawful.
fn are_lawful(
    position: u64,
    floor: u64,
    touches: &[Touch],
    session: u64,
    token: &Option<Token>,
) -> bool
    ensures value { result ≡ is_lawful
        (past_with position floor touches.now session (option_map token_of token.now)) }
    ensures lawful { IsTrue result → IsLawful
        (past_with position floor touches.now session (option_map token_of token.now)) }
{
    if position < floor {
        return false;
    }
    if touches.len() > MOST_TOUCHES {
        return false;
    }
    if !are_rising(touches, floor, position) {
        return false;
    }
    is_of_session(token, session)
}

/// The touches rise, from the floor on and before the position.
fn are_rising(touches: &[Touch], floor: u64, position: u64) -> bool
    ensures value { result ≡ are_between floor position touches.now }
    ensures paths { IsTrue result → All (λ touch. IsPath touch.path) touches.now }
{
    let mut from = floor;
    for touch in touches {
        let at = touch.position();
        if at < from || position <= at {
            return false;
        }
        from = at + 1;
    }
    true
}

/// There is no token, or its session is one from 1 to the last.
fn is_of_session(token: &Option<Token>, last: u64) -> bool
    ensures value { result ≡ is_session_of (option_map token_of token.now) last }
    ensures lawful { IfSome (option_map token_of token.now) IsLawfulToken }
{
    match token {
        None => true,
        Some(token) => {
            let Token {
                session,
                item: _item,
            } = *token;
            1 <= session && session <= last
        }
    }
}
