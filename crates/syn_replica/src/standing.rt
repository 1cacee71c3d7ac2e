//! What a replica keeps of its history in memory.
ghost use Rattle.std.specs.Prelude.{◌≡◌, ◌⊎◌, not, false, None, Some, IfOk, IfErr, IfSome};
ghost use Rattle.std.specs.Prelude.{OnOk, OnErr};
ghost use Rattle.std.specs.Option.{option_map_or};
ghost use Rattle.syn_model.specs.Event.{is_below, is_same_token};
ghost use Rattle.syn_model.specs.History.{History, standing_of};
ghost use Rattle.syn_model.specs.Event as model;
ghost use Rattle.syn_model.specs.Refusal.{Memory, first_cause};
ghost use Rattle.syn_model.specs.Standing.{new_standing, standing_after, refusal_at, is_old};
ghost use Rattle.syn_model.specs.Standing.{full_position};
ghost use Rattle.syn_history.specs.Events.{event_of, token_of};
ghost use Rattle.syn_history.specs.Past.{past_in, standing_with};
ghost use Rattle.syn_tree.specs.Change.{IsPreparedFor};
ghost use Rattle.syn_replica.specs.ErrorRefusals.{refusal_in, refusal_of};
ghost use Rattle.syn_replica.specs.Causes.{since_causes};
ghost use Rattle.syn_replica.specs.Updates.{early_causes, tree_after, IsReady, IsOf};

use crate::error::ReplicaError;
use std::alloc::Global;
use std::marker::Model;
use syn_history::{Event, HistoryError, Token, Trail, TrailStep, trail_laws};
use syn_path::Path;
use syn_tree::{Change, Tree};

/// What is kept of a history in memory: the tree that it leaves, and the trail. Contracts see it as
/// the standing of the history.
#[derive(Drop)]
pub struct Standing {
    tree: Tree,
    trail: Trail,
}

impl Model for Standing {
    ghost use Rattle.syn_model.specs.Standing.{Standing as Stood};
    ghost use Rattle.syn_replica.specs.Updates.{coded_standing};

    ghost Value = { Stood };

    ghost coded = { coded_standing };

    ghost use Rattle.syn_history.specs.Past.{standing_with};

    ghost view = { λ s. standing_with s.tree s.trail };
}

/// An event that is ready to be made in a standing, with all memory for it.
#[derive(Drop)]
pub struct Update {
    /// What it changes of the tree; the begin of a session changes nothing.
    pub change: Option<Change>,
    /// What it adds to the trail.
    pub step: TrailStep,
}

impl Standing {
    /// What is kept of no events. Refused 11 where memory is refused.
    pub fn new(alloc: Global) -> Result<Standing, ReplicaError>
        ensures ok { IfOk result (λ standing. standing ≡ new_standing) }
        ensures memory { IfErr result (λ e. refusal_of e ≡ Memory) }
    {
        let tree = Tree::new(alloc)?;
        let trail = Trail::new(alloc)?;
        Ok(Standing { tree, trail })
    }

    /// A tree with a trail.
    pub fn of(tree: Tree, trail: Trail) -> Standing
        ensures { result ≡ standing_with tree trail }
    {
        Standing { tree, trail }
    }

    /// Makes the index of the trail, where there is none, as after a journal was read: until then
    /// `check_untouched` takes longer. Refused 11 where memory is refused.
    pub fn build_index(&mut self, alloc: Global) -> Result<(), ReplicaError>
        ensures same { self.new ≡ self.old }
        ensures memory { IfErr result (λ e. e ≡ ReplicaError.Memory) }
    {
        self.trail
            .build_index(alloc)
            .map_err(|_| ReplicaError::Memory)
    }

    /// The tree that the history leaves.
    pub fn tree(&self) -> &Tree
        ensures { result.now ≡ self.now.tree }
    {
        &self.tree
    }

    /// What else is kept of the history.
    pub fn trail(&self) -> &Trail
        ensures { result.now ≡ past_in self.now }
    {
        &self.trail
    }

    /// Why the event is refused, by the causes that are found without memory. For a replacement
    /// these are the causes of its token; for any other event they are all causes.
    pub fn check(&self, event: &Event) -> Result<(), ReplicaError>
        ensures { refusal_in result ≡ first_cause (early_causes self.now (event_of event.now)) }
    {
        match event {
            Event::Edited { edit, .. } => {
                self.tree.check(edit)?;
                self.check_position()
            }
            Event::Began { session } => {
                if *session <= self.trail.last_session() {
                    return Err(ReplicaError::OldSession);
                }
                self.check_position()
            }
            Event::Replaced { token, .. } => {
                if self.is_old(token) {
                    Err(ReplicaError::OldSession)
                } else {
                    Ok(())
                }
            }
        }
    }

    /// Whether the token is not of the session begun last, or not above the last token.
    pub fn is_old(&self, token: &Token) -> bool
        ensures { result ≡ is_old self.now.session self.now.token (token_of token.now) }
    {
        token.session == 0 || token.session != self.trail.last_session() || self.is_reached(token)
    }

    /// Whether there is a last token, and the token is not above it.
    fn is_reached(&self, token: &Token) -> bool
        ensures { result ≡ option_map_or (λ last. not (is_below last (token_of token.now)))
            self.now.token false }
    {
        match self.trail.last_token() {
            Some(last) => !last.is_below(token),
            None => false,
        }
    }

    /// Whether the token is that of the last replacement.
    pub fn is_done(&self, token: &Token) -> bool
        ensures { result ≡ option_map_or (λ last. is_same_token last (token_of token.now))
            self.now.token false }
    {
        match self.trail.last_token() {
            Some(last) => last.is_same(token),
            None => false,
        }
    }

    /// Why what was listed at the position `since` may be another now: the position is below the
    /// floor or above the present one (15), or an event touched the path since (13). It takes no
    /// memory.
    pub fn check_untouched(&self, path: &Path, since: u64) -> Result<(), ReplicaError>
        ensures cause { (history : History) → self.now ≡ standing_of history
            → refusal_in result ≡ first_cause (since_causes history path.now since) }
        ensures refusals { IfErr result (λ e. (e ≡ ReplicaError.Touched)
            ⊎ (e ≡ ReplicaError.History HistoryError.BelowFloor)) }
    {
        let touched = self.trail.touched(path, since)?;
        if touched {
            Err(ReplicaError::Touched)
        } else {
            Ok(())
        }
    }

    /// Why no event is added: the position is the greatest (7).
    fn check_position(&self) -> Result<(), ReplicaError>
        ensures { refusal_in result ≡ first_cause (full_position self.now.position) }
    {
        if self.trail.position() == u64::MAX {
            Err(ReplicaError::History(HistoryError::Full))
        } else {
            Ok(())
        }
    }

    /// The event, ready to be made, with all memory for it, where `check` does not refuse it. The
    /// standing stays as it is.
    ///
    /// Refused 6, 2 and 7 as the tree refuses a replacement, 7 where the position is the greatest,
    /// and 11 where memory is refused.
    pub fn prepare(&self, alloc: Global, event: Event) -> Result<Update, ReplicaError>
        requires { first_cause (early_causes self.now (event_of event)) ≡ None }
        ensures ready { IfOk result (λ update. IsReady self.now update) }
        ensures gives { IfOk result (λ update. IsOf self.now (event_of event) update) }
        ensures allowed { OnOk result (refusal_at self.now (event_of event) ≡ None) }
        ensures refused { IfErr result (λ e. (refusal_of e ≡ Memory)
            ⊎ (refusal_at self.now (event_of event) ≡ Some (refusal_of e))) }
    {
        let step = self.trail.step(alloc, &event)?;
        let change = self.change_by(alloc, event)?;
        Ok(Update { change, step })
    }

    /// What the event changes of the tree. `check` has looked at the position for every event but
    /// a replacement, so a replacement's is checked here.
    fn change_by(&self, alloc: Global, event: Event) -> Result<Option<Change>, ReplicaError>
        requires { first_cause (early_causes self.now (event_of event)) ≡ None }
        ensures ready { IfOk result (λ change. IfSome change (IsPreparedFor self.now.tree)) }
        ensures gives { IfOk result (λ change. tree_after self.now.tree change
            ≡ model.after_event self.now.tree (event_of event)) }
        ensures allowed { OnOk result (refusal_at self.now (event_of event) ≡ None) }
        ensures refused { IfErr result (λ e. (refusal_of e ≡ Memory)
            ⊎ (refusal_at self.now (event_of event) ≡ Some (refusal_of e))) }
    {
        match event {
            Event::Edited { edit, .. } => Ok(Some(self.tree.prepare_allowed(alloc, edit)?)),
            Event::Began { .. } => Ok(None),
            Event::Replaced { path, new, .. } => {
                let change = self.tree.prepare_replace(alloc, &path, new)?;
                self.check_position()?;
                Ok(Some(change))
            }
        }
    }

    /// Makes an update that was prepared for the standing as it is. It takes no memory.
    pub fn make(&mut self, update: Update)
        requires { IsReady self.old update }
        ensures { (event : model.Event) → IsOf self.old event update
            → self.new ≡ standing_after self.old event }
    {
        trail_laws();
        let Update { change, step } = update;
        match change {
            Some(change) => self.tree.make(change),
            None => {}
        }
        self.trail.record(step);
    }

    /// Adds the event.
    ///
    /// Refused where the event is not allowed, and 11 where memory is refused; then nothing
    /// changes.
    pub fn add(&mut self, alloc: Global, event: Event) -> Result<(), ReplicaError>
        ensures done { OnOk result (self.new ≡ standing_after self.old (event_of event)) }
        ensures same { OnErr result (self.new ≡ self.old) }
        ensures allowed { OnOk result (refusal_at self.old (event_of event) ≡ None) }
        ensures refused { IfErr result (λ e. (refusal_of e ≡ Memory)
            ⊎ (refusal_at self.old (event_of event) ≡ Some (refusal_of e))) }
    {
        self.check(&event)?;
        let update = self.prepare(alloc, event)?;
        self.make(update);
        Ok(())
    }
}
