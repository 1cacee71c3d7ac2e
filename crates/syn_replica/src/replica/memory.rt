//! What a replica reads and prepares in memory, before its journal is touched.
ghost use Rattle.std.specs.Prelude.{◌≡◌, ◌⊎◌, None, Some, IfOk, IfErr};
ghost use Rattle.syn_history.specs.Events.{event_of, token_of};
ghost use Rattle.syn_model.specs.History.{History, standing_of};
ghost use Rattle.syn_model.specs.Refusal.{Memory, first_cause};
ghost use Rattle.syn_model.specs.Standing.{is_old, refusal_at};
ghost use Rattle.syn_replica.specs.Causes.{since_causes};
ghost use Rattle.syn_replica.specs.ErrorRefusals.{refusal_in, refusal_of};
ghost use Rattle.syn_replica.specs.Updates.{IsReady, early_causes};
ghost use Rattle.syn_replica.specs.Steps.{is_done_at};
ghost use Rattle.syn_replica.specs.inner.Additions.{Adds};
ghost use Rattle.syn_wire.specs.Events.{IsShort};

use super::Replica;
use crate::{ReplicaError, Standing, Update};
use std::alloc::Global;
use syn_disk::Disk;
use syn_history::{Event, HistoryError, Token};
use syn_path::Path;
use syn_wire::encode_event;

impl<D: Disk> Replica<D> {
    ghost use Rattle.syn_replica.specs.Replica.{standing_shown};

    /// What its history leaves, as it is kept.
    pub(super) fn current_standing(&self) -> &Standing
        ensures { result.now ≡ standing_shown self.now }
    {
        &self.journaled.state().standing
    }

    /// Why the event is not added, as far as that is seen without memory.
    pub(super) fn check(&self, event: &Event) -> Result<(), ReplicaError>
        ensures { refusal_in result
            ≡ first_cause (early_causes (standing_shown self.now) (event_of event.now)) }
    {
        self.current_standing().check(event)
    }

    /// Whether the token is that of the last replacement.
    pub(super) fn is_done(&self, token: &Token) -> bool
        ensures { result ≡ is_done_at (standing_shown self.now) (token_of token.now) }
    {
        self.current_standing().is_done(token)
    }

    /// Whether the token is not of the session begun last, or not above the last token.
    pub(super) fn is_old(&self, token: &Token) -> bool
        ensures { result ≡ is_old (standing_shown self.now).session
            (standing_shown self.now).token (token_of token.now) }
    {
        self.current_standing().is_old(token)
    }

    /// Why what was listed at the position `since` may be another now. It takes no memory.
    pub(super) fn check_untouched(&self, path: &Path, since: u64) -> Result<(), ReplicaError>
        ensures cause { (history : History) → standing_shown self.now ≡ standing_of history
            → refusal_in result ≡ first_cause (since_causes history path.now since) }
        ensures refusals { IfErr result (λ e. (e ≡ ReplicaError.Touched)
            ⊎ (e ≡ ReplicaError.History HistoryError.BelowFloor)) }
    {
        self.current_standing().check_untouched(path, since)
    }

    /// The payload of an event that `check` does not refuse, and its update, with all memory for
    /// both.
    pub(super) fn prepare(
        &self,
        alloc: Global,
        event: Event,
    ) -> Result<(Vec<u8>, Update), ReplicaError>
        requires checked { first_cause (early_causes (standing_shown self.now) (event_of event))
            ≡ None }
        requires brief { IsShort (event_of event) }
        ensures ready { IfOk result (λ made. IsReady (standing_shown self.now) made.1) }
        ensures adds { IfOk result
            (λ made. Adds (standing_shown self.now) (event_of event) made.0.items made.1) }
        ensures refused { IfErr result (λ e. (refusal_of e ≡ Memory)
            ⊎ (refusal_at (standing_shown self.now) (event_of event) ≡ Some (refusal_of e))) }
    {
        let payload = encode_event(alloc, &event)?;
        let update = self.current_standing().prepare(alloc, event)?;
        Ok((payload, update))
    }
}
