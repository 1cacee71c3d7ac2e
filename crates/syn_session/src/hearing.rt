//! What a session that scans comes to with an answer.
ghost use Rattle.std.specs.Prelude.{◌≡◌, ℕ, None, Some, IfOk, MatchResult};
ghost use Rattle.std.specs.Prelude.{◌&&◌};
ghost use Rattle.syn_machine.specs.Coordinator.{Running};
ghost use Rattle.syn_machine.specs.Network.{Which};
ghost use Rattle.syn_machine.specs.Session.{fault_of};
ghost use Rattle.syn_machine.specs.Side.{Begin, Begun, ListAt};
ghost use Rattle.syn_message.specs.Replies.{IsLawfulReply, reply_of};
ghost use Rattle.syn_message.specs.Requests.{request_of};
ghost use Rattle.syn_path.specs.Sides.{which_of};
ghost use Rattle.syn_model.specs.Archive.{Archive as Keeping};
ghost use Rattle.syn_refusal.specs.Refusals.{cause_of};
ghost use Rattle.syn_session.specs.Scanning.{Exchanges};
ghost use Rattle.syn_session.specs.inner.Listing.{is_silent};

use crate::peer::PeerState;
use crate::session::{Asks, Session};
use std::alloc::{AllocError, Global};
use syn_message::{Reply, Request};
use syn_path::{Path, Side};
use syn_refusal::Refusal;

/// What an answer comes to that a session takes before it has its plan.
#[derive(Debug, Drop)]
pub enum Heard {
    /// This is to be asked next.
    Ask(Asks),
    /// Both sides are scanned: nothing waits, and each directory was answered.
    Scanned,
}

impl Session {
    ghost use Rattle.syn_session.specs.Answering.{IsAnswering};
    ghost use Rattle.syn_session.specs.Hearing.{Hears};
    ghost use Rattle.syn_session.specs.Sessions.{IsSession};
    ghost use Rattle.syn_session.specs.declared.session.Session.{Session as Ran};
    ghost use Rattle.syn_session.specs.inner.Listing.{KeepsFound, ScansNext};

    /// What is listed next, or that both sides are scanned. Refused 11 where memory is refused.
    fn scan_on(&mut self, alloc: Global) -> Result<Heard, AllocError>
        ensures next { IfOk result (ScansNext self.old self.new) }
        ensures same { KeepsFound self.old self.new }
    {
        let left = self.left.next_listings(alloc)?;
        let right = self.right.next_listings(alloc)?;
        if self.are_silent(&left, &right) {
            return Ok(Heard::Scanned);
        }
        Ok(Heard::Ask(Asks::Listings { left, right }))
    }

    /// Nothing waits, and nothing more is to be listed.
    fn are_silent(&self, left: &[Path], right: &[Path]) -> bool
        ensures { result
            ≡ (is_silent self.now.left left.now && is_silent self.now.right right.now) }
    {
        is_silent(&self.left, left) && is_silent(&self.right, right)
    }

    /// Takes the answer of a side to the begin.
    fn hear_begun(&mut self, alloc: Global, from: Side, reply: Reply) -> Result<Heard, Refusal>
        ensures step { (archive : Keeping) (before : Ran) (running : Running) (number pair : ℕ)
            → IsSession archive before running
            → IsAnswering before self.old (which_of from) number (Begin pair)
            → before.progress ≡ None
            → Hears self.new running (which_of from) number (Begin pair) (reply_of reply) result }
    {
        check_begun(reply)?;
        // The other side has not begun yet, and nothing is listed before both have.
        if self.waits_on(from.other()) {
            return Ok(Heard::Ask(Asks::Listings {
                left: Vec::new(alloc),
                right: Vec::new(alloc),
            }));
        }
        self.scan_on(alloc).map_err(|_| Refusal::Memory)
    }

    /// Takes the answer of a side to a listing.
    fn hear_listed(
        &mut self,
        alloc: Global,
        from: Side,
        path: &Path,
        reply: Reply,
    ) -> Result<Heard, Refusal>
        requires lawful { IsLawfulReply (reply_of reply) }
        ensures step { (archive : Keeping) (before : Ran) (running : Running) (number : ℕ)
            → IsSession archive before running
            → IsAnswering before self.old (which_of from) number (ListAt path.now)
            → before.progress ≡ None
            → Hears self.new running (which_of from) number (ListAt path.now) (reply_of reply)
            result }
    {
        self.take_listing(alloc, from, path, reply)?;
        self.scan_on(alloc).map_err(|_| Refusal::Memory)
    }

    /// Takes the answer of a side to what a session asks before it has its plan. It gives what is
    /// asked next, or that both sides are scanned.
    ///
    /// Refused where the answer ends the session, and 11 where memory is refused.
    pub fn hear(
        &mut self,
        alloc: Global,
        from: Side,
        request: &Request,
        reply: Reply,
    ) -> Result<Heard, Refusal>
        requires lawful { IsLawfulReply (reply_of reply) }
        ensures step { (archive : Keeping) (before : Ran) (running : Running) (number : ℕ)
            → IsSession archive before running
            → IsAnswering before self.old (which_of from) number (request_of request.now)
            → before.progress ≡ None
            → Hears self.new running (which_of from) number (request_of request.now)
            (reply_of reply) result }
    {
        match request {
            Request::Begin { pair: _ } => self.hear_begun(alloc, from, reply),
            Request::List { path } => self.hear_listed(alloc, from, path, reply),
            _ => Err(Refusal::BadMessage),
        }
    }
}

/// The session has begun on the side. Refused as the side refuses it, and 23 for another answer.
fn check_begun(reply: Reply) -> Result<(), Refusal>
    ensures { (taken : Exchanges) (side : Which) (pair : ℕ) → MatchResult result
        (λ _. (fault_of taken side (Begin pair) (reply_of reply) ≡ None)
        × (position : ℕ) × (reply_of reply ≡ Begun position))
        (λ e. fault_of taken side (Begin pair) (reply_of reply) ≡ Some (cause_of e)) }
{
    match reply {
        Reply::Begun { position: _ } => Ok(()),
        Reply::Refused(why) => Err(why),
        _ => Err(Refusal::BadMessage),
    }
}

/// Nothing waits on the side, and none of these is to be listed.
fn is_silent(peer: &PeerState, next: &[Path]) -> bool
    ensures { result ≡ is_silent peer.now next.now }
{
    !peer.is_waiting() && next.is_empty()
}
