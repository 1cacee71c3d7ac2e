//! A session that runs.
ghost use Rattle.std.specs.Prelude.{◌≡◌, ◌<◌, ◌^◌, ◌⊎◌, ◌++◌, ◌∷◌, [], ℕ, None, Some, false};
ghost use Rattle.std.specs.Prelude.{IfOk, IfSome, MatchResult, OnErr, OnOk, length, map, nat_lt};
ghost use Rattle.std.specs.Prelude.{option_map};
ghost use Rattle.syn_machine.specs.Coordinator.{Running, asked_in, messages_to, numbered};
ghost use Rattle.syn_machine.specs.Coordinator.{report_of, took_not_dir};
ghost use Rattle.syn_machine.specs.Network.{Left, Right, other};
ghost use Rattle.syn_machine.specs.Session.{fault_of};
ghost use Rattle.syn_machine.specs.Side.{ListAt};
ghost use Rattle.syn_message.specs.Replies.{IsLawfulReply, reply_of};
ghost use Rattle.syn_message.specs.Requests.{request_of};
ghost use Rattle.syn_path.specs.Sides.{which_of};
ghost use Rattle.syn_model.specs.Archive.{Archive as Keeping};
ghost use Rattle.syn_model.specs.Refusal.{Memory};
ghost use Rattle.syn_refusal.specs.Refusals.{cause_of};
ghost use Rattle.syn_scan.specs.Asked.{without};
ghost use Rattle.syn_session.specs.Reports.{end_of, report_model};
ghost use Rattle.syn_session.specs.Sendings.{messages_of};
ghost use Rattle.syn_session.specs.Sessions.{end_by};

use crate::peer::PeerState;
use crate::plan_progress::PlanProgress;
use crate::report::{End, Report};
use crate::sending::Sending;
use std::alloc::{AllocError, Global};
use std::rc::Rc;
use syn_message::{Reply, Request, RequestMessage};
use syn_path::{Path, Side};
use syn_propagate::SideRequest;
use syn_refusal::Refusal;

/// A session that runs.
#[derive(Debug, Drop)]
pub struct Session {
    pub number: u64,
    /// The side whose change wins where both changed.
    pub preference: Option<Side>,
    pub left: PeerState,
    pub right: PeerState,
    /// Its plan, once both scans are whole.
    pub progress: Option<PlanProgress>,
}

/// What is asked of the sides next.
#[derive(Debug, Drop)]
pub enum Asks {
    /// These directories are to be listed.
    Listings { left: Vec<Path>, right: Vec<Path> },
    /// One request, and nothing of the other side.
    One(SideRequest),
}

impl Session {
    ghost use Rattle.syn_session.specs.Answering.{IsAnswering, IsAskedOn, asks_of, messages_asked};
    ghost use Rattle.syn_session.specs.Scanning.{Exchanges, IsFoundIn, WaitsFor};
    ghost use Rattle.syn_session.specs.Scanning.{with_listing_answered};
    ghost use Rattle.syn_session.specs.Sessions.{IsSession, Tells, begin_messages, begun};
    ghost use Rattle.syn_session.specs.Sessions.{is_worn_now, messages_now, resent_once};
    ghost use Rattle.syn_session.specs.Scanning.{out_of};
    ghost use Rattle.syn_session.specs.Stages.{found_on, peer_of, waiting_of};
    ghost use Rattle.syn_session.specs.inner.Listing.{KeepsRequests};

    /// Both sides of the pair are to begin the session, which prefers a side or none. Refused 11
    /// where memory is refused.
    pub fn new(
        alloc: Global,
        number: u64,
        pair: u64,
        preference: Option<Side>,
    ) -> Result<Session, AllocError>
        ensures begun { (archive : Keeping)
            → IfOk result (λ session. IsSession archive session
            (begun (option_map which_of preference) number pair)) }
        ensures sends { IfOk result (λ session. messages_now session ≡ begin_messages number pair) }
        ensures number { IfOk result (λ session. session.number ≡ number) }
        ensures fits { pair < 2 ^ 64 }
        ensures lawful { number < 2 ^ 64 }
    {
        let left = PeerState::new(alloc, number, pair)?;
        let right = PeerState::new(alloc, number, pair)?;
        Ok(Session {
            number,
            preference,
            left,
            right,
            progress: None,
        })
    }

    /// The requests that wait, for the left and then for the right. Refused 11 where memory is
    /// refused.
    pub fn waiting(&self, alloc: Global) -> Result<Vec<Sending>, AllocError>
        ensures ok { IfOk result (λ sends. messages_of sends.items ≡ messages_now self.now) }
        ensures resends { (archive : Keeping) (running : Running)
            → IsSession archive self.now running → IfOk result (λ sends. messages_of sends.items
            ≡ messages_to running.session Left running.left
            ++ messages_to running.session Right running.right) }
    {
        let mut sends = Vec::new(alloc);
        self.left.send(&mut sends, Side::Left)?;
        self.right.send(&mut sends, Side::Right)?;
        Ok(sends)
    }

    /// Whether a request that waits was sent again as often as it may be.
    pub fn is_worn(&self) -> bool
        ensures { result ≡ is_worn_now self.now }
    {
        self.left.is_worn() || self.right.is_worn()
    }

    /// Each request that waits was sent once more.
    pub fn count_resend(&mut self)
        requires { is_worn_now self.old ≡ false }
        ensures { (archive : Keeping) (running : Running) → IsSession archive self.old running
            → IsSession archive self.new (resent_once running) }
    {
        self.left.count_resend();
        self.right.count_resend();
    }

    /// Takes out the request that waits for the answer of that number from the side, if it is of
    /// that session. None where no such request waits.
    pub fn take_waiting(
        &mut self,
        from: Side,
        session: u64,
        number: u32,
    ) -> Option<Rc<RequestMessage>>
        ensures some { IfSome result (λ message. (self.old.number ≡ session) × IsAnswering self.old
            self.new (which_of from) number (request_of message.value.request)) }
        ensures none { result ≡ None → (self.new ≡ self.old) × (self.old.number ≡ session
            → asked_in (waiting_of (peer_of self.old (which_of from))) number ≡ None) }
    {
        if self.number != session {
            return None;
        }
        match from {
            Side::Left => self.left.take_waiting(number),
            Side::Right => self.right.take_waiting(number),
        }
    }

    /// Takes the answer of a side to a listing. Refused as the scan of the side refuses it.
    pub(crate) fn take_listing(
        &mut self,
        alloc: Global,
        from: Side,
        path: &Path,
        reply: Reply,
    ) -> Result<(), Refusal>
        requires lawful { IsLawfulReply (reply_of reply) }
        ensures step { (taken : Exchanges) (number : ℕ)
            → WaitsFor (peer_of self.old (which_of from)).scan path.now
            → IsFoundIn (found_on self.old (which_of from)) (which_of from) taken
            → MatchResult result
            (λ _. (fault_of taken (which_of from) (ListAt path.now) (reply_of reply) ≡ None)
            × IsFoundIn (found_on self.new (which_of from)) (which_of from)
            (with_listing_answered taken (which_of from) number path.now (reply_of reply)))
            (λ e. (cause_of e ≡ Memory) ⊎ (fault_of taken (which_of from) (ListAt path.now)
            (reply_of reply) ≡ Some (cause_of e))) }
        ensures out { OnOk result (out_of (peer_of self.new (which_of from)).scan
            ≡ without (out_of (peer_of self.old (which_of from)).scan) path.now) }
        ensures keeps { KeepsRequests self.old self.new (which_of from) }
        ensures same { OnErr result (found_on self.new (which_of from)
            ≡ found_on self.old (which_of from)) }
    {
        match from {
            Side::Left => self.left.scan.take(alloc, path, reply),
            Side::Right => self.right.scan.take(alloc, path, reply),
        }
    }

    /// Whether a request waits on the side.
    pub fn waits_on(&self, side: Side) -> bool
        ensures { result ≡ nat_lt 0 (length (waiting_of (peer_of self.now (which_of side)))) }
    {
        match side {
            Side::Left => self.left.is_waiting(),
            Side::Right => self.right.is_waiting(),
        }
    }

    /// Asks the sides for what comes next, and gives what is to be sent. Refused 11 where memory
    /// is refused, or where a number would need more than four bytes.
    pub fn ask(&mut self, alloc: Global, asks: Asks) -> Result<Vec<Sending>, AllocError>
        ensures left { OnOk result (IsAskedOn self.old.number self.old.left self.new.left
            (asks_of asks Left)) }
        ensures right { OnOk result (IsAskedOn self.old.number self.old.right self.new.right
            (asks_of asks Right)) }
        ensures number { self.new.number ≡ self.old.number }
        ensures preference { self.new.preference ≡ self.old.preference }
        ensures left_scan { self.new.left.scan ≡ self.old.left.scan }
        ensures right_scan { self.new.right.scan ≡ self.old.right.scan }
        ensures progress { self.new.progress ≡ self.old.progress }
        ensures sends { IfOk result (λ sends. messages_of sends.items
            ≡ messages_asked self.old asks) }
    {
        match asks {
            Asks::Listings { left, right } => self.ask_listings(alloc, left, right),
            Asks::One(SideRequest { to, request }) => self.ask_one(alloc, to, request),
        }
    }

    /// Asks both sides for these listings.
    fn ask_listings(
        &mut self,
        alloc: Global,
        left: Vec<Path>,
        right: Vec<Path>,
    ) -> Result<Vec<Sending>, AllocError>
        ensures left { OnOk result (IsAskedOn self.old.number self.old.left self.new.left
            (map ListAt left.items)) }
        ensures right { OnOk result (IsAskedOn self.old.number self.old.right self.new.right
            (map ListAt right.items)) }
        ensures number { self.new.number ≡ self.old.number }
        ensures preference { self.new.preference ≡ self.old.preference }
        ensures left_scan { self.new.left.scan ≡ self.old.left.scan }
        ensures right_scan { self.new.right.scan ≡ self.old.right.scan }
        ensures progress { self.new.progress ≡ self.old.progress }
        ensures sends { IfOk result (λ sends. messages_of sends.items
            ≡ messages_to self.old.number Left
            (numbered self.old.left.next_number (map ListAt left.items))
            ++ messages_to self.old.number Right
            (numbered self.old.right.next_number (map ListAt right.items))) }
    {
        let mut sends = Vec::new(alloc);
        self.left
            .ask_listings(alloc, &mut sends, Side::Left, self.number, left)?;
        self.right
            .ask_listings(alloc, &mut sends, Side::Right, self.number, right)?;
        Ok(sends)
    }

    /// Asks one side for this.
    fn ask_one(
        &mut self,
        alloc: Global,
        side: Side,
        request: Request,
    ) -> Result<Vec<Sending>, AllocError>
        ensures peer { OnOk result (IsAskedOn self.old.number (peer_of self.old (which_of side))
            (peer_of self.new (which_of side)) (request_of request ∷ [])) }
        ensures across { peer_of self.new (other (which_of side))
            ≡ peer_of self.old (other (which_of side)) }
        ensures number { self.new.number ≡ self.old.number }
        ensures preference { self.new.preference ≡ self.old.preference }
        ensures left_scan { self.new.left.scan ≡ self.old.left.scan }
        ensures right_scan { self.new.right.scan ≡ self.old.right.scan }
        ensures progress { self.new.progress ≡ self.old.progress }
        ensures sends { IfOk result (λ sends. messages_of sends.items
            ≡ messages_to self.old.number (which_of side)
            (numbered (peer_of self.old (which_of side)).next_number (request_of request ∷ []))) }
    {
        let mut sends = Vec::new(alloc);
        match side {
            Side::Left => self
                .left
                .ask(alloc, &mut sends, side, self.number, request)?,
            Side::Right => self
                .right
                .ask(alloc, &mut sends, side, self.number, request)?,
        }
        Ok(sends)
    }

    /// Whether a path changed its kind under one of the scans: it was answered as no directory.
    fn has_unstable_path(&self, alloc: Global) -> bool
        ensures { (running : Running) → Tells self.now running → result ≡ took_not_dir running }
    {
        self.left.scan.has_unstable_path(alloc) || self.right.scan.has_unstable_path(alloc)
    }

    /// What it reports where it ends so: early for a refusal, or as it came through its plan. It
    /// takes no memory.
    pub fn into_report(self, alloc: Global, ended: Option<Refusal>) -> Report
        ensures { (running : Running) → Tells self running
            → report_model result ≡ report_of running (option_map cause_of ended) }
    {
        let has_unstable_path = self.has_unstable_path(alloc);
        let progress = self.progress;
        // Nothing else of the scans is reported.
        drop(self.left);
        drop(self.right);
        match progress {
            Some(progress) => planned_report(self.number, has_unstable_path, progress, ended),
            None => Report {
                session: self.number,
                end: end_for(ended, 0, has_unstable_path),
                ended,
                done: 0,
                marked: 0,
                conflicts: Vec::new(alloc),
                refused: Vec::new(alloc),
            },
        }
    }
}

/// What a session reports that came so far through its plan.
fn planned_report(
    number: u64,
    has_unstable_path: bool,
    progress: PlanProgress,
    ended: Option<Refusal>,
) -> Report
    ensures session { result.session ≡ number }
    ensures end { end_of result.end
        ≡ end_by (option_map cause_of ended) (length progress.refused.items) has_unstable_path }
    ensures ended { result.ended ≡ ended }
    ensures done { result.done ≡ progress.done }
    ensures marked { result.marked ≡ progress.marked }
    ensures conflicts { result.conflicts ≡ progress.conflicts }
    ensures refused { result.refused ≡ progress.refused }
{
    drop(progress.items);
    drop(progress.carrying);
    Report {
        session: number,
        end: end_for(ended, progress.refused.len(), has_unstable_path),
        ended,
        done: progress.done,
        marked: progress.marked,
        conflicts: progress.conflicts,
        refused: progress.refused,
    }
}

/// How a session ends, by what ended it early, how many items were refused, and whether a path was
/// unstable.
fn end_for(ended: Option<Refusal>, refused: usize, has_unstable_path: bool) -> End
    ensures { end_of result ≡ end_by (option_map cause_of ended) refused has_unstable_path }
{
    if ended.is_none() && refused == 0 && !has_unstable_path {
        End::Complete
    } else {
        End::Incomplete
    }
}
