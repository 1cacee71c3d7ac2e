//! What a session asks of one side.
ghost use Rattle.std.specs.Prelude.{◌≡◌, ◌+◌, [], ◌∷◌, ◌++◌, None, false, nat_lt, option_map};
ghost use Rattle.std.specs.Prelude.{ℕ, length, map, IfOk, IfSome, OnOk};
ghost use Rattle.syn_machine.specs.Coordinator.{asked_in, messages_to, numbered, once_more};
ghost use Rattle.syn_machine.specs.Network.{Which};
ghost use Rattle.syn_machine.specs.Side.{ListAt};
ghost use Rattle.syn_message.specs.Requests.{request_of};
ghost use Rattle.syn_path.specs.Sides.{which_of};
ghost use Rattle.syn_session.specs.Scanning.{IsFoundIn, found_of, out_of};
ghost use Rattle.syn_session.specs.Sendings.{messages_of, messages_waiting};

use crate::requests::{UnansweredRequest, count_resends, index_of, is_any_worn};
use crate::sending::Sending;
use crate::side_scan::SideScan;
use std::alloc::{AllocError, Global};
use std::rc::Rc;
use syn_message::{Request, RequestMessage};
use syn_path::{Path, Side};

/// The number of requests that a session may send to a side: four bytes spell their numbers.
const MOST_REQUESTS: u64 = 4_294_967_296;

/// The number of listings that may wait on a side at a time.
const MOST_LISTINGS: usize = 8;

/// What a session asks of one side: one request at a time, or up to eight listings; and the scan
/// that the answers give.
#[derive(Debug, Drop)]
pub struct PeerState {
    /// In rising number.
    pub waiting: Vec<UnansweredRequest>,
    /// How many requests were sent there, resends aside.
    pub(crate) next_number: u64,
    pub scan: SideScan,
}

impl PeerState {
    ghost use Rattle.syn_session.specs.Answering.{IsAskedOn};
    ghost use Rattle.syn_session.specs.Sessions.{begin_of, is_worn_out};
    ghost use Rattle.syn_session.specs.Stages.{AreOfSession, HasTaken, waiting_of};
    ghost use Rattle.syn_session.specs.inner.Listing.{ListsNext};

    /// The side is to begin the session of that number. Room for all that may wait is taken here.
    /// Refused 11 where memory is refused.
    pub(crate) fn new(alloc: Global, session: u64, pair: u64) -> Result<PeerState, AllocError>
        ensures waits { IfOk result (λ peer. waiting_of peer ≡ begin_of pair) }
        ensures of_session { IfOk result (AreOfSession session) }
        ensures number { IfOk result (λ peer. peer.next_number ≡ 1) }
        ensures found { (side : Which)
            → IfOk result (λ peer. IsFoundIn (found_of peer.scan) side []) }
        ensures out { IfOk result (λ peer. out_of peer.scan ≡ []) }
    {
        let mut waiting = Vec::with_capacity(alloc, MOST_LISTINGS)?;
        waiting.push(UnansweredRequest::new(alloc, session, 0, Request::Begin { pair })?)?;
        let scan = SideScan::new(alloc)?;
        Ok(PeerState {
            waiting,
            next_number: 1,
            scan,
        })
    }

    /// Takes out the request that waits for the answer of that number. None where no such request
    /// waits.
    pub(crate) fn take_waiting(&mut self, number: u32) -> Option<Rc<RequestMessage>>
        ensures request { option_map (λ message. request_of message.value.request) result
            ≡ asked_in (waiting_of self.old) number }
        ensures some { IfSome result (λ _. HasTaken self.old self.new number) }
        ensures none { result ≡ None → self.new ≡ self.old }
        ensures number { self.new.next_number ≡ self.old.next_number }
        ensures scan { self.new.scan ≡ self.old.scan }
    {
        match index_of(&self.waiting, number) {
            Some(at) => Some(self.waiting.remove(at).message),
            None => None,
        }
    }

    /// Whether a request waits.
    pub fn is_waiting(&self) -> bool
        ensures { result ≡ nat_lt 0 (length (waiting_of self.now)) }
    {
        !self.waiting.is_empty()
    }

    /// The listings that are asked for next: so many that eight requests wait, or as many as there
    /// are directories that were not asked for yet. Refused 11 where memory is refused.
    pub(crate) fn next_listings(&mut self, alloc: Global) -> Result<Vec<Path>, AllocError>
        ensures next { IfOk result (λ paths. ListsNext self.old self.new paths.items) }
        ensures waits { self.new.waiting ≡ self.old.waiting }
        ensures number { self.new.next_number ≡ self.old.next_number }
        ensures found { found_of self.new.scan ≡ found_of self.old.scan }
    {
        let mut next = Vec::new(alloc);
        'window: while self.waiting.len() + next.len() < MOST_LISTINGS {
            let Some(path) = self.scan.next(alloc)? else {
                return Ok(next);
            };
            // Its type says that it is a path.
            let _ = path.names();
            next.push(path)?;
        }
        Ok(next)
    }

    /// Asks the side for this next, and adds it to what is to be sent. Refused 11 where memory is
    /// refused, or where its number would need more than four bytes.
    pub(crate) fn ask(
        &mut self,
        alloc: Global,
        sends: &mut Vec<Sending>,
        to: Side,
        session: u64,
        request: Request,
    ) -> Result<(), AllocError>
        ensures asked { OnOk result (IsAskedOn session self.old self.new
            (request_of request ∷ [])) }
        ensures scan { self.new.scan ≡ self.old.scan }
        ensures ok { OnOk result (messages_of sends.new.items ≡ messages_of sends.old.items
            ++ messages_to session (which_of to)
            (numbered self.old.next_number (request_of request ∷ []))) }
    {
        if self.next_number >= MOST_REQUESTS {
            return Err(AllocError);
        }
        let one = UnansweredRequest::new(alloc, session, self.next_number as u32, request)?;
        let sending = one.sending(to)?;
        self.waiting.push(one)?;
        self.next_number += 1;
        sends.push(sending)?;
        Ok(())
    }

    /// Asks the side for the listings of these directories, and adds them to what is to be sent.
    /// Refused 11 where memory is refused, or where a number would need more than four bytes.
    pub(crate) fn ask_listings(
        &mut self,
        alloc: Global,
        sends: &mut Vec<Sending>,
        to: Side,
        session: u64,
        paths: Vec<Path>,
    ) -> Result<(), AllocError>
        ensures asked { OnOk result (IsAskedOn session self.old self.new
            (map ListAt paths.items)) }
        ensures scan { self.new.scan ≡ self.old.scan }
        ensures ok { OnOk result (messages_of sends.new.items ≡ messages_of sends.old.items
            ++ messages_to session (which_of to)
            (numbered self.old.next_number (map ListAt paths.items))) }
    {
        for path in paths {
            self.ask(alloc, sends, to, session, Request::List { path })?;
        }
        Ok(())
    }

    /// Adds the requests that wait to what is to be sent. Refused 11 where memory is refused.
    pub(crate) fn send(&self, sends: &mut Vec<Sending>, to: Side) -> Result<(), AllocError>
        ensures { OnOk result (messages_of sends.new.items ≡ messages_of sends.old.items
            ++ messages_waiting (which_of to) self.now) }
    {
        for one in &self.waiting {
            sends.push(one.sending(to)?)?;
        }
        Ok(())
    }

    /// Whether a request that waits was sent again as often as it may be.
    pub(crate) fn is_worn(&self) -> bool
        ensures { result ≡ is_worn_out (waiting_of self.now) }
    {
        is_any_worn(&self.waiting)
    }

    /// Each request that waits was sent once more.
    pub(crate) fn count_resend(&mut self)
        requires { is_worn_out (waiting_of self.old) ≡ false }
        ensures waits { waiting_of self.new ≡ once_more (waiting_of self.old) }
        ensures of_session { (session : ℕ) → AreOfSession session self.old
            → AreOfSession session self.new }
        ensures number { self.new.next_number ≡ self.old.next_number }
        ensures scan { self.new.scan ≡ self.old.scan }
    {
        count_resends(&mut self.waiting);
    }
}
