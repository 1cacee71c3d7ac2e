//! A transfer, from what was answered last to what is asked next.
ghost use Rattle.std.specs.Prelude.{◌≡◌, ◌⊎◌, ℕ, [], Some, None, Err, Ok, IfOk, IfErr, OnErr};
ghost use Rattle.std.specs.Prelude.{MatchResult};
ghost use Rattle.syn_machine.specs.Network.{Which};
ghost use Rattle.syn_machine.specs.Session.{fault_of, fits_piece};
ghost use Rattle.syn_machine.specs.Side.{Request as Asked, Fetch, Piece};
ghost use Rattle.syn_message.specs.Replies.{reply_of};
ghost use Rattle.syn_message.specs.declared.reply.Reply.{Reply as Answer};
ghost use Rattle.syn_message.specs.declared.reply.Reply.TheVariants as answer;
ghost use Rattle.syn_refusal.specs.declared.refusal.Refusal.{Refusal as Why};
ghost use Rattle.syn_propagate.specs.Refusals.{refusal_of};
ghost use Rattle.syn_propagate.specs.Carrying.{Exchanges, IsFresh, IsUnreplaced, IsWhole};
ghost use Rattle.syn_propagate.specs.Carrying.{source_of};
ghost use Rattle.syn_propagate.specs.Transfers.{WaitsForItem, or_refused};

use crate::error::TransferError;
use crate::next::Next;
use crate::transfer_spec::TransferSpec;
use std::alloc::Global;
use syn_message::{LONGEST_PIECE, Reply, StagedPiece};

/// How far a transfer has come.
#[derive(Clone, Copy, Debug)]
enum TransferState {
    /// Nothing is asked yet.
    Ready,
    /// The piece from the offset on is asked for. How long the whole is, the first piece tells.
    Fetching { offset: u32, known: Option<u32> },
    /// A piece that ends there is sent.
    Staging { end: u32, total: u32 },
    /// The replacement is asked for.
    Replacing,
    /// It is done, or it was refused.
    Over,
}

/// The transfer of one item of a session. It keeps no bytes: each piece is handed on.
#[derive(Debug, Drop)]
pub struct Transfer {
    spec: TransferSpec,
    state: TransferState,
}

impl Transfer {
    ghost use Rattle.syn_propagate.specs.Transfers.{EndsBy, Follows, FollowsAny, IsMisfit, IsOver};
    ghost use Rattle.syn_propagate.specs.Transfers.{IsAsking, IsOverUnlessAsking, IsReady};
    ghost use Rattle.syn_propagate.specs.inner.TransferStates.{IsWaiting};
    ghost use Rattle.syn_propagate.specs.Transfers.{TakesMemory, WaitsFor, spec_of};
    ghost use Rattle.syn_propagate.specs.Transfers.{with_answer};
    ghost use Rattle.syn_propagate.specs.inner.TransferStates.{HasReached, HasStagedTo};

    /// A transfer that has asked for nothing yet.
    pub fn new(spec: TransferSpec) -> Transfer
        ensures spec { spec_of result ≡ spec }
        ensures ready { IsReady result }
    {
        Transfer {
            spec,
            state: TransferState::Ready,
        }
    }

    /// Takes the answer to what was asked last, none at first, and says what comes next: a piece
    /// from the source, that piece for the other side, and so on, and then the replacement.
    ///
    /// Refused 23 where the answer does not belong to what was asked: it is of another kind, or a
    /// piece has another length or total than it should; and 11 where memory is refused. After 11
    /// it is as it was, and takes the same answer again. After 23, or once it is done or a side
    /// refused it, it is over.
    pub fn step(&mut self, alloc: Global, reply: Option<Reply>) -> Result<Next, TransferError>
        ensures spec { spec_of self.new ≡ spec_of self.old }

        // At first it asks for the first piece.
        ensures starts { (taken : Exchanges) → reply ≡ None → IsReady self.old
            → IsFresh (spec_of self.old) taken
            → MatchResult result (FollowsAny self.new taken) (λ e. e ≡ TransferError.Memory) }
        ensures asks { reply ≡ None → IsReady self.old
            → MatchResult result IsAsking (λ e. e ≡ TransferError.Memory) }

        // An answer is refused exactly where it ends its session, or else what it says follows.
        ensures goes_on { (taken : Exchanges) (to : Which) (request : Asked) (number : ℕ)
            (answer : Answer) → reply ≡ Some answer → WaitsFor self.old taken to request
            → MatchResult result
            (λ next. (fault_of taken to request (reply_of answer) ≡ None) × Follows self.new
            (with_answer taken to number request (reply_of answer)) (reply_of answer) next)
            (λ e. (e ≡ TransferError.Memory)
            ⊎ (fault_of taken to request (reply_of answer) ≡ Some (refusal_of e))) }
        ensures refused { (taken : Exchanges) (to : Which) (request : Asked) (why : Why)
            → reply ≡ Some (answer.Refused why) → WaitsFor self.old taken to request
            → result ≡ Ok (Next.Refused why) }

        // It goes on after no last answer, and is done after that of its replacement alone.
        ensures ends { (taken : Exchanges) (to : Which) (request : Asked) (answer : Answer)
            → reply ≡ Some answer → WaitsFor self.old taken to request
            → IfOk result (EndsBy (spec_of self.old) request (reply_of answer)) }

        // Memory is refused only where what comes next takes some.
        ensures memory { result ≡ Err TransferError.Memory → TakesMemory reply }

        // What answers nothing that was asked is refused, and a transfer that is over asks nothing.
        ensures misfit { IsMisfit self.old reply → result ≡ Err TransferError.BadMessage }
        ensures over { MatchResult result (IsOverUnlessAsking self.new)
            (λ e. e ≡ TransferError.BadMessage → IsOver self.new) }
        ensures unchanged { result ≡ Err TransferError.Memory → self.new ≡ self.old }
    {
        let Some(reply) = reply else {
            return self.start(alloc);
        };
        match self.state {
            TransferState::Ready | TransferState::Over => self.end(Err(TransferError::BadMessage)),
            TransferState::Fetching { offset, known } => match reply {
                Reply::Piece { total, bytes } => {
                    self.take_piece(alloc, offset, known, total, bytes)
                }
                other => self.end(or_refused(other)),
            },
            TransferState::Staging { end, total } => match reply {
                Reply::Staged => self.go_on(alloc, end, total),
                other => self.end(or_refused(other)),
            },
            TransferState::Replacing => match reply {
                Reply::Done => {
                    self.state = TransferState::Over;
                    Ok(Next::Done)
                }
                other => self.end(or_refused(other)),
            },
        }
    }

    /// It is over with this answer.
    fn end(&mut self, answer: Result<Next, TransferError>) -> Result<Next, TransferError>
        ensures answer { result ≡ answer }
        ensures over { IsOver self.new }
        ensures spec { spec_of self.new ≡ spec_of self.old }
    {
        self.state = TransferState::Over;
        answer
    }

    /// Asks for the first piece, where nothing was asked yet.
    fn start(&mut self, alloc: Global) -> Result<Next, TransferError>
        ensures spec { spec_of self.new ≡ spec_of self.old }
        ensures starts { (taken : Exchanges) → IsReady self.old
            → IsFresh (spec_of self.old) taken
            → MatchResult result (FollowsAny self.new taken) (λ e. e ≡ TransferError.Memory) }
        ensures asks { IsReady self.old
            → MatchResult result IsAsking (λ e. e ≡ TransferError.Memory) }
        ensures misfit { IsOver self.old ⊎ IsWaiting self.old
            → result ≡ Err TransferError.BadMessage }
        ensures over { MatchResult result (IsOverUnlessAsking self.new)
            (λ e. e ≡ TransferError.BadMessage → IsOver self.new) }
        ensures unchanged { result ≡ Err TransferError.Memory → self.new ≡ self.old }
    {
        match self.state {
            TransferState::Ready => self.fetch(alloc, 0, None),
            _ => self.end(Err(TransferError::BadMessage)),
        }
    }

    /// Sends a piece that came on to the other side.
    fn take_piece(
        &mut self,
        alloc: Global,
        offset: u32,
        known: Option<u32>,
        total: u32,
        bytes: Vec<u8>,
    ) -> Result<Next, TransferError>
        ensures spec { spec_of self.new ≡ spec_of self.old }
        ensures asking { IfOk result IsAsking }
        ensures goes_on { (taken : Exchanges) (number : ℕ)
            → HasReached (spec_of self.old) taken offset known
            → let c = spec_of self.old in
            let request = Fetch c.path c.source_since offset in let answer = Piece total bytes.items
            in MatchResult result
            (λ next. (fault_of taken (source_of c) request answer ≡ None) × FollowsAny self.new
            (with_answer taken (source_of c) number request answer) next)
            (λ e. (e ≡ TransferError.Memory)
            ⊎ (fault_of taken (source_of c) request answer ≡ Some (refusal_of e))) }
        ensures memory { result ≡ Err TransferError.Memory → bytes.items ≡ [] }
        ensures over { MatchResult result (IsOverUnlessAsking self.new)
            (λ e. e ≡ TransferError.BadMessage → IsOver self.new) }
        ensures unchanged { result ≡ Err TransferError.Memory → self.new ≡ self.old }
    {
        if !fits_piece(known, offset, total, bytes.len()) {
            return self.end(Err(TransferError::BadMessage));
        }
        if bytes.is_empty() {
            return self.replace(alloc, total);
        }
        let end = offset + bytes.len() as u32;
        self.state = TransferState::Staging { end, total };
        Ok(self.spec.stage(offset, StagedPiece::new(bytes)))
    }

    /// Goes on after a piece that is staged.
    fn go_on(&mut self, alloc: Global, end: u32, total: u32) -> Result<Next, TransferError>
        ensures spec { spec_of self.new ≡ spec_of self.old }
        ensures asking { IfOk result IsAsking }
        ensures goes_on { (taken : Exchanges)
            → HasStagedTo (spec_of self.old) taken end total
            → MatchResult result (FollowsAny self.new taken) (λ e. e ≡ TransferError.Memory) }
        ensures over { IfOk result (IsOverUnlessAsking self.new) }
        ensures memory { IfErr result (λ e. e ≡ TransferError.Memory) }
        ensures unchanged { OnErr result (self.new ≡ self.old) }
    {
        if end < total {
            self.fetch(alloc, end, Some(total))
        } else {
            self.replace(alloc, total)
        }
    }

    /// Asks for the piece from the offset on.
    fn fetch(
        &mut self,
        alloc: Global,
        offset: u32,
        known: Option<u32>,
    ) -> Result<Next, TransferError>
        ensures spec { spec_of self.new ≡ spec_of self.old }
        ensures asking { IfOk result IsAsking }
        ensures asks { (taken : Exchanges) → HasReached (spec_of self.old) taken offset known
            → MatchResult result (FollowsAny self.new taken) (λ e. e ≡ TransferError.Memory) }
        ensures over { IfOk result (IsOverUnlessAsking self.new) }
        ensures memory { IfErr result (λ e. e ≡ TransferError.Memory) }
        ensures unchanged { OnErr result (self.new ≡ self.old) }
    {
        let next = self.spec.fetch(alloc, offset)?;
        self.state = TransferState::Fetching { offset, known };
        Ok(next)
    }

    /// Asks for the replacement by what is staged, which has so many bytes.
    fn replace(&mut self, alloc: Global, total: u32) -> Result<Next, TransferError>
        ensures spec { spec_of self.new ≡ spec_of self.old }
        ensures asking { IfOk result IsAsking }
        ensures asks { (taken : Exchanges) → IsWhole (spec_of self.old) taken total
            → IsUnreplaced (spec_of self.old) taken
            → MatchResult result (FollowsAny self.new taken) (λ e. e ≡ TransferError.Memory) }
        ensures over { IfOk result (IsOverUnlessAsking self.new) }
        ensures memory { IfErr result (λ e. e ≡ TransferError.Memory) }
        ensures unchanged { OnErr result (self.new ≡ self.old) }
    {
        let next = self.spec.replace(alloc, total)?;
        self.state = TransferState::Replacing;
        Ok(next)
    }
}

/// The side refused what it was asked; any other answer does not belong.
fn or_refused(reply: Reply) -> Result<Next, TransferError>
    ensures { result ≡ or_refused reply }
{
    match reply {
        Reply::Refused(why) => Ok(Next::Refused(why)),
        _ => Err(TransferError::BadMessage),
    }
}

/// The piece has the total that the first one told, and all the bytes that it can have.
fn fits_piece(known: Option<u32>, offset: u32, total: u32, count: usize) -> bool
    ensures { result ≡ fits_piece known offset total count }
{
    let as_told = match known {
        Some(told) => total == told,
        None => true,
    };
    as_told && offset <= total && count == LONGEST_PIECE.min((total - offset) as usize)
}

/// What a transfer waits for is for what it carries.
pub fn transfer_laws()
    ensures { WaitsForItem }
{}
