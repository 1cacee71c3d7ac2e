//! The requests that wait for their answers.
ghost use Rattle.std.specs.Prelude.{◌≡◌, ◌==◌, false, map, nat_le, position, IfOk};
ghost use Rattle.std.specs.List.{list_any};
ghost use Rattle.syn_machine.specs.Coordinator.{most_resends};
ghost use Rattle.syn_message.specs.Requests.{request_of};
ghost use Rattle.syn_path.specs.Sides.{which_of};
ghost use Rattle.syn_session.specs.Sessions.{sent_again};

use crate::sending::Sending;
use std::alloc::{AllocError, Global};
use std::rc::Rc;
use syn_message::{Request, RequestMessage};
use syn_path::Side;

/// How often a request is sent again at most.
pub const MOST_RESENDS: u8 = 8;

/// A request that waits for its answer.
#[derive(Debug, Drop)]
pub struct UnansweredRequest {
    /// It was sent so, and is sent again as it is.
    pub(crate) message: Rc<RequestMessage>,
    /// How often it was sent again.
    pub(crate) resent: u8,
}

impl UnansweredRequest {
    ghost use Rattle.syn_session.specs.Sendings.{message_of, message_waiting};
    ghost use Rattle.syn_session.specs.Sessions.{asks};
    ghost use Rattle.syn_session.specs.Stages.{outstanding_of};

    /// A request of a session, under its number there, that was not sent again yet. Refused 11
    /// where memory is refused.
    pub(crate) fn new(
        alloc: Global,
        session: u64,
        number: u32,
        request: Request,
    ) -> Result<UnansweredRequest, AllocError>
        ensures asks { IfOk result (λ one. outstanding_of one ≡ asks number (request_of request)) }
        ensures session { IfOk result (λ one. one.message.value.session ≡ session) }
    {
        let message = RequestMessage {
            session,
            number,
            request,
        };
        Ok(UnansweredRequest {
            message: Rc::new(alloc, message)?,
            resent: 0,
        })
    }

    /// What is sent of it to the side. Refused 11 where it has as many owners as can be counted.
    pub(crate) fn sending(&self, to: Side) -> Result<Sending, AllocError>
        ensures { IfOk result (λ sending. message_of sending
            ≡ message_waiting (which_of to) self.now) }
    {
        Ok(Sending {
            to,
            message: self.message.clone()?,
        })
    }

    /// Whether it was sent again as often as it may be.
    pub(crate) fn is_worn(&self) -> bool
        ensures { result ≡ nat_le most_resends self.now.resent }
    {
        self.resent >= MOST_RESENDS
    }

    /// It was sent once more.
    pub(crate) fn count_resend(&mut self)
        requires { nat_le most_resends self.old.resent ≡ false }
        ensures { self.new ≡ sent_again self.old }
    {
        self.resent += 1;
    }
}

/// Where the request of that number stands among these; none where none has it.
pub(crate) fn index_of(waiting: &[UnansweredRequest], number: u32) -> Option<usize>
    ensures { result ≡ position (λ one. one.message.value.number == number) waiting.now }
{
    waiting.iter().position(|one| one.message.number == number)
}

/// Whether one of these was sent again as often as it may be.
pub(crate) fn is_any_worn(waiting: &[UnansweredRequest]) -> bool
    ensures { result ≡ list_any (λ one. nat_le most_resends one.resent) waiting.now }
{
    waiting.iter().any(|one| one.is_worn())
}

/// Each of these was sent once more.
pub(crate) fn count_resends(waiting: &mut Vec<UnansweredRequest>)
    requires { list_any (λ one. nat_le most_resends one.resent) waiting.old.items ≡ false }
    ensures { waiting.new.items ≡ map sent_again waiting.old.items }
{
    for one in waiting.iter_mut() {
        one.count_resend();
    }
}
