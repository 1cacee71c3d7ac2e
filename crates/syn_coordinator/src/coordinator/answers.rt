//! The answers that come to a coordinator.
ghost use Rattle.std.specs.Prelude.{◌≡◌, ◌⊎◌, ℕ, false, true};
ghost use Rattle.syn_machine.specs.Coordinator.{CoordinatorMachine, CoordinatorTakes};
ghost use Rattle.syn_message.specs.Replies.{IsLawfulReply, reply_of};
ghost use Rattle.syn_path.specs.Sides.{which_of};
ghost use Rattle.syn_session.specs.Sendings.{messages_of};

use super::Coordinator;
use crate::session_end::SessionEnd;
use std::alloc::Global;
use syn_disk::Disk;
use syn_message::Reply;
use syn_path::Side;
use syn_refusal::Refusal;
use syn_session::Sending;

impl<D: Disk> Coordinator<D> {
    ghost use Rattle.syn_coordinator.specs.Coordinators.{BreaksOff, Does, TellsNone};
    ghost use Rattle.syn_coordinator.specs.Coordinators.{HaltsByFailure};
    ghost use Rattle.syn_coordinator.specs.Coordinators.{Stands, report_shown, runs, written};

    /// Takes an answer of a side, under the session and the number of its request. It goes on
    /// through the scans and the plan as far as it can, keeps what is due in the archive, and
    /// answers what is to be sent.
    ///
    /// An answer that no request waits for is ignored. A session ends with the refusal of its
    /// begin or of a listing; 22 where a scan grows too large; 23 where the answer does not belong
    /// to its request; 9 where a device call fails, and 10 where one had failed before; 8 where a
    /// record does not fit in the archive's journal, even after a checkpoint; 11 where memory is
    /// refused; and with none of these where it comes through its plan.
    pub fn on_reply(
        &mut self,
        alloc: Global,
        from: Side,
        session: u64,
        number: u32,
        reply: Reply,
    ) -> Vec<Sending>
        requires lawful { IsLawfulReply (reply_of reply) }
        // It is the step of a coordinator that takes an answer, also where its device fails or is
        // stopped among the calls.
        ensures step { (pair : ℕ) (machine : CoordinatorMachine) → Stands self.old pair machine
            → Does self.old self.new pair (CoordinatorTakes pair machine (which_of from) session
            number (reply_of reply)) (written self.new) (messages_of result.items) }
        // An answer that ends no session leaves the last report.
        ensures report { (runs self.new ≡ true) ⊎ (runs self.old ≡ false)
            → report_shown self.new ≡ report_shown self.old }
        // The record that `kept` tells as in doubt was tried in it, and is what the machine's
        // journal was writing (`tries` of `Stands`). None is told where none was sent.
        ensures breaks { TellsNone self.old self.new ⊎ BreaksOff self.old self.new }
        ensures halts { HaltsByFailure self.old self.new }
    {
        self.plan_runner.forget(alloc);
        let Some(running) = &mut self.running else {
            drop(reply);
            return Vec::new(alloc);
        };
        let Some(message) = running.take_waiting(from, session, number) else {
            drop(reply);
            return Vec::new(alloc);
        };
        let taken = self
            .plan_runner
            .take(alloc, running, from, &message.request, reply);
        // Before the next request, which may take as much memory.
        drop(message);
        match taken {
            Ok(asks) => match running.ask(alloc, asks) {
                Ok(sends) => sends,
                Err(_) => self.end(alloc, SessionEnd::Early(Refusal::Memory)),
            },
            Err(ended) => self.end(alloc, ended),
        }
    }
}
