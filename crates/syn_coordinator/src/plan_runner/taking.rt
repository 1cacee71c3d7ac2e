//! An answer that comes for a session.
ghost use Rattle.std.specs.Prelude.{◌≡◌, [], ℕ, None};
ghost use Rattle.syn_coordinator.specs.inner.Taking.{TakesSo};
ghost use Rattle.syn_coordinator.specs.Machines.{IsMachine, Journal};
ghost use Rattle.syn_machine.specs.Coordinator.{Exchange, Running, hearing};
ghost use Rattle.syn_machine.specs.Session.{fault_of};
ghost use Rattle.syn_message.specs.Replies.{IsLawfulReply, reply_of};
ghost use Rattle.syn_message.specs.Requests.{request_of};
ghost use Rattle.syn_path.specs.Sides.{which_of};
ghost use Rattle.syn_session.specs.Answering.{IsAnswering, exchange_of};
ghost use Rattle.syn_session.specs.Hearing.{HasHeard, IsScanned};
ghost use Rattle.syn_session.specs.Sessions.{IsSession};
ghost use Rattle.syn_session.specs.declared.session.Session.{Session as Ran};

use super::PlanRunner;
use crate::session_end::SessionEnd;
use std::alloc::Global;
use syn_disk::Disk;
use syn_message::{Reply, Request};
use syn_path::Side;
use syn_propagate::transfer_laws;
use syn_session::{Asks, Heard, PlanProgress, Session};

impl<D: Disk> PlanRunner<D> {
    ghost use Rattle.syn_coordinator.specs.PlanRunners.{written};
    ghost use Rattle.syn_coordinator.specs.inner.Advancing.{Breaks};
    ghost use Rattle.syn_coordinator.specs.inner.Settling.{IsQuiet};

    /// Takes the answer to a request of the session, and gives what is asked next.
    pub(crate) fn take(
        &mut self,
        alloc: Global,
        session: &mut Session,
        from: Side,
        request: &Request,
        reply: Reply,
    ) -> Result<Asks, SessionEnd>
        requires lawful { IsLawfulReply (reply_of reply) }
        ensures step { (pair number : ℕ) (journal : Journal) (before : Ran) (running : Running)
            → IsMachine self.old.archive pair journal → IsQuiet self.old journal
            → IsSession journal.value before running
            → IsAnswering before session.old (which_of from) number (request_of request.now)
            → written self.old ≡ [] → TakesSo self.new.archive self.new.tried pair
            journal running
            (exchange_of (which_of from) number (request_of request.now) (reply_of reply))
            session.new (written self.new) result }
        ensures breaks { Breaks self.old self.new result }
    {
        let Some(progress) = &mut session.progress else {
            return match session.hear(alloc, from, request, reply)? {
                Heard::Ask(asks) => Ok(asks),
                Heard::Scanned => self.begin_plan(alloc, session),
            };
        };
        transfer_laws();
        let left = session.left.scan.so_far();
        let right = session.right.scan.so_far();
        self.carry_on(alloc, progress, left, right, reply)
    }

    /// Makes the plan of the session, both sides of which are scanned, and goes through it.
    fn begin_plan(&mut self, alloc: Global, session: &mut Session) -> Result<Asks, SessionEnd>
        ensures step { (pair : ℕ) (journal : Journal) (running : Running) (taken : Exchange)
            → IsMachine self.old.archive pair journal → IsQuiet self.old journal
            → fault_of running.taken taken.side taken.request taken.reply ≡ None
            → HasHeard session.old (hearing running taken)
            → IsScanned session.old (hearing running taken)
            → written self.old ≡ [] → TakesSo self.new.archive self.new.tried pair
            journal running taken session.new (written self.new) result }
        ensures breaks { Breaks self.old self.new result }
    {
        let left = session.left.scan.so_far();
        let right = session.right.scan.so_far();
        let archive = self.archive.tree();
        let preference = session.preference;
        let mut progress = PlanProgress::new(alloc, left, right, archive, preference)?;
        let asks = self.walk(alloc, &mut progress, left, right);
        drop(session.progress.replace(progress));
        asks
    }
}
