//! Every request of a session.
ghost use Rattle.std.specs.Prelude.{◌≡◌, ◌⊎◌, ℕ};
ghost use Rattle.syn_machine.specs.Side.{Refused, TakesMemory, answer};
ghost use Rattle.syn_machine.specs.SideMachine.{ServesHalted, SideMachine};
ghost use Rattle.syn_message.specs.Replies.{IsLawfulReply, reply_of};
ghost use Rattle.syn_message.specs.Requests.{request_of};
ghost use Rattle.syn_model.specs.History.{History};
ghost use Rattle.syn_model.specs.Refusal as why;
ghost use Rattle.syn_replica.specs.Growth.{IsGrown};
ghost use Rattle.syn_replica.specs.Replica.{IsHalted, Stands, disk_of, pair_of};
ghost use Rattle.syn_agent.specs.Agents.{side_of};
ghost use Rattle.syn_agent.specs.Answers.{Answers, IsUnchanged, room_for};
ghost use Rattle.syn_agent.specs.Causes.{CountsFailures};
ghost use Rattle.syn_agent.specs.Machines.{IsOf, Takes};

use crate::agent::Agent;
use std::alloc::Global;
use syn_disk::Disk;
use syn_history::Token;
use syn_message::{Reply, Request};
use syn_replica::Replica;

impl Agent {
    /// Answers a request of the session from the replica, and does there what it asks for.
    ///
    /// A halted replica refuses all but a piece to stage 10. Each other refusal is that of the call
    /// that answers the request.
    pub fn answer<D: Disk>(
        &mut self,
        alloc: Global,
        replica: &mut Replica<D>,
        session: u64,
        request: Request,
    ) -> Reply
        // It is a step of the world's side, and the replica is the machine's after it.
        ensures takes { (pair : ℕ) (machine : SideMachine) → IsOf pair replica.old self.old machine
            → Takes pair replica.old replica.new self.new machine session (request_of request)
            (reply_of result) }

        // What it does to the replica, for every history that this stands for.
        ensures answers { (history : History) → Stands replica.old history
            → Answers replica.old replica.new self.old self.new history session
            (request_of request) (reply_of result) }
        ensures halted { (history : History) → IsHalted replica.old
            → ServesHalted (side_of history self.old) session (request_of request)
            (answer (side_of history self.new) (reply_of result)) }
        ensures unchanged { IsHalted replica.old → IsUnchanged replica.old replica.new }

        // Whatever is answered, no history is lost.
        ensures grown { IsGrown replica.old replica.new }

        // It can be sent.
        ensures lawful { IsLawfulReply (reply_of result) }

        // When memory is refused, and when the device failed.
        ensures memory { (history : History) → Stands replica.old history ⊎ IsHalted replica.old
            → reply_of result ≡ Refused why.Memory → TakesMemory (pair_of replica.old)
            (room_for replica.old) (side_of history self.old) session (request_of request) }
        ensures failures { CountsFailures (reply_of result) (D.failures (disk_of replica.old))
            (D.failures (disk_of replica.new)) }
    {
        self.serve(alloc, replica, session, request)
    }

    /// The same, as the replica shows it.
    fn serve<D: Disk>(
        &mut self,
        alloc: Global,
        replica: &mut Replica<D>,
        session: u64,
        request: Request,
    ) -> Reply
        ensures answers { (history : History) → Stands replica.old history
            → Answers replica.old replica.new self.old self.new history session
            (request_of request) (reply_of result) }
        ensures halted { (history : History) → IsHalted replica.old
            → ServesHalted (side_of history self.old) session (request_of request)
            (answer (side_of history self.new) (reply_of result)) }
        ensures unchanged { IsHalted replica.old → IsUnchanged replica.old replica.new }
        ensures grown { IsGrown replica.old replica.new }
        ensures lawful { IsLawfulReply (reply_of result) }
        ensures memory { (history : History) → Stands replica.old history ⊎ IsHalted replica.old
            → reply_of result ≡ Refused why.Memory → TakesMemory (pair_of replica.old)
            (room_for replica.old) (side_of history self.old) session (request_of request) }
        ensures failures { CountsFailures (reply_of result) (D.failures (disk_of replica.old))
            (D.failures (disk_of replica.new)) }
    {
        match request {
            Request::Begin { pair } => self.begin(alloc, replica, session, pair),
            Request::List { path } => self.list(alloc, replica, &path),
            Request::Fetch {
                path,
                since,
                offset,
            } => self.fetch(alloc, replica, &path, since, offset),
            Request::Stage {
                item,
                offset,
                piece,
            } => self.stage(Token { session, item }, offset, piece.into_bytes()),
            Request::Replace {
                item,
                path,
                since,
                length,
            } => self.replace(
                alloc,
                replica,
                Token { session, item },
                &path,
                since,
                length,
            ),
        }
    }
}
