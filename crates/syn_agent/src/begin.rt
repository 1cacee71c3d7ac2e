//! A session begins on a side.
ghost use Rattle.std.specs.Prelude.{◌≡◌};
ghost use Rattle.syn_machine.specs.Side.{Begin, Refused, TakesMemory};
ghost use Rattle.syn_message.specs.Replies.{IsLawfulReply, reply_of};
ghost use Rattle.syn_model.specs.History.{History};
ghost use Rattle.syn_model.specs.Refusal as why;
ghost use Rattle.syn_replica.specs.Growth.{IsGrown};
ghost use Rattle.syn_replica.specs.Replica.{IsHalted, Stands, disk_of, pair_of};
ghost use Rattle.syn_agent.specs.Agents.{side_of};
ghost use Rattle.syn_agent.specs.Answers.{Answers, IsUnchanged, room_for};
ghost use Rattle.syn_agent.specs.Causes.{CountsFailures};

use crate::agent::Agent;
use std::alloc::Global;
use syn_disk::Disk;
use syn_message::Reply;
use syn_replica::Replica;

impl Agent {
    /// Begins the session on the replica, and answers its position. What is staged stays.
    ///
    /// Refused as `Replica::begin` is.
    pub fn begin<D: Disk>(
        &self,
        alloc: Global,
        replica: &mut Replica<D>,
        session: u64,
        pair: u64,
    ) -> Reply
        ensures answers { (history : History) → Stands replica.old history
            → Answers replica.old replica.new self.now self.now history session (Begin pair)
            (reply_of result) }
        ensures grown { IsGrown replica.old replica.new }
        ensures lawful { IsLawfulReply (reply_of result) }
        ensures memory { (history : History) → Stands replica.old history
            → reply_of result ≡ Refused why.Memory → TakesMemory (pair_of replica.old)
            (room_for replica.old) (side_of history self.now) session (Begin pair) }
        ensures failures { CountsFailures (reply_of result) (D.failures (disk_of replica.old))
            (D.failures (disk_of replica.new)) }
        ensures halted { IsHalted replica.old → (reply_of result ≡ Refused why.Halted)
            × IsUnchanged replica.old replica.new }
    {
        match replica.begin(alloc, pair, session) {
            Ok(position) => Reply::Begun { position },
            Err(error) => Reply::Refused(error.refusal()),
        }
    }
}
