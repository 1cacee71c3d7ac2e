//! What a side tells of its tree.
ghost use Rattle.std.specs.Prelude.{◌≡◌, ◌≢◌, ℕ};
ghost use Rattle.syn_machine.specs.Side.{Fetch, ListAt, Refused, TakesMemory};
ghost use Rattle.syn_message.specs.Replies.{IsLawfulReply, reply_of};
ghost use Rattle.syn_model.specs.History.{History};
ghost use Rattle.syn_model.specs.Refusal as why;
ghost use Rattle.syn_replica.specs.Replica.{IsHalted, Stands, pair_of};
ghost use Rattle.syn_agent.specs.Agents.{side_of};
ghost use Rattle.syn_agent.specs.Answers.{Answers, room_for};

use crate::agent::Agent;
use crate::laws::listing_laws;
use std::alloc::Global;
use syn_disk::Disk;
use syn_message::Reply;
use syn_model::are_bytes;
use syn_path::Path;
use syn_refusal::Refusal;
use syn_replica::{Listing, Replica};

impl Agent {
    /// The names in the directory with the mark of each, or that no directory is at the path.
    ///
    /// Refused 10 while the replica is halted, and 11 where memory is refused.
    pub fn list<D: Disk>(&self, alloc: Global, replica: &Replica<D>, path: &Path) -> Reply
        ensures answers { (history : History) (session : ℕ) → Stands replica.now history
            → Answers replica.now replica.now self.now self.now history session (ListAt path.now)
            (reply_of result) }
        ensures lawful { IsLawfulReply (reply_of result) }
        ensures memory { (history : History) (session : ℕ) → Stands replica.now history
            → reply_of result ≡ Refused why.Memory → TakesMemory (pair_of replica.now)
            (room_for replica.now) (side_of history self.now) session (ListAt path.now) }
        ensures device { reply_of result ≢ Refused why.Device }
        ensures halted { IsHalted replica.now → reply_of result ≡ Refused why.Halted }
    {
        listing_laws(replica);
        match replica.listing(alloc, path) {
            Ok(Listing { position, entries }) => Reply::Listed { position, entries },
            Err(error) => match error.refusal() {
                Refusal::Absent => Reply::NotDir {
                    position: replica.position(),
                },
                why => Reply::Refused(why),
            },
        }
    }

    /// The length of what is spelled at the path, and a piece of it.
    ///
    /// Refused as `Replica::fetch` is.
    pub fn fetch<D: Disk>(
        &self,
        alloc: Global,
        replica: &Replica<D>,
        path: &Path,
        since: u64,
        offset: u32,
    ) -> Reply
        ensures answers { (history : History) (session : ℕ) → Stands replica.now history
            → Answers replica.now replica.now self.now self.now history session
            (Fetch path.now since offset) (reply_of result) }
        ensures lawful { IsLawfulReply (reply_of result) }
        ensures memory { (history : History) (session : ℕ) → Stands replica.now history
            → reply_of result ≡ Refused why.Memory → TakesMemory (pair_of replica.now)
            (room_for replica.now) (side_of history self.now) session
            (Fetch path.now since offset) }
        ensures device { reply_of result ≢ Refused why.Device }
        ensures halted { IsHalted replica.now → reply_of result ≡ Refused why.Halted }
    {
        match replica.fetch(alloc, path, since, offset as usize) {
            Ok(piece) => {
                are_bytes(&piece.bytes);
                Reply::Piece {
                    total: piece.total as u32,
                    bytes: piece.bytes,
                }
            }
            Err(error) => Reply::Refused(error.refusal()),
        }
    }
}
