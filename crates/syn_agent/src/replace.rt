//! What is staged goes to its path.
ghost use Rattle.std.specs.Prelude.{◌≡◌, Some, None, IfOk, IfErr, length, option_map, false};
ghost use Rattle.syn_machine.specs.Side.{Reads, Refused, Replace, TakesMemory, staged_bytes};
ghost use Rattle.syn_history.specs.Events.{token_of};
ghost use Rattle.syn_message.specs.Replies.{IsLawfulReply, reply_of};
ghost use Rattle.syn_model.specs.History.{History, is_old_token};
ghost use Rattle.syn_model.specs.Refusal.{first_cause};
ghost use Rattle.syn_model.specs.Refusal as why;
ghost use Rattle.syn_refusal.specs.Refusals.{cause_of};
ghost use Rattle.syn_replica.specs.Growth.{IsGrown};
ghost use Rattle.syn_replica.specs.Replica.{IsHalted, Stands, disk_of, pair_of};
ghost use Rattle.syn_replica.specs.Steps.{is_done};
ghost use Rattle.syn_tree.specs.Nodes.{part_of};
ghost use Rattle.syn_agent.specs.Agents.{side_of, staging_of};
ghost use Rattle.syn_agent.specs.Answers.{Answers, IsUnchanged, room_for};
ghost use Rattle.syn_agent.specs.Causes.{CountsFailures, staging_causes};

use crate::agent::Agent;
use std::alloc::Global;
use syn_disk::Disk;
use syn_history::Token;
use syn_message::Reply;
use syn_path::Path;
use syn_refusal::Refusal;
use syn_replica::{Replica, TokenStatus};
use syn_tree::Node;
use syn_wire::{Version, WireError, decode_node, spelling_laws};

impl Agent {
    /// Puts what is staged for the item, which has so many bytes, in the place of all that is at
    /// and below the path. What is staged stays. A token that is done is answered again.
    ///
    /// Refused 10 while the replica is halted; 14 where the token is old, or below that of what is
    /// staged; 16 where nothing is staged for it; 17 where that has another length, or is no
    /// spelling of a file, a directory or nothing; and then as `Replica::replace` is.
    pub fn replace<D: Disk>(
        &self,
        alloc: Global,
        replica: &mut Replica<D>,
        token: Token,
        path: &Path,
        since: u64,
        length: u32,
    ) -> Reply
        ensures answers { (history : History) → Stands replica.old history
            → Answers replica.old replica.new self.now self.now history token.session
            (Replace token.item path.now since length) (reply_of result) }
        ensures grown { IsGrown replica.old replica.new }
        ensures lawful { IsLawfulReply (reply_of result) }
        ensures memory { (history : History) → Stands replica.old history
            → reply_of result ≡ Refused why.Memory → TakesMemory (pair_of replica.old)
            (room_for replica.old) (side_of history self.now) token.session
            (Replace token.item path.now since length) }
        ensures failures { CountsFailures (reply_of result) (D.failures (disk_of replica.old))
            (D.failures (disk_of replica.new)) }
        ensures halted { IsHalted replica.old → (reply_of result ≡ Refused why.Halted)
            × IsUnchanged replica.old replica.new }
    {
        if replica.is_halted() {
            return Reply::Refused(Refusal::Halted);
        }
        match replica.standing(token) {
            TokenStatus::Done => Reply::Done,
            TokenStatus::Old => Reply::Refused(Refusal::OldSession),
            TokenStatus::Open => self.replace_open(alloc, replica, token, path, since, length),
        }
    }

    /// The same under a token that is neither done nor old.
    fn replace_open<D: Disk>(
        &self,
        alloc: Global,
        replica: &mut Replica<D>,
        token: Token,
        path: &Path,
        since: u64,
        length: u32,
    ) -> Reply
        ensures answers { (history : History) → Stands replica.old history
            → is_done history (token_of token) ≡ false
            → is_old_token history (token_of token) ≡ false
            → Answers replica.old replica.new self.now self.now history token.session
            (Replace token.item path.now since length) (reply_of result) }
        ensures grown { IsGrown replica.old replica.new }
        ensures lawful { IsLawfulReply (reply_of result) }
        ensures memory { reply_of result ≡ Refused why.Memory
            → first_cause (staging_causes (staging_of self.now) (token_of token) length) ≡ None }
        ensures failures { CountsFailures (reply_of result) (D.failures (disk_of replica.old))
            (D.failures (disk_of replica.new)) }
    {
        let bytes = match self.staged_for(token, length) {
            Ok(bytes) => bytes,
            Err(why) => return Reply::Refused(why),
        };
        match read_part(alloc, bytes) {
            Ok(Some(new)) => match replica.replace(alloc, token, path, since, new) {
                Ok(_) => Reply::Done,
                Err(error) => Reply::Refused(error.refusal()),
            },
            Ok(None) => Reply::Refused(Refusal::BadStage),
            Err(error) => Reply::Refused(error.refusal()),
        }
    }

    /// What is staged for the token, where it has so many bytes.
    fn staged_for(&self, token: Token, length: u32) -> Result<&[u8], Refusal>
        ensures found { IfOk result (λ bytes. bytes.now ≡ staged_bytes (staging_of self.now)) }
        ensures none { IfOk result (λ _.
            first_cause (staging_causes (staging_of self.now) (token_of token) length) ≡ None) }
        ensures refused { IfErr result (λ why.
            first_cause (staging_causes (staging_of self.now) (token_of token) length)
            ≡ Some (cause_of why)) }
    {
        let Some(staging) = self.staging() else {
            return Err(Refusal::NotStaged);
        };
        if token.is_below(&staging.token()) {
            return Err(Refusal::OldSession);
        }
        if !staging.token().is_same(&token) {
            return Err(Refusal::NotStaged);
        }
        let bytes = staging.bytes();
        if bytes.len() != length as usize {
            return Err(Refusal::BadStage);
        }
        Ok(bytes)
    }
}

/// The file, directory or nothing that the bytes spell; none where they spell none.
///
/// Refused 11 where memory is refused.
fn read_part(alloc: Global, bytes: &[u8]) -> Result<Option<Option<Node>>, WireError>
    ensures { IfOk result (λ read. Reads bytes.now (option_map part_of read)) }
{
    spelling_laws();
    let Some((part, rest)) = decode_node(alloc, Version::Two, bytes)? else {
        return Ok(None);
    };
    if !rest.is_empty() {
        return Ok(None);
    }
    Ok(Some(part))
}
