//! A side's agent.
ghost use Rattle.std.specs.Prelude.{◌≡◌, None, option_map};
ghost use Rattle.syn_history.specs.Events.{token_of};

use crate::staging::{MOST_STAGED, Staging};
use syn_history::Token;
use syn_message::Reply;
use syn_refusal::Refusal;

/// What takes a session's requests on one connection to a side. It keeps what is staged for one
/// item, which is lost with it.
#[derive(Debug, Drop)]
pub struct Agent {
    staging: Option<Staging>,
}

impl Agent {
    ghost use Rattle.syn_agent.specs.Agents.{StagesAs, StagesFirst, staging_of};
    ghost use Rattle.syn_agent.specs.Stagings.{staged_of};

    /// Nothing is staged.
    pub fn new() -> Agent
        ensures { staging_of result ≡ None }
    {
        Agent { staging: None }
    }

    /// What is staged, if anything is.
    pub fn staging(&self) -> Option<&Staging>
        ensures { option_map (λ staging. staged_of staging.now) result ≡ staging_of self.now }
    {
        self.staging.as_ref()
    }

    /// Stages a piece for an item. The first piece of a token takes the place of what is staged;
    /// each further one goes after the last; one that came before is answered again.
    ///
    /// Refused 14 where the token is below that of what is staged, 16 where a first piece is not
    /// from the beginning, 17 where a further piece neither came before nor goes after the last,
    /// and where any piece would pass 526,336 bytes, and 11 where memory is refused. Then what is
    /// staged stays.
    pub fn stage(&mut self, token: Token, offset: u32, bytes: Vec<u8>) -> Reply
        ensures { StagesAs self.old self.new result (token_of token) offset bytes.items }
    {
        match &mut self.staging {
            Some(staging) if token.is_below(&staging.token()) => {
                Reply::Refused(Refusal::OldSession)
            }
            Some(staging) if token.is_same(&staging.token()) => staging.add(offset, &bytes),
            Some(_) => self.stage_first(token, offset, bytes),
            None => self.stage_first(token, offset, bytes),
        }
    }

    /// Stages the first piece of a token.
    fn stage_first(&mut self, token: Token, offset: u32, bytes: Vec<u8>) -> Reply
        ensures { StagesFirst self.old self.new result (token_of token) offset bytes.items }
    {
        if offset != 0 {
            return Reply::Refused(Refusal::NotStaged);
        }
        if bytes.len() > MOST_STAGED {
            return Reply::Refused(Refusal::BadStage);
        }
        self.staging = Some(Staging::new(token, bytes));
        Reply::Staged
    }
}
