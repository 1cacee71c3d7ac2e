//! What a world has heard so far.
ghost use Rattle.std.specs.Prelude.{◌≡◌, ◌++◌, map, option_map, true};
ghost use Rattle.syn_world.specs.Outcomes.{causes_in};
ghost use Rattle.syn_refusal.specs.Refusals.{cause_of};
ghost use Rattle.syn_coordinator.specs.Coordinators.{in_report};
ghost use Rattle.syn_session.specs.Reports.{report_model};
ghost use Rattle.syn_session.specs.Sendings.{messages_of};
ghost use Rattle.syn_world.specs.Worlds.{message_of, report_in, told_in, told_kept};

use crate::{CoordinatorOutcome, SideOutcome};
use syn_image::Kept;
use syn_message::{Reply, ReplyMessage};
use syn_path::Side;
use syn_refusal::Refusal;
use syn_session::{Report, Sending};

/// A message that was sent.
#[derive(Debug, Drop)]
pub enum Message {
    /// A request to a side.
    Asks(Sending),
    /// The side's reply, with the session and number of the request.
    Answers(Side, ReplyMessage),
}

/// What was acknowledged, or recovered by an opening.
#[derive(Debug, Drop)]
pub enum Ack {
    /// An event of the side, as it is spelled.
    Event(Side, Vec<u8>),
    /// What the archive kept.
    Kept(Kept),
}

/// What a world has heard so far, each list in order of time.
#[derive(Debug, Drop)]
pub struct Lists {
    pub(crate) sent: Vec<Message>,
    pub(crate) acknowledged: Vec<Ack>,
    /// What a user's edit, a start, a checkpoint or an opening was refused with.
    pub(crate) refusals: Vec<Refusal>,
    /// Each report stands with the number of acknowledgements up to it.
    pub(crate) reports: Vec<(Report, usize)>,
}

impl Lists {
    ghost use Rattle.syn_world.specs.Worlds.{Hears, Notes, Takes};

    /// Keeps what came of a side's step. Whether memory was there for it.
    pub(crate) fn note(&mut self, side: Side, outcome: SideOutcome) -> bool
        ensures { result ≡ true → Notes self.old self.new side outcome }
    {
        match outcome {
            SideOutcome::Nothing => true,
            SideOutcome::Acknowledged(spelled) => {
                self.acknowledged.push(Ack::Event(side, spelled)).is_ok()
            }
            SideOutcome::Refused(why) => self.refusals.push(why).is_ok(),
        }
    }

    /// Keeps what a side said to the request with that number, if it said anything. Whether memory
    /// was there for it.
    pub(crate) fn hear(
        &mut self,
        side: Side,
        session: u64,
        number: u32,
        reply: Option<Reply>,
    ) -> bool
        ensures { result ≡ true → Hears self.old self.new side session number reply }
    {
        match reply {
            None => true,
            Some(reply) => {
                let answered = ReplyMessage {
                    session,
                    number,
                    reply,
                };
                self.sent.push(Message::Answers(side, answered)).is_ok()
            }
        }
    }

    /// Keeps what came of a step of the coordinator. A report stands with the number of
    /// acknowledgements after that step. Whether memory was there for it.
    pub(crate) fn take(&mut self, outcome: CoordinatorOutcome) -> bool
        ensures { result ≡ true → Takes self.old self.new outcome }
    {
        let CoordinatorOutcome {
            kept,
            sent,
            ended,
            refused,
        } = outcome;
        add_kept(&mut self.acknowledged, kept)
            && add_sent(&mut self.sent, sent)
            && add_report(&mut self.reports, ended, self.acknowledged.len())
            && add_refusal(&mut self.refusals, refused)
    }
}

/// Adds what an archive kept. Whether memory was there for it.
fn add_kept(acknowledged: &mut Vec<Ack>, kept: Vec<Kept>) -> bool
    ensures { result ≡ true → map told_in acknowledged.new.items
        ≡ map told_in acknowledged.old.items ++ map told_kept kept.items }
{
    for one in kept {
        if acknowledged.push(Ack::Kept(one)).is_err() {
            return false;
        }
    }
    true
}

/// Adds requests. Whether memory was there for them.
fn add_sent(sent: &mut Vec<Message>, sends: Vec<Sending>) -> bool
    ensures { result ≡ true → map message_of sent.new.items
        ≡ map message_of sent.old.items ++ messages_of sends.items }
{
    for sending in sends {
        if sent.push(Message::Asks(sending)).is_err() {
            return false;
        }
    }
    true
}

/// Adds a report, if there is one, with so many acknowledgements. Whether memory was there for it.
fn add_report(reports: &mut Vec<(Report, usize)>, ended: Option<Report>, count: usize) -> bool
    ensures { result ≡ true → map report_in reports.new.items ≡ map report_in reports.old.items
        ++ map (λ report. (report, count)) (in_report (option_map report_model ended)) }
{
    match ended {
        Some(report) => reports.push((report, count)).is_ok(),
        None => true,
    }
}

/// Adds a refusal, if there is one. Whether memory was there for it.
fn add_refusal(refusals: &mut Vec<Refusal>, refused: Option<Refusal>) -> bool
    ensures { result ≡ true → map cause_of refusals.new.items
        ≡ map cause_of refusals.old.items ++ causes_in refused }
{
    match refused {
        Some(why) => refusals.push(why).is_ok(),
        None => true,
    }
}
