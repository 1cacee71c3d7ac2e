//! What a chart says of messages.

use std::alloc::{AllocError, Global};
use syn_message::{Reply, ReplyMessage, Request};
use syn_path::Side;
use syn_world::{Machine, Message};

/// The machine that sent the message, and the one that it goes to.
pub(crate) fn ends_of(message: &Message) -> (Machine, Machine) {
    match message {
        Message::Asks(sending) => (Machine::Coordinator, Machine::Side(sending.to)),
        Message::Answers(side, _) => (Machine::Side(*side), Machine::Coordinator),
    }
}

/// Whether the message goes from the left to the right of the chart.
fn goes_right(message: &Message) -> bool {
    match message {
        Message::Asks(sending) => sending.to == Side::Right,
        Message::Answers(side, _) => *side == Side::Left,
    }
}

/// The message as it is sent: an arrow leads away from it.
pub(crate) fn sent_text(
    alloc: Global,
    number: usize,
    message: &Message,
) -> Result<String, AllocError> {
    let said = said(alloc, message)?;
    if goes_right(message) {
        return format!(in alloc; "{number} {said} -->");
    }
    format!(in alloc; "<-- {number} {said}")
}

/// The message as it comes: an arrow leads to it. The ending says what became of it.
pub(crate) fn came_text(
    alloc: Global,
    number: usize,
    message: &Message,
    ending: &str,
) -> Result<String, AllocError> {
    let said = said(alloc, message)?;
    if goes_right(message) {
        return format!(in alloc; "--> {number} {said}{ending}");
    }
    format!(in alloc; "{number} {said}{ending} <--")
}

/// What the message says.
fn said(alloc: Global, message: &Message) -> Result<String, AllocError> {
    match message {
        Message::Asks(sending) => asked(alloc, sending.message.session, &sending.message.request),
        Message::Answers(_, answered) => replied(alloc, answered),
    }
}

fn asked(alloc: Global, session: u64, request: &Request) -> Result<String, AllocError> {
    match request {
        Request::Begin { .. } => format!(in alloc; "begin {session}"),
        Request::List { path } => format!(in alloc; "list {path}"),
        Request::Fetch { path, offset, .. } => format!(in alloc; "fetch {path} from {offset}"),
        Request::Stage {
            item,
            offset,
            piece,
        } => format!(in alloc; "stage {item} at {offset}: {}", piece.as_slice().len()),
        Request::Replace { item, path, .. } => format!(in alloc; "replace {item} {path}"),
    }
}

fn replied(alloc: Global, answered: &ReplyMessage) -> Result<String, AllocError> {
    match &answered.reply {
        Reply::Begun { position } => {
            format!(in alloc; "begun {} at {position}", answered.session)
        }
        Reply::Listed { position, entries } => {
            format!(in alloc; "listed {} at {position}", entries.len())
        }
        Reply::NotDir { position } => format!(in alloc; "no directory at {position}"),
        Reply::Piece { total, bytes } => format!(in alloc; "piece {} of {total}", bytes.len()),
        Reply::Staged => format!(in alloc; "staged"),
        Reply::Done => format!(in alloc; "done"),
        Reply::Refused(why) => format!(in alloc; "refused {}", why.number()),
    }
}

/// Whether a newer message says that nobody waits for this one: the side was asked in a later
/// session, or for something else since.
pub(crate) fn is_late(sent: &[Message], message: &Message) -> bool {
    match message {
        Message::Asks(sending) => match newest(sent, sending.to) {
            Some((session, _)) => sending.message.session < session,
            None => false,
        },
        Message::Answers(side, answered) => {
            newest(sent, *side) != Some((answered.session, answered.number))
        }
    }
}

/// The session and the number of what the side was asked last.
fn newest(sent: &[Message], side: Side) -> Option<(u64, u32)> {
    for message in sent.iter().rev() {
        if let Message::Asks(sending) = message {
            if sending.to == side {
                return Some((sending.message.session, sending.message.number));
            }
        }
    }
    None
}
