//! What comes next in a transfer.

use syn_message::Request;
use syn_path::Side;
use syn_refusal::Refusal;

/// What a side is to be asked.
#[derive(Debug, Drop)]
pub struct SideRequest {
    pub to: Side,
    pub request: Request,
}

/// What a transfer wants next.
#[derive(Debug, Drop)]
pub enum Next {
    /// This is to be asked.
    Ask(SideRequest),
    /// What was fetched is in its place on the other side.
    Done,
    /// A side refused what it was asked.
    Refused(Refusal),
}
