//! What a coordinator sends.

use std::rc::Rc;
use syn_message::RequestMessage;
use syn_path::Side;

/// A request that is to be sent to a side. The session has the same message until its answer comes.
#[derive(Debug, Drop)]
pub struct Sending {
    pub to: Side,
    pub message: Rc<RequestMessage>,
}
