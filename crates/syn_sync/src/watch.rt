//! Who is told how a session goes.

use std::io::{self, Write};
use syn_image::Kept;
use syn_message::ReplyMessage;
use syn_path::Side;
use syn_session::{Report, SettledItems};

/// Is told what happens in a session, as it happens. It sees the session, and changes nothing of
/// it, but it may have it given up. No clause says what it is told.
pub trait SessionWatch {
    /// The side cannot be reached, for this reason of the system. No session runs then.
    fn unreached(&mut self, side: Side, why: &io::Error);

    /// The side replied. Whether the session may go on: the coordinator takes the reply after this
    /// call, or the session is given up and nothing is sent any more.
    fn heard(&mut self, from: Side, answered: &ReplyMessage) -> bool;

    /// The coordinator took the reply. This is what became of the items of its plan so far, and
    /// what it has just written into its archive for them, in the order of the plan.
    ///
    /// At most one of them was carried since the reply before, and then the first record is of that
    /// one: to carry another, a side has to be asked and to answer.
    fn settled(&mut self, settled: &SettledItems<'_>, kept: &[Kept]);

    /// The session ended with this report. A `Driver` leaves this call to whoever has it run the
    /// session.
    fn ended(&mut self, report: &Report);
}

/// Tells in a line that the server of a side cannot be reached. What cannot be written is left out.
pub fn tell_unreached<W: Write>(writer: &mut W, side: Side, why: &io::Error) {
    let name = match side {
        Side::Left => "left",
        Side::Right => "right",
    };
    let _ = writeln!(writer, "syn: the {name} server cannot be reached: {why}");
}

/// Looks at nothing.
#[derive(Clone, Copy, Debug)]
pub struct Unwatched;

impl SessionWatch for Unwatched {
    fn unreached(&mut self, _side: Side, _why: &io::Error) {}

    fn heard(&mut self, _from: Side, _answered: &ReplyMessage) -> bool {
        true
    }

    fn settled(&mut self, _settled: &SettledItems<'_>, _kept: &[Kept]) {}

    fn ended(&mut self, _report: &Report) {}
}
