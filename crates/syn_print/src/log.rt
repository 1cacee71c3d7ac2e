//! The last events of a replica, by what is known of each.

use syn_history::Event;
use syn_path::Path;

mod lines;
mod reading;

pub use lines::show_log;
pub use reading::read_log;

/// What is known of an event.
#[derive(Debug, Drop)]
pub enum What {
    /// It changed this path.
    Touched(Path),
    /// All of it.
    Whole(Event),
}

/// An event, and the position that the replica had with it: an edit was answered with that.
#[derive(Debug, Drop)]
pub struct Logged {
    pub position: u64,
    pub what: What,
}
