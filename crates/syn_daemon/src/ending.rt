//! The end of a server, for which a thread of it waits.
use std::sync::{Condvar, Mutex, Wait};
use std::time::{Clock, Duration};

/// Whether a server has ended.
#[derive(Drop)]
pub(crate) struct Ending {
    over: Mutex<bool>,
    changed: Condvar,
}

impl Ending {
    /// That of a server that serves.
    pub(crate) fn new() -> Ending {
        Ending {
            over: Mutex::new(false),
            changed: Condvar::new(),
        }
    }

    /// Tells that the server has ended.
    pub(crate) fn tell<H: Wait>(&self, rt: &H) {
        let mut over = self.over.lock(rt);
        *over = true;
        self.changed.notify_all();
    }

    /// The server has ended.
    pub(crate) fn is_over<H: Wait>(&self, rt: &H) -> bool {
        let over = self.over.lock(rt);
        *over
    }

    /// Waits until the server ends, and no longer than so many seconds.
    pub(crate) fn wait<H: Wait + Clock>(&self, rt: &H, seconds: u64) {
        let over = self.over.lock(rt);
        let most = Duration::from_secs(seconds);
        let _ = self
            .changed
            .wait_timeout_while(rt, over, most, |over| !*over);
    }
}
