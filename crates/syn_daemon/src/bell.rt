//! What wakes the checkpointer.
use std::sync::{Condvar, Mutex, Wait};
use std::time::{Clock, Duration};

/// A moment is quiet where no answer was given for so long.
const QUIET_SECONDS: u64 = 3;

/// What the checkpointer was told and did not take up yet.
#[derive(Clone, Copy)]
struct Call {
    /// There was an answer.
    rung: bool,
    /// A quiet moment was taken up, and there was no answer since.
    was_quiet: bool,
    /// No more answers come.
    over: bool,
}

impl Call {
    /// There is nothing to take up.
    fn is_still(&self) -> bool {
        !self.rung && !self.over
    }
}

/// What the checkpointer is woken for.
#[derive(Clone, Copy, Debug, PartialEq, Eq)]
pub(crate) enum Wake {
    /// There was an answer.
    Answered,
    /// There was none for some seconds. It comes once after each answer at most.
    Quiet,
    /// No more answers come, and none is left to take up.
    Over,
}

/// A bell that workers ring and the checkpointer waits for. Rings that come while it is at work
/// are one ring.
#[derive(Drop)]
pub(crate) struct Bell {
    call: Mutex<Call>,
    changed: Condvar,
}

impl Bell {
    /// A bell that was rung once: the journal may be full, or the replica halted, as the server
    /// begins.
    pub(crate) fn new() -> Bell {
        Bell {
            call: Mutex::new(Call {
                rung: true,
                was_quiet: false,
                over: false,
            }),
            changed: Condvar::new(),
        }
    }

    /// Wakes the checkpointer for a step.
    pub(crate) fn ring<H: Wait>(&self, rt: &H) {
        let mut call = self.call.lock(rt);
        call.rung = true;
        self.changed.notify_all();
    }

    /// Tells the checkpointer that no ring comes any more.
    pub(crate) fn end<H: Wait>(&self, rt: &H) {
        let mut call = self.call.lock(rt);
        call.over = true;
        self.changed.notify_all();
    }

    /// Waits for a ring, or for a quiet moment after the last one. A ring is taken up before the
    /// step that it is for, so one that comes during the step is kept.
    pub(crate) fn wait<H: Wait + Clock>(&self, rt: &H) -> Wake {
        let call = self.call.lock(rt);
        let mut call = if call.was_quiet {
            self.changed.wait_while(rt, call, |call| call.is_still())
        } else {
            let most = Duration::from_secs(QUIET_SECONDS);
            self.changed
                .wait_timeout_while(rt, call, most, |call| call.is_still())
                .0
        };
        let taken = *call;
        call.rung = false;
        call.was_quiet = !taken.rung;
        match (taken.rung, taken.over) {
            (true, _) => Wake::Answered,
            (false, false) => Wake::Quiet,
            (false, true) => Wake::Over,
        }
    }
}
