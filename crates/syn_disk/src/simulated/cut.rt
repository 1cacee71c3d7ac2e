//! A disk over another, which refuses calls when it is told to.
ghost use Rattle.std.specs.Prelude.{◌≡◌, ◌+◌, ◌-◌, ◌<◌, ◌≤◌, ◌==◌, true, false, IsErr, IsOk, OnOk};
ghost use Rattle.std.specs.Prelude.{OnErr, MatchResult, Option, Some, None, length, take, drop};
ghost use Rattle.syn_disk.specs.Armed.{armed};
ghost use Rattle.syn_disk.specs.Arms.{after_call, is_refused, is_stopped, no_arms};
ghost use Rattle.syn_disk.specs.Disk.{overwritten, Torn, Follows, NothingNew, Only, Elapses};
ghost use Rattle.syn_disk.specs.Disk.{CountsFailure};

use super::limit::{Arm, Limit};
use super::restart::Restart;
use crate::history::Tally;
use crate::{DeviceFailed, Disk};

/// Passes all calls on until it is armed. A call that it refuses is not made, and counts as a call
/// and as a failure.
#[derive(Drop)]
pub struct Cut<D: Disk> {
    inner: D,
    calls_to_failure: u64,
    calls_to_stop: Option<u64>,
    refused: Tally,
}

impl<D: Disk> Cut<D> {
    ghost use Rattle.syn_disk.specs.Cut.{disk_of, arms_of, refused_of};

    /// Nothing is armed yet.
    pub fn new(inner: D) -> Cut<D>
        ensures disk { disk_of result ≡ inner }
        ensures arms { arms_of result ≡ no_arms }
        ensures refused { refused_of result ≡ 0 }
    {
        Cut {
            inner,
            calls_to_failure: 0,
            calls_to_stop: None,
            refused: Tally::new(),
        }
    }

    /// The disk below, which nothing refuses.
    pub fn into_inner(self) -> D
        ensures { result ≡ disk_of self }
    {
        self.inner
    }

    // Counts a call, and refuses it where it is to.
    fn admit(&mut self) -> Result<(), DeviceFailed>
        ensures disk { disk_of self.new ≡ disk_of self.old }
        ensures count { MatchResult result
            (λ _. refused_of self.new ≡ refused_of self.old)
            (λ _. refused_of self.new ≡ refused_of self.old + 1) }
        ensures refused { is_refused (arms_of self.old) ≡ true → IsErr result }
        ensures passed { is_refused (arms_of self.old) ≡ false → IsOk result }
        ensures allowed { OnOk result (is_refused (arms_of self.old) ≡ false) }
        ensures arms { arms_of self.new ≡ after_call (arms_of self.old) }
    {
        if self.calls_to_stop == Some(0) {
            self.refused.add_one();
            return Err(DeviceFailed);
        }
        self.calls_to_stop = self.calls_to_stop.map(|calls| calls.saturating_sub(1));
        let is_due = self.calls_to_failure == 1;
        self.calls_to_failure = self.calls_to_failure.saturating_sub(1);
        if is_due {
            self.refused.add_one();
            return Err(DeviceFailed);
        }
        Ok(())
    }
}

impl<D: Disk> Disk for Cut<D> {
    ghost use Rattle.syn_disk.specs.Cut.{disk_of, arms_of, refused_of, failures_of};
    ghost use Rattle.syn_disk.specs.declared.disk.TheConstants.{DISK_SIZE};

    ghost seen = { λ c. D.Disk.seen c.inner };

    ghost may_leave = { λ c. D.Disk.may_leave c.inner };

    ghost moment = { λ c. D.Disk.moment c.inner };

    ghost left_since = { λ c. D.Disk.left_since c.inner };

    ghost failures = { λ c. D.Disk.failures c.inner + c.refused };

    ghost arms = { λ c. record { failure = c.calls_to_failure; stop = c.calls_to_stop } };

    ghost counts_now = { λ c. D.Disk.counts_now c.inner };

    ghost only_now = { λ c. D.Disk.only_now c.inner };

    ghost seen_may_stay = { λ c. D.Disk.seen_may_stay c.inner };

    ghost whole = { λ c. D.Disk.whole c.inner };

    fn read(&mut self, at: usize, into: &mut [u8]) -> Result<(), DeviceFailed>
        requires { at + length into.old ≤ DISK_SIZE }
        ensures bytes { OnOk result
            (into.new ≡ take (length into.old) (drop at (D.Disk.seen (disk_of self.old)))) }
        ensures seen { D.Disk.seen (disk_of self.new) ≡ D.Disk.seen (disk_of self.old) }
        ensures stop { NothingNew (D.Disk.may_leave (disk_of self.old))
            (D.Disk.may_leave (disk_of self.new)) }
        ensures time { let old = disk_of self.old in let new = disk_of self.new in
            Elapses (D.Disk.moment old) (D.Disk.moment new) (D.Disk.left_since old)
            (D.Disk.left_since new) (D.Disk.may_leave new) }
        ensures count { CountsFailure result (failures_of D.Disk.failures self.old)
            (failures_of D.Disk.failures self.new) }

        // The disk below is called exactly where the arms let it.
        ensures refused { is_refused (arms_of self.old) ≡ true
            → IsErr result × (disk_of self.new ≡ disk_of self.old)
            × (refused_of self.new ≡ refused_of self.old + 1) }
        ensures passed { is_refused (arms_of self.old) ≡ false
            → CountsFailure result (D.Disk.failures (disk_of self.old))
            (D.Disk.failures (disk_of self.new)) }
        ensures arms { arms_of self.new ≡ after_call (arms_of self.old) }
        ensures allowed { OnOk result (is_refused (arms_of self.old) ≡ false) }
    {
        self.admit()?;
        self.inner.read(at, into)
    }

    fn write(&mut self, at: usize, bytes: &[u8]) -> Result<(), DeviceFailed>
        requires { at + length bytes.now ≤ DISK_SIZE }
        ensures written { OnOk result
            (D.Disk.seen (disk_of self.new)
            ≡ overwritten (D.Disk.seen (disk_of self.old)) at bytes.now) }
        ensures torn { OnErr result
            (Torn at (length bytes.now) (D.Disk.seen (disk_of self.old))
            (D.Disk.seen (disk_of self.new))) }
        ensures stop { Follows (Torn at (length bytes.now))
            (D.Disk.may_leave (disk_of self.old)) (D.Disk.may_leave (disk_of self.new)) }
        ensures time { let old = disk_of self.old in let new = disk_of self.new in
            Elapses (D.Disk.moment old) (D.Disk.moment new) (D.Disk.left_since old)
            (D.Disk.left_since new) (D.Disk.may_leave new) }
        ensures count { CountsFailure result (failures_of D.Disk.failures self.old)
            (failures_of D.Disk.failures self.new) }

        // The disk below is called exactly where the arms let it.
        ensures refused { is_refused (arms_of self.old) ≡ true
            → IsErr result × (disk_of self.new ≡ disk_of self.old)
            × (refused_of self.new ≡ refused_of self.old + 1) }
        ensures passed { is_refused (arms_of self.old) ≡ false
            → CountsFailure result (D.Disk.failures (disk_of self.old))
            (D.Disk.failures (disk_of self.new)) }
        ensures arms { arms_of self.new ≡ after_call (arms_of self.old) }
        ensures allowed { OnOk result (is_refused (arms_of self.old) ≡ false) }
    {
        self.admit()?;
        self.inner.write(at, bytes)
    }

    fn sync(&mut self) -> Result<(), DeviceFailed>
        ensures durable { OnOk result
            (Only (D.Disk.seen (disk_of self.old)) (D.Disk.may_leave (disk_of self.new))) }
        ensures seen { D.Disk.seen (disk_of self.new) ≡ D.Disk.seen (disk_of self.old) }
        ensures stop { NothingNew (D.Disk.may_leave (disk_of self.old))
            (D.Disk.may_leave (disk_of self.new)) }
        ensures time { let old = disk_of self.old in let new = disk_of self.new in
            Elapses (D.Disk.moment old) (D.Disk.moment new) (D.Disk.left_since old)
            (D.Disk.left_since new) (D.Disk.may_leave new) }
        ensures count { CountsFailure result (failures_of D.Disk.failures self.old)
            (failures_of D.Disk.failures self.new) }

        // The disk below is called exactly where the arms let it.
        ensures refused { is_refused (arms_of self.old) ≡ true
            → IsErr result × (disk_of self.new ≡ disk_of self.old)
            × (refused_of self.new ≡ refused_of self.old + 1) }
        ensures passed { is_refused (arms_of self.old) ≡ false
            → CountsFailure result (D.Disk.failures (disk_of self.old))
            (D.Disk.failures (disk_of self.new)) }
        ensures arms { arms_of self.new ≡ after_call (arms_of self.old) }
        ensures allowed { OnOk result (is_refused (arms_of self.old) ≡ false) }
    {
        self.admit()?;
        self.inner.sync()
    }

    fn is_cut(&self) -> bool
        ensures { result ≡ is_stopped (arms_of self.now) }
    {
        self.calls_to_stop == Some(0)
    }
}

impl<D: Disk> Limit for Cut<D> {
    ghost use Rattle.syn_disk.specs.Cut.{disk_of, arms_of, refused_of};

    fn arm(&mut self, arm: Arm)
        ensures arms { arms_of self.new ≡ armed (arms_of self.old) arm }
        ensures disk { disk_of self.new ≡ disk_of self.old }
        ensures refused { refused_of self.new ≡ refused_of self.old }
    {
        match arm {
            Arm::Fail(call) => self.calls_to_failure = call,
            Arm::Stop(calls) => {
                if self.calls_to_stop != Some(0) {
                    self.calls_to_stop = Some(calls);
                }
            }
        }
    }
}

impl<D: Restart> Restart for Cut<D> {
    ghost use Rattle.syn_disk.specs.Cut.{disk_of, arms_of, failures_of};

    /// What was armed is forgotten.
    fn restart(self) -> Self
        ensures left { D.Disk.may_leave (disk_of self) (D.Disk.seen (disk_of result)) }
        ensures durable { Only (D.Disk.seen (disk_of result)) (D.Disk.may_leave (disk_of result)) }
        ensures time { let old = disk_of self in let new = disk_of result in
            Elapses (D.Disk.moment old) (D.Disk.moment new) (D.Disk.left_since old)
            (D.Disk.left_since new) (D.Disk.may_leave new) }
        ensures count { failures_of D.Disk.failures result ≡ failures_of D.Disk.failures self }
        ensures arms { arms_of result ≡ no_arms }
    {
        Cut {
            inner: self.inner.restart(),
            calls_to_failure: 0,
            calls_to_stop: None,
            refused: self.refused,
        }
    }
}
