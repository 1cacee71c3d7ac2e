//! The disk as the layers above see it.
ghost use Rattle.std.specs.Prelude.{◌≡◌, ◌≤◌, ◌+◌, ℕ, false, List, length, take, drop, OnOk, OnErr};
ghost use Rattle.syn_disk.specs.Arms.{Arms, after_call, is_refused, is_stopped};
ghost use Rattle.syn_disk.specs.Disk.{overwritten, Torn, Follows, NothingNew, Only, Elapses};
ghost use Rattle.syn_disk.specs.Disk.{CountsFailure};

/// The number of bytes of a disk.
pub const DISK_SIZE: usize = 8_388_608;

/// The number of bytes of each of the two parts in which memory for a disk is taken.
pub const PART_SIZE: usize = 4_194_304;

/// A device call failed, which the layers above answer as refusal 9.
#[derive(Clone, Copy, Debug, PartialEq, Eq)]
pub struct DeviceFailed;

/// A disk of `DISK_SIZE` bytes. The caller keeps ranges inside it.
pub trait Disk {
    ghost use Rattle.syn_disk.specs.declared.disk.TheConstants.{DISK_SIZE};

    /// The bytes that a read gives.
    ghost seen: { Self → List ℕ };

    /// The contents that a stop at this moment may leave.
    ghost may_leave: { Self → List ℕ → Type 0 };

    /// The moment, as a number that does not fall.
    ghost moment: { Self → ℕ };

    /// The contents that a stop at some moment from that one on might have left, during a call or
    /// between two.
    ghost left_since: { Self → ℕ → List ℕ → Type 0 };

    /// How many calls have failed.
    ghost failures: { Self → ℕ };

    /// Which calls it was told to refuse. A disk that cannot be told has no arms.
    ghost arms: { Self → Arms };

    /// Fills `into` with the bytes from `at` on.
    fn read(&mut self, at: usize, into: &mut [u8]) -> Result<(), DeviceFailed>
        requires { at + length into.old ≤ DISK_SIZE }
        ensures bytes { OnOk result (into.new ≡ take (length into.old) (drop at (seen self.old))) }
        ensures seen { seen self.new ≡ seen self.old }
        ensures stop { NothingNew (may_leave self.old) (may_leave self.new) }
        ensures time { Elapses (moment self.old) (moment self.new)
            (left_since self.old) (left_since self.new) (may_leave self.new) }
        ensures count { CountsFailure result (failures self.old) (failures self.new) }
        ensures arms { arms self.new ≡ after_call (arms self.old) }
        ensures allowed { OnOk result (is_refused (arms self.old) ≡ false) };

    /// Until the next sync that succeeds a stop may leave any bytes in the range, also where the
    /// write failed.
    fn write(&mut self, at: usize, bytes: &[u8]) -> Result<(), DeviceFailed>
        requires { at + length bytes.now ≤ DISK_SIZE }
        ensures written { OnOk result (seen self.new ≡ overwritten (seen self.old) at bytes.now) }
        ensures torn { OnErr result (Torn at (length bytes.now) (seen self.old) (seen self.new)) }
        ensures stop { Follows (Torn at (length bytes.now)) (may_leave self.old)
            (may_leave self.new) }
        ensures time { Elapses (moment self.old) (moment self.new)
            (left_since self.old) (left_since self.new) (may_leave self.new) }
        ensures count { CountsFailure result (failures self.old) (failures self.new) }
        ensures arms { arms self.new ≡ after_call (arms self.old) }
        ensures allowed { OnOk result (is_refused (arms self.old) ≡ false) };

    /// After it a stop leaves what a read gives.
    fn sync(&mut self) -> Result<(), DeviceFailed>
        ensures durable { OnOk result (Only (seen self.old) (may_leave self.new)) }
        ensures seen { seen self.new ≡ seen self.old }
        ensures stop { NothingNew (may_leave self.old) (may_leave self.new) }
        ensures time { Elapses (moment self.old) (moment self.new)
            (left_since self.old) (left_since self.new) (may_leave self.new) }
        ensures count { CountsFailure result (failures self.old) (failures self.new) }
        ensures arms { arms self.new ≡ after_call (arms self.old) }
        ensures allowed { OnOk result (is_refused (arms self.old) ≡ false) };

    /// Whether the disk's machine has stopped, so that no call is made any more. A disk in a file
    /// never says so: its program is gone with its machine.
    fn is_cut(&self) -> bool
        ensures { result ≡ is_stopped (arms self.now) };

    /// This moment is one of those since an earlier one.
    ghost counts_now: { (disk : Self) (t : ℕ) (c : List ℕ) → t ≤ moment disk → may_leave disk c
        → left_since disk t c };

    /// Since this moment there is no other.
    ghost only_now: { (disk : Self) (c : List ℕ) → left_since disk (moment disk) c
        → may_leave disk c };

    /// A stop may leave what a read gives.
    ghost seen_may_stay: { (disk : Self) → may_leave disk (seen disk) };

    /// A stop leaves a whole disk.
    ghost whole: { (disk : Self) (t : ℕ) (c : List ℕ) → left_since disk t c
        → length c ≡ DISK_SIZE };
}
