//! The coordinator's archive as a whole: a checkpoint, another opening, and the arms of its device.
ghost use Rattle.std.specs.Prelude.{◌≡◌, ◌≢◌, ◌<◌, [], ℕ, false, Err, IfErr, OnOk, IfOk};
ghost use Rattle.std.specs.Prelude.{MatchResult, None, Option, Some, option_map};
ghost use Rattle.syn_archive.specs.Refusals.{refusal_of};
ghost use Rattle.syn_coordinator.specs.Coordinators.{with_arms};
ghost use Rattle.syn_disk.specs.Armed.{armed};
ghost use Rattle.syn_disk.specs.Arms.{is_stopped};
ghost use Rattle.syn_disk.specs.Disk.{SameOutcomes};
ghost use Rattle.syn_machine.specs.Coordinator.{CoordinatorMachine, coordinator_kind};
ghost use Rattle.syn_machine.specs.MachineSteps.{Checkpoints, Reopens};
ghost use Rattle.syn_journal.specs.Endings.{CountsFailures, ended};
ghost use Rattle.syn_model.specs.Refusal.{first_cause};
ghost use Rattle.syn_journal.specs.Calls.{armed_at};

use super::Coordinator;
use std::alloc::Global;
use syn_archive::ArchiveError;
use syn_disk::{Arm, Disk, Limit};
use syn_image::Kept;
use syn_model::{archive_laws, is_long};

impl<D: Disk> Coordinator<D> {
    ghost use Rattle.syn_coordinator.specs.Coordinators.{Does, KeepsReadings, Stands, device_of};
    ghost use Rattle.syn_coordinator.specs.Coordinators.{HaltsByFailure, checkpoint_causes};
    ghost use Rattle.syn_coordinator.specs.Coordinators.{checkpoint_refusals};

    /// Writes the archive as one image, so that its journal has room again. A session that runs
    /// goes on.
    ///
    /// Refused 10 while the archive is halted, 7 where its generation is the greatest that can be
    /// written, 11 where memory is refused, and 9 where a device call fails. After 9 the archive is
    /// halted; it shows the same in each case.
    pub fn checkpoint(&mut self, alloc: Global) -> Result<(), ArchiveError>
        // It is a checkpoint of the machine, also where its device fails or is stopped.
        ensures step { (pair : ℕ) (machine : CoordinatorMachine) → Stands self.old pair machine
            → MatchResult result
            (λ _. Does self.old self.new pair (Checkpoints (coordinator_kind pair) machine) [] [])
            (λ e. e ≡ ArchiveError.Device
            → Does self.old self.new pair (Checkpoints (coordinator_kind pair) machine) [] []) }

        // Any other refusal is the first cause that stands, and changes nothing.
        ensures refused { (pair : ℕ) (machine : CoordinatorMachine) → Stands self.old pair machine
            → IfErr result (λ e. e ≢ ArchiveError.Device
            → (first_cause (checkpoint_causes machine) ≡ Some (refusal_of e))
            × Stands self.new pair machine) }

        // It is made, or its device fails, only where no cause stands.
        ensures allowed { (pair : ℕ) (machine : CoordinatorMachine) → Stands self.old pair machine
            → MatchResult result (λ _. first_cause (checkpoint_refusals machine) ≡ None)
            (λ e. e ≡ ArchiveError.Device → first_cause (checkpoint_refusals machine) ≡ None) }
        ensures same { KeepsReadings self.old self.new }
        ensures failures { CountsFailures (ended refusal_of result)
            (D.failures (device_of self.old)) (D.failures (device_of self.new)) }
        ensures halts { HaltsByFailure self.old self.new }
    {
        archive_laws();
        let generation = self.plan_runner.archive.generation();
        is_long(generation);
        match self.plan_runner.archive.checkpoint(alloc) {
            Ok(()) => Ok(()),
            Err(error) => Err(error),
        }
    }
}

impl<D: Disk> Coordinator<D> {
    ghost use Rattle.syn_coordinator.specs.Coordinators.{Does, KeepsReadings, ReopensNot, Stands};
    ghost use Rattle.syn_coordinator.specs.Coordinators.{device_of, in_doubt};
    ghost use Rattle.syn_coordinator.specs.Coordinators.{report_shown, runs, tried_shown, written};
    ghost use Rattle.syn_coordinator.specs.Tries.{listed};
    ghost use Rattle.syn_image.specs.Archives.{kept_of};

    /// Opens the archive's own disk again. A session that runs goes on; an archive that was halted
    /// runs again. It answers the record that was being written as the device failed, if the disk
    /// has it.
    ///
    /// Refused 9 where a device call fails, and 11 where memory is refused. After 9 the archive is
    /// halted; after 11 it is as it was. Nothing is written. What was tried is forgotten once the
    /// archive is open, unless the machine stopped in the call. What `kept` answers stays.
    pub fn reopen(&mut self, alloc: Global) -> Result<Option<Kept>, ArchiveError>
        // It is another opening of the machine, and answers the record that it found.
        ensures ok { (pair : ℕ) (machine : CoordinatorMachine) → Stands self.old pair machine
            → IfOk result (λ found. Does self.old self.new pair
            (λ next call. Reopens (coordinator_kind pair) machine next call [])
            (listed (option_map kept_of found)) []) }
        ensures device { (pair : ℕ) (machine : CoordinatorMachine) → Stands self.old pair machine
            → result ≡ Err ArchiveError.Device
            → Does self.old self.new pair
            (ReopensNot pair machine (refusal_of ArchiveError.Device)) [] [] }
        ensures memory { (pair : ℕ) (machine : CoordinatorMachine) → Stands self.old pair machine
            → IfErr result (λ e. e ≢ ArchiveError.Device → (e ≡ ArchiveError.Memory)
            × Does self.old self.new pair
            (ReopensNot pair machine (refusal_of ArchiveError.Memory)) [] []) }
        ensures same { IfErr result (λ _. KeepsReadings self.old self.new) }
        ensures again { OnOk result ((report_shown self.new ≡ report_shown self.old)
            × (written self.new ≡ written self.old) × (in_doubt self.new ≡ in_doubt self.old)
            × (runs self.new ≡ runs self.old)) }
        ensures forgets { OnOk result (is_stopped (D.Disk.arms (device_of self.new)) ≡ false
            → tried_shown self.new ≡ None) }
        ensures failures { CountsFailures (ended refusal_of result)
            (D.Disk.failures (device_of self.old)) (D.Disk.failures (device_of self.new)) }
    {
        let copy = self.plan_runner.copy_in_doubt(alloc)?;
        match self.plan_runner.archive.reopen(alloc) {
            Ok(()) => Ok(self.plan_runner.recovered(copy)),
            Err(error) => {
                drop(copy);
                Err(error)
            }
        }
    }
}

impl<D: Limit> Coordinator<D> {
    ghost use Rattle.syn_coordinator.specs.Coordinators.{KeepsReadings, Stands, device_of};

    /// Arms the archive's disk. It takes the place of an arm of its kind that is still to come.
    pub fn arm(&mut self, arm: Arm)
        ensures arms { D.Disk.arms (device_of self.new) ≡ armed (D.Disk.arms (device_of self.old))
            arm }
        ensures stands { (pair : ℕ) (machine : CoordinatorMachine) → Stands self.old pair machine
            → is_stopped (D.Disk.arms (device_of self.new)) ≡ false
            → Stands self.new pair (with_arms machine
            (armed_at (D.Disk.arms (device_of self.new)))) }

        // It changes nothing that a read gives or a stop leaves, nor what the coordinator shows.
        ensures seen { D.Disk.seen (device_of self.new) ≡ D.Disk.seen (device_of self.old) }
        ensures stop { SameOutcomes (D.Disk.may_leave (device_of self.old))
            (D.Disk.may_leave (device_of self.new)) }
        ensures moment { D.Disk.moment (device_of self.new) ≡ D.Disk.moment (device_of self.old) }
        ensures past { (t : ℕ) → SameOutcomes (D.Disk.left_since (device_of self.old) t)
            (D.Disk.left_since (device_of self.new) t) }
        ensures failures { D.Disk.failures (device_of self.new)
            ≡ D.Disk.failures (device_of self.old) }
        ensures same { KeepsReadings self.old self.new }
    {
        self.plan_runner.archive.arm(arm);
    }
}
