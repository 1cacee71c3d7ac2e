//! The machine of a coordinator is started again.
ghost use Rattle.std.specs.Prelude.{IfErr, IfOk, MatchResult, None, Some, option_map};
ghost use Rattle.syn_archive.specs.Refusals.{refusal_of};
ghost use Rattle.syn_coordinator.specs.Coordinators.{device_of};
ghost use Rattle.syn_coordinator.specs.Openings.{OpensAs, RestsStill, RestsWith};
ghost use Rattle.syn_machine.specs.Coordinator.{CoordinatorMachine};
ghost use Rattle.syn_journal.specs.Endings.{CountsFailures};
ghost use Rattle.syn_coordinator.specs.Tries.{listed};
ghost use Rattle.syn_image.specs.Archives.{kept_of};

use super::Coordinator;
use crate::{TriedRecord, recovered_record};
use std::alloc::Global;
use syn_archive::{Archive, ArchiveError};
use syn_disk::Disk;
use syn_image::Kept;

impl<D: Disk> Coordinator<D> {
    /// Opens the disk of a coordinator whose machine was down, and which had tried this last. It
    /// answers the record that was being written as the device failed or the machine stopped, if
    /// the disk has it.
    ///
    /// Refused 9 where a device call fails, and 11 where memory is refused; the disk comes back
    /// with what was tried. Nothing is written.
    pub fn open(
        alloc: Global,
        disk: D,
        pair: u64,
        tried: Option<TriedRecord>,
    ) -> Result<(Coordinator<D>, Option<Kept>), (ArchiveError, D, Option<TriedRecord>)>
        ensures opens { (machine : CoordinatorMachine)
            → RestsWith D.arms D.may_leave pair disk tried machine
            → IfOk result (λ made. OpensAs made.0 pair machine
            (listed (option_map kept_of made.1))) }
        ensures rests { (machine : CoordinatorMachine)
            → RestsWith D.arms D.may_leave pair disk tried machine
            → IfErr result (λ refused. RestsStill D.arms D.may_leave pair refused.1 refused.2
            machine (refusal_of refused.0)) }
        ensures failures { MatchResult result
            (λ made. CountsFailures None (D.failures disk) (D.failures (device_of made.0)))
            (λ refused. CountsFailures (Some (refusal_of refused.0)) (D.failures disk)
            (D.failures refused.1)) }
    {
        match Archive::open(alloc, disk, Some(pair)) {
            Ok(archive) => {
                let kept = recovered_record(tried, &archive);
                let coordinator = Coordinator::new(alloc, archive);
                Ok((coordinator, kept))
            }
            Err((error, disk)) => Err((error, disk, tried)),
        }
    }
}
