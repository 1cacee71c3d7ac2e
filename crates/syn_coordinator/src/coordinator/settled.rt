//! What became so far of the items of a coordinator's session.
ghost use Rattle.std.specs.Prelude.{◌≡◌, ℕ};
ghost use Rattle.syn_machine.specs.Coordinator.{CoordinatorMachine};
ghost use Rattle.syn_session.specs.SettledItems.{settled_by};

use super::Coordinator;
use syn_disk::Disk;
use syn_session::SettledItems;

impl<D: Disk> Coordinator<D> {
    ghost use Rattle.syn_coordinator.specs.Coordinators.{Stands, items_planned, report_shown};
    ghost use Rattle.syn_coordinator.specs.Coordinators.{settled_so_far};

    /// What became so far of the items of the session that runs, or else of the one that ended
    /// last. Nothing is settled before a plan is made, nor before the first session.
    pub fn settled(&self) -> SettledItems<'_>
        ensures settled { (pair : ℕ) (machine : CoordinatorMachine) → Stands self.now pair machine
            → settled_by result ≡ settled_so_far machine.running (report_shown self.now) }
        ensures planned { (pair : ℕ) (machine : CoordinatorMachine) → Stands self.now pair machine
            → result.planned ≡ items_planned machine.running }
    {
        if let Some(session) = &self.running {
            return session.settled();
        }
        match &self.report {
            Some(report) => report.settled(),
            None => SettledItems::nothing(),
        }
    }
}
