//! Many payloads at once, and the state that they lead to.
ghost use Rattle.std.specs.Prelude.{◌≡◌, None, Some, IfOk, IfErr, MatchResult};
ghost use Rattle.syn_journal.specs.Appending.{AppendsAll, HasAll};
ghost use Rattle.syn_journal.specs.Openings.{IsOfJournal, bytes_of_each};

use super::Journaled;
use crate::Journal;
use crate::state::State;
use std::alloc::Global;
use syn_disk::Disk;

impl<D: Disk, S: State + Drop> Journaled<D, S> {
    ghost use Rattle.syn_journal.specs.Journaled.{disk_of, journal_of, state_of};

    /// The journal, and the state that it keeps.
    pub fn into_parts(self) -> (Journal<D>, S)
        ensures journal { result.0 ≡ journal_of self }
        ensures state { result.1 ≡ state_of self }
    {
        (self.journal, self.state)
    }

    /// Appends the payloads to the journal, all of them or none, and goes on with this state: the
    /// one that they lead to.
    ///
    /// Refused 10 where the journal is halted, 8 where the records do not all fit in it, 11 where
    /// memory is refused, and 9 where a device call fails. The disk comes back, and only after 9
    /// may it have been written: it then has what it had, or that with all of the payloads.
    pub fn append_all(
        alloc: Global,
        mut journal: Journal<D>,
        payloads: &[Vec<u8>],
        state: S,
    ) -> Result<Journaled<D, S>, (S::Error, D)>
        ensures appended { IfOk result (λ machine.
            HasAll journal (journal_of machine) (bytes_of_each payloads.now)) }
        ensures state { IfOk result (λ machine. state_of machine ≡ state) }
        ensures answer { IfErr result (λ refused.
            IsOfJournal S.of_journal S.why refused.0) }
        ensures disk { MatchResult result
            (λ machine. AppendsAll journal (disk_of machine)
            (bytes_of_each payloads.now) None)
            (λ refused. AppendsAll journal refused.1 (bytes_of_each payloads.now)
            (Some (S.why refused.0))) }
    {
        match journal.append_all(alloc, payloads) {
            Ok(()) => Ok(Journaled { journal, state }),
            Err(error) => Err((S::refused(error), journal.into_disk())),
        }
    }
}
