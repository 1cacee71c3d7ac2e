//! A reopening: a journal finds out anew what its own disk stands for.
ghost use Rattle.std.specs.Prelude.{◌≡◌, ◌⊎◌, Ok, Err, IfOk, IfErr, OnErr, MatchResult};
ghost use Rattle.syn_journal.specs.Layout.{current, generation_at, meaning};
ghost use Rattle.syn_journal.specs.Opened.{value_read};
ghost use Rattle.syn_disk.specs.Stops.{Untouched};

use super::Journal;
use crate::JournalError;
use crate::contents::{Contents, read_contents};
use std::alloc::Global;
use syn_disk::Disk;

impl<D: Disk> Journal<D> {
    ghost use Rattle.syn_journal.specs.Journal.{disk_of, half_of, generation_of, gate_of, IsHalted};
    ghost use Rattle.syn_journal.specs.Journal.{Stands, IsAsBefore};
    ghost use Rattle.syn_journal.specs.Refusals.{CountsFailures, ReadsAtLeast, IsOpenRefusal};

    /// Opens the journal's own disk again, and hands out what it stands for. It syncs before it
    /// reads, so that each later stop leaves what is handed out, and it writes nothing. A journal
    /// that was halted runs again.
    ///
    /// It is refused as `open` is. After `Device` the journal is halted, and after each other
    /// refusal it is as it was.
    pub fn reopen(&mut self, alloc: Global) -> Result<Contents, JournalError>
        ensures reopened { IfOk result
            (λ contents. Stands self.new (value_read contents)) }

        // NoImage and Damaged come only where the disk stands for nothing.
        ensures refusals { IfErr result
            (λ refusal. IsOpenRefusal refusal (meaning (D.seen (disk_of self.old)))) }
        ensures halts { result ≡ Err JournalError.Device → IsHalted self.new }
        ensures unchanged { IfErr result
            (λ refusal. (refusal ≡ JournalError.Device) ⊎ IsAsBefore self.old self.new) }

        // Reads give the same, and a stop at any moment of the call leaves only what it might have
        // left before.
        ensures untouched { Untouched D.seen D.may_leave D.moment D.left_since (disk_of self.old)
            (disk_of self.new) }
        ensures failures { MatchResult result
            (λ _. D.failures (disk_of self.new) ≡ D.failures (disk_of self.old))
            (λ refusal. CountsFailures refusal (D.failures (disk_of self.old))
            (D.failures (disk_of self.new))) }

        // A sync and then reads, whose number is not fixed; after Device the last of them failed.
        ensures calls { ReadsAtLeast 1 result (D.arms (disk_of self.old))
            (D.arms (disk_of self.new)) }

        // The readings, also after a refusal.
        ensures half { MatchResult result
            (λ _. current (D.seen (disk_of self.old)) ≡ Ok (half_of self.new))
            (λ _. half_of self.new ≡ half_of self.old) }
        ensures generation { MatchResult result
            (λ _. generation_at (D.seen (disk_of self.old)) (half_of self.new)
            ≡ generation_of self.new) (λ _. generation_of self.new ≡ generation_of self.old) }
        ensures gate { OnErr result (gate_of self.new ≡ gate_of self.old) }
    {
        match read_contents(alloc, &mut self.disk) {
            Ok((cursor, contents)) => {
                self.cursor = cursor;
                self.halted = false;
                Ok(contents)
            }
            Err(error) => {
                if error == JournalError::Device {
                    self.halted = true;
                }
                Err(error)
            }
        }
    }
}
