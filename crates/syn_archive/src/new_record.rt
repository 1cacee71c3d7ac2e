//! What is to be kept in an archive, checked and prepared with no disk.
ghost use Rattle.std.specs.Prelude.{◌≡◌, ◌+◌, ℕ, None, true, length, IfOk, IfErr};
ghost use Rattle.syn_model.specs.Archive.{kept_refusal};
ghost use Rattle.syn_model.specs.Mark.{IsMarks};
ghost use Rattle.syn_model.specs.MarkSpelling.{kept_spelling};
ghost use Rattle.syn_model.specs.Path.{IsPath};
ghost use Rattle.syn_model.specs.Tree.{replace};
ghost use Rattle.syn_mark.specs.Changes.{replace_refusal};
ghost use Rattle.syn_mark.specs.Marks.{or_absent};
ghost use Rattle.syn_archive.specs.inner.Agreements.{IsReady, agreed_archive, after_update};
ghost use Rattle.syn_archive.specs.inner.Keepings.{kept_in, IsNews, is_inner};
ghost use Rattle.syn_archive.specs.inner.Openings.{Keeps};
ghost use Rattle.syn_archive.specs.Refusals.{refusal_in};

use crate::agreed::{Agreed, Update};
use crate::error::ArchiveError;
use std::alloc::Global;
use syn_image::{
    SESSION_LENGTH, copied_marks, dir_length, encode_dir, encode_record, encode_session,
    record_length,
};
use syn_mark::{Mark, MarkTree};
use syn_path::Path;

/// What is to be kept.
#[derive(Drop)]
pub(crate) enum NewRecord<'a> {
    /// The session after the last.
    Session,
    /// The marks at and below the path, or that nothing is there.
    Record(&'a Path, Option<&'a MarkTree>),
    /// A directory at the path, where none is.
    Dir(&'a Path),
}

/// What is to be kept, with all memory for it.
#[derive(Drop)]
pub(crate) struct Prepared {
    pub(crate) payload: Vec<u8>,
    pub(crate) update: Update,
}

impl NewRecord<'_> {
    /// How many bytes spell it.
    pub(crate) fn length(&self) -> usize
        ensures { (last : ℕ) → result ≡ length (kept_spelling (kept_in last self.now)) }
    {
        match self {
            NewRecord::Session => SESSION_LENGTH,
            NewRecord::Record(path, marks) => record_length(path, *marks),
            NewRecord::Dir(path) => dir_length(path),
        }
    }
}

impl Agreed {
    /// Why it cannot be kept; it takes no memory.
    ///
    /// Refused 6 at the root, 2 where the parent is no directory, and 7 where the archive would
    /// pass a limit.
    pub(crate) fn check(&self, what: &NewRecord<'_>) -> Result<(), ArchiveError>
        requires { IsNews (agreed_archive self.now) what.now }
        ensures refused { refusal_in result ≡ kept_refusal (agreed_archive self.now)
            (kept_in self.now.last_session what.now) }
        ensures inner { IfErr result (λ e. is_inner e ≡ true) }
    {
        match what {
            NewRecord::Session => self.check_session(),
            NewRecord::Record(path, marks) => Ok(self.marks.check_replace(path, *marks)?),
            NewRecord::Dir(path) => Ok(self.marks.check_dir(path)?),
        }
    }

    /// Why no session begins: the last number is the greatest (7).
    fn check_session(&self) -> Result<(), ArchiveError>
        ensures refused { refusal_in result ≡ kept_refusal (agreed_archive self.now)
            (kept_in self.now.last_session NewRecord.Session) }
        ensures inner { IfErr result (λ e. is_inner e ≡ true) }
    {
        if self.last_session == u64::MAX {
            Err(ArchiveError::Full)
        } else {
            Ok(())
        }
    }

    /// What can be kept, with its payload and all memory for it. Refused 11 where memory is
    /// refused.
    pub(crate) fn prepare(
        &self,
        alloc: Global,
        what: NewRecord<'_>,
    ) -> Result<Prepared, ArchiveError>
        requires news { IsNews (agreed_archive self.now) what }
        requires allowed { kept_refusal (agreed_archive self.now)
            (kept_in self.now.last_session what) ≡ None }
        ensures payload { IfOk result (λ prepared. prepared.payload.items
            ≡ kept_spelling (kept_in self.now.last_session what.entry)) }
        ensures ready { IfOk result (λ prepared. IsReady self.now prepared.update) }
        ensures keeps { IfOk result (λ prepared. Keeps (agreed_archive self.now)
            (kept_in self.now.last_session what.entry)
            (agreed_archive (after_update self.now prepared.update))) }
        ensures memory { IfErr result (λ e. e ≡ ArchiveError.Memory) }
    {
        match what {
            NewRecord::Session => self.prepare_session(alloc),
            NewRecord::Record(path, marks) => {
                let copy = copied_marks(alloc, marks)?;
                let payload = encode_record(alloc, path, marks)?;
                self.prepare_marks(alloc, path, copy, payload)
            }
            NewRecord::Dir(path) => {
                let directory = MarkTree::of_mark(alloc, Mark::Dir)?;
                let payload = encode_dir(alloc, path)?;
                self.prepare_marks(alloc, path, Some(directory), payload)
            }
        }
    }

    /// The session after the last, with its payload.
    fn prepare_session(&self, alloc: Global) -> Result<Prepared, ArchiveError>
        requires { kept_refusal (agreed_archive self.now)
            (kept_in self.now.last_session NewRecord.Session) ≡ None }
        ensures payload { IfOk result (λ prepared. prepared.payload.items
            ≡ kept_spelling (kept_in self.now.last_session NewRecord.Session)) }
        ensures update { IfOk result
            (λ prepared. prepared.update ≡ Update.Session (self.now.last_session + 1)) }
        ensures memory { IfErr result (λ e. e ≡ ArchiveError.Memory) }
    {
        let session = self.last_session + 1;
        let payload = encode_session(alloc, session)?;
        Ok(Prepared {
            payload,
            update: Update::Session(session),
        })
    }

    /// The replacement of the marks at the path, which may be made, with this payload.
    fn prepare_marks(
        &self,
        alloc: Global,
        path: &Path,
        new: Option<MarkTree>,
        payload: Vec<u8>,
    ) -> Result<Prepared, ArchiveError>
        requires { replace_refusal self.now.marks path.now (or_absent new) ≡ None }
        ensures payload { IfOk result (λ prepared. prepared.payload ≡ payload) }
        ensures ready { IfOk result (λ prepared. IsReady self.now prepared.update) }
        ensures update { IfOk result (λ prepared. after_update self.now prepared.update
            ≡ record self.now { marks = replace self.now.marks path.now (or_absent new) }) }
        ensures path { IfOk result (λ _. IsPath path.now) }
        ensures lawful { IfOk result (λ _. IsMarks (or_absent new)) }
        ensures memory { IfErr result (λ e. e ≡ ArchiveError.Memory) }
    {
        let change = self.marks.prepare_allowed(alloc, path, new)?;
        Ok(Prepared {
            payload,
            update: Update::Marks(change),
        })
    }
}
