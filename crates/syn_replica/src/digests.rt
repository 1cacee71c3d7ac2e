//! The digests of a replica's files, which are kept in memory between its listings.
ghost use Rattle.std.specs.Prelude.{◌≡◌, ◌↔◌, ◌⊎◌, [], Err, Some, true, false, IfOk, IfErr};
ghost use Rattle.std.specs.Prelude.{IfSome, OnOk, OnErr};
ghost use Rattle.sha2.specs.Sha256.{sha256};
ghost use Rattle.syn_model.specs.Limits.{children};
ghost use Rattle.syn_model.specs.Mark.{mark, mark_of};
ghost use Rattle.syn_model.specs.Tree.{is_directory};
ghost use Rattle.syn_tree.specs.Contents.{found_content};
ghost use Rattle.syn_tree.specs.Lists.{contents_at};
ghost use Rattle.syn_mark.specs.Marks.{content_of, contents_in};
ghost use Rattle.syn_mark.specs.Placings.{marks_of};

use sha2::{Digest, Sha256};
use std::alloc::{AllocError, Global};
use std::collections::BTreeMap;
use std::marker::Model;
use syn_mark::Mark;
use syn_path::{Name, Path};
use syn_tree::{Found, LONGEST_SPELLING, Tree, TreeError};

/// The most files of which a digest is kept: as many as a tree has nodes. They have at most as many
/// bytes in all as spell a tree.
const MOST_FILES: usize = 1024;

/// SHA-256 digests, each kept with a copy of the bytes that it is of. So each is right whatever
/// becomes of the tree, and two files with the same bytes have one.
#[derive(Drop)]
pub(crate) struct Digests {
    by_bytes: BTreeMap<Vec<u8>, [u8; 32]>,
    /// No fewer bytes than these files have in all.
    size: usize,
    /// How often the root was listed, which each session does once.
    rounds: u64,
}

impl Model for Digests {
    ghost use Rattle.std.specs.Prelude.{ℕ, List};

    ghost Value = { List (List ℕ × List ℕ) };

    ghost use Rattle.syn_replica.specs.inner.Digests.{files_in, AreDigests};

    ghost view = { files_in };

    ghost invariant = { AreDigests };
}

impl Digests {
    ghost use Rattle.syn_replica.specs.inner.Digests.{digest_beside};

    /// No digests.
    pub(crate) fn new(alloc: Global) -> Digests
        ensures { result ≡ [] }
    {
        Digests {
            by_bytes: BTreeMap::new(alloc),
            size: 0,
            rounds: 0,
        }
    }

    /// The names in the directory, in byte order, each with the mark of what stands there. A file
    /// is hashed where its digest is not kept, which it is from the second listing of the root on.
    ///
    /// Refused 5 where no directory is there, and 11 where memory is refused.
    pub(crate) fn list_marks(
        &mut self,
        alloc: Global,
        tree: &Tree,
        path: &Path,
    ) -> Result<Vec<(Name, Mark)>, TreeError>
        ensures marks { IfOk result
            (λ listed. contents_in listed.items ≡ children (mark tree.now) path.now) }
        ensures directory { OnOk result (is_directory tree.now path.now ≡ true) }
        ensures absent { (result ≡ Err TreeError.Absent)
            ↔ (is_directory tree.now path.now ≡ false) }
        ensures refusals { IfErr result (λ e. (e ≡ TreeError.Absent) ⊎ (e ≡ TreeError.Memory)) }
    {
        self.count_round(path);
        self.marks_at(alloc, tree.children(alloc, path)?)
    }

    /// Counts it where the root is listed.
    fn count_round(&mut self, path: &Path)
        ensures { self.new ≡ self.old }
    {
        if path.names().is_empty() {
            self.rounds = self.rounds.saturating_add(1);
        }
    }

    /// The names, each with the mark of what stands there. Refused 11 where memory is refused.
    fn marks_at(
        &mut self,
        alloc: Global,
        children: Vec<(Name, Found<'_>)>,
    ) -> Result<Vec<(Name, Mark)>, TreeError>
        ensures ok { IfOk result (λ listed. contents_in listed.items
            ≡ marks_of (contents_at children.entry.items)) }
        ensures memory { IfErr result (λ e. e ≡ TreeError.Memory) }
    {
        let mut listed = Vec::with_capacity(alloc, children.len())?;
        for (name, found) in children {
            listed.push((name, self.mark_found(alloc, &found)))?;
        }
        Ok(listed)
    }

    /// The mark of what was found.
    fn mark_found(&mut self, alloc: Global, found: &Found<'_>) -> Mark
        ensures { content_of result ≡ mark_of (found_content found.now) }
    {
        match found {
            Found::File(mode, bytes) => Mark::File(*mode, self.digest(alloc, bytes)),
            Found::Dir => Mark::Dir,
        }
    }

    /// The digest of the bytes: the one that is kept, or a new one. A new one is kept from the
    /// second listing of the root on, if there is memory. The first round keeps none, since a
    /// session that runs once lists each directory once and would gain nothing.
    fn digest(&mut self, alloc: Global, bytes: &[u8]) -> [u8; 32]
        ensures { result ≡ sha256 bytes.now }
    {
        if let Some(digest) = self.find(bytes) {
            return digest;
        }
        let digest = Sha256::digest(bytes);
        if self.rounds > 1 {
            // Where memory is refused, it is made anew the next time.
            let _ = self.keep(alloc, bytes, digest);
        }
        digest
    }

    /// The digest that is kept of the bytes, if any is. It takes no memory.
    fn find(&self, bytes: &[u8]) -> Option<[u8; 32]>
        ensures beside { result ≡ digest_beside bytes.now self.now }
        ensures right { IfSome result (λ digest. digest ≡ sha256 bytes.now) }
    {
        self.by_bytes.get(bytes).copied()
    }

    /// Keeps the digest of the bytes. Where they do not fit in beside the others, all go, and
    /// nothing is kept. Where memory is refused, all stays.
    fn keep(&mut self, alloc: Global, bytes: &[u8], digest: [u8; 32]) -> Result<(), AllocError>
        requires { digest ≡ sha256 bytes.now }
        ensures kept { OnOk result ((self.new ≡ [])
            ⊎ (digest_beside bytes.now self.new ≡ Some digest)) }
        ensures unchanged { OnErr result (self.new ≡ self.old) }
    {
        if self.by_bytes.len() >= MOST_FILES || bytes.len() > LONGEST_SPELLING - self.size {
            *self = self.emptied(alloc);
            return Ok(());
        }
        let copy = Vec::from_slice(alloc, bytes)?;
        self.by_bytes.insert(copy, digest)?;
        self.size += bytes.len();
        Ok(())
    }

    /// No digests, after as many listings of the root.
    fn emptied(&self, alloc: Global) -> Digests
        ensures { result ≡ [] }
    {
        Digests {
            by_bytes: BTreeMap::new(alloc),
            size: 0,
            rounds: self.rounds,
        }
    }
}
