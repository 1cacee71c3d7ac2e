//! The scan of one side in a session.
ghost use Rattle.std.specs.Prelude.{◌≡◌, ◌⊎◌, ℕ, [], IfOk, IfSome, IfNone, MatchResult};
ghost use Rattle.std.specs.Prelude.{None, OnErr, OnOk, Some};
ghost use Rattle.syn_scan.specs.Asked.{AreAllOut, handed_out, without};
ghost use Rattle.syn_machine.specs.Network.{Which};
ghost use Rattle.syn_machine.specs.Session.{IsShown, fault_of};
ghost use Rattle.syn_machine.specs.Side.{ListAt};
ghost use Rattle.syn_message.specs.Replies.{IsLawfulReply, reply_of};
ghost use Rattle.syn_model.specs.Refusal.{Memory};
ghost use Rattle.syn_refusal.specs.Refusals.{cause_of};
ghost use Rattle.syn_model.specs.Dirty.{IsScanBy};
ghost use Rattle.syn_scan.specs.Found.{IsWhole, position_of, scan_of};

use std::alloc::{AllocError, Global};
use syn_message::Reply;
use syn_path::Path;
use syn_refusal::Refusal;
use syn_scan::{Scan, Scanner};

/// The scan of one side in a session: which directory is to be listed next, and what the side
/// answered so far.
#[derive(Debug, Drop)]
pub struct SideScan {
    scanner: Scanner,
}

impl SideScan {
    ghost use Rattle.syn_session.specs.Scanning.{Exchanges, IsFoundIn, WaitsFor, WasAnswered};
    ghost use Rattle.syn_session.specs.Scanning.{asked_of, found_of, out_of, with_listing_answered};
    ghost use Rattle.syn_session.specs.Scanning.{WasListedAt, WasNoDirectoryAt, shows_unstable};

    /// Nothing is asked yet. Refused 11 where memory is refused.
    pub fn new(alloc: Global) -> Result<SideScan, AllocError>
        ensures found { (side : Which) → IfOk result (λ scan. IsFoundIn (found_of scan) side []) }
        ensures out { IfOk result (λ scan. out_of scan ≡ []) }
    {
        let scanner = Scanner::new(alloc)?;
        Ok(SideScan { scanner })
    }

    /// The directory that is to be listed next; none where each was handed out. It waits for its
    /// answer then, and is handed out once.
    ///
    /// Refused 11 where memory is refused.
    pub fn next(&mut self, alloc: Global) -> Result<Option<Path>, AllocError>
        // A listing shows it, and it was not asked for yet.
        ensures shown { (side : Which) (taken : Exchanges)
            → IsFoundIn (found_of self.old) side taken
            → IfOk result (λ next. IfSome next (λ path. IsShown taken side path)) }
        ensures new { IfOk result (λ next. IfSome next
            (λ path. ¬ WasAnswered (found_of self.old) path)) }
        ensures unasked { IfOk result (λ next. IfSome next (λ path. ¬ WaitsFor self.old path)) }
        ensures out { IfOk result (λ next. out_of self.new ≡ handed_out (out_of self.old) next) }
        ensures none { IfOk result (λ next. IfNone next (AreAllOut (asked_of self.new))) }
        ensures found { found_of self.new ≡ found_of self.old }
    {
        self.scanner.next_request(alloc)
    }

    /// Takes the answer to a listing.
    ///
    /// Refused 22 where the scan would have more than 4,096 nodes; 23 where a path would pass the
    /// limits, or the answer is none to a listing; 11 where memory is refused; and with the number
    /// that the side refused the listing with.
    pub fn take(&mut self, alloc: Global, path: &Path, reply: Reply) -> Result<(), Refusal>
        requires lawful { IsLawfulReply (reply_of reply) }
        // An answer is refused exactly where it ends its session, or for lack of memory.
        ensures step { (side : Which) (taken : Exchanges) (number : ℕ) → WaitsFor self.old path.now
            → IsFoundIn (found_of self.old) side taken
            → MatchResult result
            (λ _. (fault_of taken side (ListAt path.now) (reply_of reply) ≡ None)
            × IsFoundIn (found_of self.new) side
            (with_listing_answered taken side number path.now (reply_of reply)))
            (λ e. (cause_of e ≡ Memory)
            ⊎ (fault_of taken side (ListAt path.now) (reply_of reply) ≡ Some (cause_of e))) }
        // It waits for that no more.
        ensures out { OnOk result (out_of self.new ≡ without (out_of self.old) path.now) }
        ensures same { OnErr result (found_of self.new ≡ found_of self.old) }
    {
        match reply {
            Reply::Listed { position, entries } => {
                match self.scanner.take(alloc, path, position, entries) {
                    Ok(()) => Ok(()),
                    Err(error) => Err(error.refusal()),
                }
            }
            Reply::NotDir { position } => match self.scanner.not_dir(alloc, path, position) {
                Ok(()) => Ok(()),
                Err(error) => Err(error.refusal()),
            },
            Reply::Refused(why) => Err(why),
            _ => Err(Refusal::BadMessage),
        }
    }

    /// What the side showed so far: its scan, once each directory was answered.
    pub fn so_far(&self) -> &Scan
        ensures found { result.now ≡ found_of self.now }

        // It is then the scan by what the side answered.
        ensures scan { (side : Which) (taken : Exchanges) → IsWhole (found_of self.now)
            → IsFoundIn (found_of self.now) side taken
            → IsScanBy (WasListedAt taken side) (WasNoDirectoryAt taken side) (scan_of result.now)
            (position_of result.now) }
    {
        self.scanner.scan()
    }

    /// Whether a path was answered as no directory. It takes no memory.
    pub(crate) fn has_unstable_path(&self, alloc: Global) -> bool
        ensures { result ≡ shows_unstable (found_of self.now) }
    {
        self.so_far().unstable(&Path::root(alloc))
    }

    /// The scan, once each directory was answered. It takes no memory.
    pub fn into_scan(self) -> Scan
        requires { IsWhole (found_of self) }
        ensures found { result ≡ found_of self }
        ensures scan { (side : Which) (taken : Exchanges) → IsFoundIn (found_of self) side taken
            → IsScanBy (WasListedAt taken side) (WasNoDirectoryAt taken side) (scan_of result)
            (position_of result) }
    {
        self.scanner.finish()
    }
}
