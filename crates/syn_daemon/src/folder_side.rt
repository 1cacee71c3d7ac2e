//! The folder's thread: it keeps a folder the same as the replica that is served.
ghost use Rattle.syn_shared.specs.Shared.{IsFor};

use crate::ending::Ending;
use crate::stamping::{KeepsMarks, StampError, Stamping, raise};
use crate::told::ToldLines;
use log::{Log, info, warn};
use std::alloc::{AllocError, Global};
use std::fs::Files;
use std::sync::Wait;
use std::time::Clock;
use syn_archive::Archive;
use syn_disk::Disk;
use syn_folder::{EditedFolder, FolderError, Glimpse, Kept, SystemFolder, take_glimpse};
use syn_lock::Pass;
use syn_pair::{FolderMismatch, FolderStamp, LAST_PLACE, SideStatus};
use syn_path::Side;
use syn_recon::Item;
use syn_reconcile::{ReconcileError, Report, Settlement, WhenEmpty, reconcile_shared};
use syn_refusal::Refusal;
use syn_replica::{ROOM_FOR_EDITS, Replica};
use syn_shared::{SharedReplica, UpkeepStep, keep_up};

/// So often a folder is read that looks the same: what was written just as it was read may look as
/// what was written then.
const LOOKS: u8 = 2;

/// A folder that a server keeps the same as its replica.
#[derive(Drop)]
pub struct FolderSide<'a, F, A: Disk, K> {
    pub files: &'a F,
    /// The name of the folder, which may be missing.
    pub root: &'a str,
    /// What folder and replica last agreed on.
    pub archive: Archive<A>,
    /// Where it is kept which folder and which replica that was.
    pub keeper: K,
    /// Whose edits the folder's changes are.
    pub user: u32,
    /// So many seconds pass between two looks, at least one.
    pub seconds: u64,
    /// Whether the marks are taken for those of this replica, since nothing was kept of theirs.
    pub takes_replica: bool,
}

/// What works in a thread of its own beside a server.
pub(crate) trait Companion {
    /// Works until the server has ended.
    fn run(self);
}

/// What the folder's thread works with.
#[derive(Drop)]
pub(crate) struct FolderThread<'a, H, D: Disk, F, A: Disk, K> {
    pub(crate) rt: &'a H,
    pub(crate) alloc: Global,
    pub(crate) shared: &'a SharedReplica<D>,
    pub(crate) side: FolderSide<'a, F, A, K>,
    pub(crate) ending: &'a Ending,
}

impl<H, D, F, A, K> Companion for FolderThread<'_, H, D, F, A, K>
where
    H: Wait + Clock + Log,
    D: Disk,
    F: Files,
    A: Disk + Drop,
    K: KeepsMarks + Drop,
{
    fn run(self) {
        let FolderThread {
            rt,
            alloc,
            shared,
            side,
            ending,
        } = self;
        match shared.own().pass() {
            Ok(pass) => keep_folder(rt, alloc, shared, pass, side, ending),
            Err(_) => warn!(rt; "folder refused 24 NoSeat"),
        }
    }
}

/// What is known since the last look.
#[derive(Drop)]
struct SinceLastLook {
    /// How the folder looked before it was read.
    glimpse: Option<Glimpse>,
    /// The position of the replica then.
    position: u64,
    /// How often the folder was read since it looks so and the replica has this position.
    looks: u8,
    /// The stamp of the folder and its marks; none where both get a new number.
    stamp: Option<FolderStamp>,
    /// It was raised since the server began.
    was_raised: bool,
    told: ToldLines,
}

/// Why a look did not come to its end.
#[derive(Drop)]
enum LookError {
    Folder(FolderError),
    Reconcile(ReconcileError),
    /// The marks are of another folder, or of an older or a newer copy of it.
    Other(FolderMismatch),
    /// The replica cannot say where it is.
    Replica(Refusal),
}

/// Makes folder and replica the same at once, whenever one of them has changed, and once more when
/// the server has ended. Then the stamp of folder and marks is raised, if it was before, so that a
/// copy that was made meanwhile is an older one.
fn keep_folder<H, D, F, A, K>(
    rt: &H,
    alloc: Global,
    shared: &SharedReplica<D>,
    mut pass: Pass<Replica<D>>,
    mut side: FolderSide<'_, F, A, K>,
    ending: &Ending,
)
where
    H: Wait + Clock + Log,
    D: Disk,
    F: Files,
    A: Disk + Drop,
    K: KeepsMarks + Drop,
    requires { IsFor shared.now pass }
{
    let mut since = SinceLastLook {
        glimpse: None,
        position: 0,
        looks: 0,
        stamp: side.keeper.folder(),
        was_raised: false,
        told: ToldLines::new(alloc),
    };
    if side.takes_replica {
        warn!(rt; "folder: nothing is kept of its marks' replica: this one is taken for it");
    }
    for _ in rt.forever() {
        let is_over = ending.is_over(rt);
        look(rt, alloc, shared, &mut pass, &mut side, &mut since);
        if is_over {
            raise_at_end(rt, alloc, shared, &mut pass, &side, &since);
            return;
        }
        ending.wait(rt, side.seconds.max(1));
    }
}

/// Looks at the folder and at the replica. Where one of them has changed, both are made the same.
fn look<H, D, F, A, K>(
    rt: &H,
    alloc: Global,
    shared: &SharedReplica<D>,
    pass: &mut Pass<Replica<D>>,
    side: &mut FolderSide<'_, F, A, K>,
    since: &mut SinceLastLook,
)
where
    H: Wait + Log,
    D: Disk,
    F: Files,
    A: Disk,
    K: KeepsMarks,
    requires { IsFor shared.now pass.old }
    ensures { IsFor shared.now pass.new }
{
    let seen = take_glimpse(alloc, side.files, side.root).ok();
    let position = shared.position(pass);
    if !since.is_news(seen, position) {
        return;
    }
    make_room(rt, alloc, shared, pass);
    let answer = make_same(rt, alloc, shared, pass, side, since);
    let _ = tell(rt, alloc, side.root, &answer, &mut since.told);
    if is_passing(&answer) {
        since.looks = 0;
    }
}

impl SinceLastLook {
    /// Takes up how the folder looks and which position the replica has. Whether there may be
    /// something to do.
    fn is_news(&mut self, seen: Option<Glimpse>, position: u64) -> bool {
        let is_same = match (&self.glimpse, &seen) {
            (Some(last), Some(now)) => last.is_same(now) && self.position == position,
            _ => false,
        };
        if is_same && self.looks >= LOOKS {
            return false;
        }
        self.looks = if is_same {
            self.looks.saturating_add(1)
        } else {
            1
        };
        self.glimpse = seen;
        self.position = position;
        true
    }
}

/// Makes a checkpoint where the journal has too little room for the edits of a folder.
fn make_room<H: Wait + Log, D: Disk>(
    rt: &H,
    alloc: Global,
    shared: &SharedReplica<D>,
    pass: &mut Pass<Replica<D>>,
)
    requires { IsFor shared.now pass.old }
    ensures { IsFor shared.now pass.new }
{
    match keep_up(alloc, shared, pass, ROOM_FOR_EDITS) {
        UpkeepStep::Checkpointed(Ok(())) => info!(rt; "checkpoint for the folder"),
        UpkeepStep::Reopened(Ok(())) => info!(rt; "reopened"),
        _ => {}
    }
}

/// Makes folder and replica the same, where the folder is the one that the marks are of. Before
/// anything is recorded the stamp of both is raised, and once all is, it is kept where the replica
/// is.
fn make_same<H, D, F, A, K>(
    rt: &H,
    alloc: Global,
    shared: &SharedReplica<D>,
    pass: &mut Pass<Replica<D>>,
    side: &mut FolderSide<'_, F, A, K>,
    since: &mut SinceLastLook,
) -> Result<Report, LookError>
where
    H: Wait + Log,
    D: Disk,
    F: Files,
    A: Disk,
    K: KeepsMarks,
    requires { IsFor shared.now pass.old }
    ensures { IsFor shared.now pass.new }
{
    if let Err(error) = reopen(alloc, &mut side.archive) {
        return Err(LookError::Reconcile(error));
    }
    let mut folder = match open_folder(rt, alloc, side.files, side.root, &mut since.told) {
        Ok(folder) => folder,
        Err(error) => return Err(LookError::Folder(error)),
    };
    let found = replica_status(rt, alloc, shared, pass)?;
    let (marks, keeper) = (side.archive.tree(), &side.keeper);
    let mut stamping = match Stamping::open(alloc, &folder, marks, keeper, since.stamp, found) {
        Ok(stamping) => stamping,
        Err(StampError::Other(mismatch)) => return Err(LookError::Other(mismatch)),
        Err(StampError::Folder(error)) => return Err(LookError::Folder(error)),
    };
    let (archive, user) = (&mut side.archive, side.user);
    let refuse = WhenEmpty::Refuse;
    let reconciled = reconcile_shared(
        rt,
        alloc,
        &mut folder,
        shared,
        pass,
        archive,
        user,
        refuse,
        &mut stamping,
    );
    tell_kept(rt, folder.kept());
    if stamping.is_raised() || (side.takes_replica && since.stamp.is_none()) {
        since.was_raised = true;
        // Where this is refused, the next look that records something keeps it.
        if let Ok(found) = replica_status(rt, alloc, shared, pass) {
            let _ = stamping.keep(found);
        }
    }
    since.stamp = stamping.stamp();
    reconciled.map_err(LookError::Reconcile)
}

/// Opens the archive again, where a record of it has failed.
fn reopen<A: Disk>(alloc: Global, archive: &mut Archive<A>) -> Result<(), ReconcileError> {
    if !archive.is_halted() {
        return Ok(());
    }
    match archive.reopen(alloc) {
        Ok(()) => Ok(()),
        Err(error) => Err(ReconcileError::Archive(error)),
    }
}

/// Reads the folder, and tells what can stand in no replica.
fn open_folder<'a, H: Log, F: Files>(
    rt: &H,
    alloc: Global,
    files: &'a F,
    root: &'a str,
    told: &mut ToldLines,
) -> Result<SystemFolder<'a, F>, FolderError> {
    let folder = SystemFolder::open_to_edit(alloc, files, root)?;
    for stranger in folder.strangers() {
        if let Ok(line) = format!(in alloc; "folder skipped {stranger}") {
            let _ = told.tell(rt, line);
        }
    }
    Ok(folder)
}

/// What the replica says of itself by now.
fn replica_status<H: Wait, D: Disk>(
    rt: &H,
    alloc: Global,
    shared: &SharedReplica<D>,
    pass: &mut Pass<Replica<D>>,
) -> Result<SideStatus, LookError>
    requires { IsFor shared.now pass.old }
    ensures { IsFor shared.now pass.new }
{
    let identity = shared.identity();
    match shared.status(rt, alloc, pass, LAST_PLACE) {
        Ok(status) => Ok(SideStatus { identity, status }),
        Err(error) => Err(LookError::Replica(error.refusal())),
    }
}

/// Raises the stamp of folder and marks, where it was raised since the server began.
fn raise_at_end<H, D, F, A, K>(
    rt: &H,
    alloc: Global,
    shared: &SharedReplica<D>,
    pass: &mut Pass<Replica<D>>,
    side: &FolderSide<'_, F, A, K>,
    since: &SinceLastLook,
)
where
    H: Wait + Log,
    D: Disk,
    F: Files,
    A: Disk,
    K: KeepsMarks,
    requires { IsFor shared.now pass.old }
    ensures { IsFor shared.now pass.new }
{
    if !since.was_raised {
        return;
    }
    let Ok(found) = replica_status(rt, alloc, shared, pass) else {
        return;
    };
    // Where this is refused the stamps are in step, or the folder's is one above.
    let _ = raise(
        alloc,
        side.files,
        side.root,
        &side.keeper,
        since.stamp,
        found,
    );
}

/// Tells what was replaced or removed in the folder, and where it lies.
fn tell_kept<H: Log>(rt: &H, kept: &[Kept]) {
    for one in kept {
        info!(rt; "folder kept {one}");
    }
}

/// Tells what a look came to: what was carried, and once what stays undone.
///
/// Refused where memory is refused.
fn tell<H: Log>(
    rt: &H,
    alloc: Global,
    root: &str,
    answer: &Result<Report, LookError>,
    told: &mut ToldLines,
) -> Result<(), AllocError> {
    match answer {
        Ok(report) => tell_report(rt, alloc, report, told)?,
        Err(LookError::Folder(FolderError::Changed(_))) => {
            told.turn_back(alloc);
            return Ok(());
        }
        Err(error) => told.tell(rt, line_of(alloc, root, error)?)?,
    }
    told.turn(alloc);
    Ok(())
}

/// Tells each item that was carried, is refused or is in conflict.
fn tell_report<H: Log>(
    rt: &H,
    alloc: Global,
    report: &Report,
    told: &mut ToldLines,
) -> Result<(), AllocError> {
    for settled in &report.settled {
        let path = settled.path();
        match settled.settlement() {
            Settlement::Done => {
                let side = side_of(&settled.item);
                info!(rt; "folder carried into the {side}: {path}");
            }
            Settlement::Marked => {}
            Settlement::Conflict => told.tell(rt, format!(in alloc; "folder conflict {path}")?)?,
            Settlement::Refused(why) => {
                let number = why.number();
                told.tell(rt, format!(in alloc; "folder refused {number} {path}")?)?;
            }
        }
    }
    Ok(())
}

/// Into which side an item that is carried out goes, in a word.
fn side_of(item: &Item) -> &'static str {
    match item {
        Item::ToLeft(_) => "folder",
        _ => "replica",
    }
}

/// Why a look did not come to its end, as a line.
fn line_of(alloc: Global, root: &str, error: &LookError) -> Result<String, AllocError> {
    match error {
        LookError::Reconcile(ReconcileError::Empty(Side::Left)) => {
            format!(in alloc; "folder refused 5 Absent: {root} is empty or missing, and was not")
        }
        LookError::Reconcile(ReconcileError::Empty(Side::Right)) => {
            format!(in alloc; "folder refused 5 Absent: the replica is empty, and was not")
        }
        LookError::Reconcile(ReconcileError::Unready(why)) => {
            let number = why.number();
            format!(in alloc;
                "folder refused {number} {why}: {root}/.syn/folder, or what is known beside its \
                    marks, cannot be written"
            )
        }
        LookError::Reconcile(error) => {
            let number = error.number();
            format!(in alloc; "folder refused {number} {error}")
        }
        LookError::Folder(error) => {
            let number = error.number();
            format!(in alloc; "folder refused {number} {error}")
        }
        LookError::Other(mismatch) => {
            let why = mismatch.refusal();
            let number = why.number();
            format!(in alloc;
                "folder refused {number} {why}: {root} is not the folder that its marks are of: \
                    {mismatch}"
            )
        }
        LookError::Replica(why) => {
            let number = why.number();
            format!(in alloc; "folder refused {number} {why}")
        }
    }
}

/// What was refused may be done at the next look, though nothing changes.
fn is_passing(answer: &Result<Report, LookError>) -> bool {
    match answer {
        Ok(report) => report.settled.iter().any(|settled| match settled.refused {
            Some(why) => passes(why),
            None => false,
        }),
        Err(LookError::Folder(error)) => passes(error.refusal()),
        Err(LookError::Reconcile(error)) => passes(error.refusal()),
        Err(LookError::Other(_)) => false,
        Err(LookError::Replica(why)) => passes(*why),
    }
}

/// The refusal is none of what folder, replica and marks hold.
fn passes(why: Refusal) -> bool {
    match why {
        Refusal::Touched | Refusal::BelowFloor | Refusal::JournalFull | Refusal::Busy => true,
        Refusal::Device | Refusal::Halted | Refusal::Memory => true,
        _ => false,
    }
}
