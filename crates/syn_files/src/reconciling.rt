//! A folder and the replica of a name, which are made the same.

use crate::marks::MarksKeeper;
use crate::named::{NamedDisks, archive_on, replica_in, replica_to_read};
use crate::pairs::status_at;
use crate::plans::print_compared;
use std::alloc::{AllocError, Global};
use std::fs::Files;
use std::io::{self, ErrorKind, Write};
use syn_archive::Archive;
use syn_cli::ReconcileCommand;
use syn_command::{CommandError, Outcome, Teller, carried_line, marked_line};
use syn_daemon::{KeepsMarks, StampError, Stamping};
use syn_disk::{Access, Disk, MemDisk, OpenError};
use syn_folder::{EditedFolder, Kept, SystemFolder};
use syn_pair::{LAST_PLACE, SideStatus};
use syn_path::Side;
use syn_reconcile::{
    BeforeItems, ItemWatch, ReconcileError, Report, Settled, Settlement, WhenEmpty, plan, reconcile,
};
use syn_replica::Replica;

/// Makes the command's folder and its replica the same, by what both last agreed on, prints a
/// report, and answers what it came to. What no replica can have is told, and left alone on both
/// sides; each item that is carried or marked is told, too, how many are settled, and where what
/// was taken away from the folder lies.
///
/// It is kept beside the archive which folder this is and where the replica is in its history,
/// before anything is recorded and once all is. Anew, it begins without marks: nothing is removed,
/// and what differs is a conflict.
///
/// Refused as the replica and the archive are opened, 20 where the archive is not of this replica
/// and this folder, or one of them is an older copy, 9 and 13 as the folder is read, and as
/// `reconcile` is: what was carried before stands then, and the same line goes on.
pub fn reconcile_named<N: NamedDisks, F: Files, O: Write, E: Write>(
    alloc: Global,
    disks: &N,
    files: &F,
    command: &ReconcileCommand<'_>,
    output: &mut O,
    teller: &mut Teller<'_, E>,
) -> Result<Outcome, CommandError> {
    let name = archive_name(alloc, command.file, command.archive)?;
    let replica = replica_in(alloc, disks, command.file)?;
    if command.is_anew {
        disks.format_after(alloc, &name, replica.pair(), 0)?;
    }
    let mut archive = archive_or_new(alloc, disks, &name, replica.pair())?;
    let identity = disks.identity(alloc, command.file, Access::Write)?;
    let mut keeper = MarksKeeper::open(alloc, disks, &name, !has_marks(&archive))?;
    let found = keeper.ask(identity, &replica)?;
    keeper.check_to_use(&found)?;
    tell_taken(&keeper, &archive, command.file, teller.errors);
    let mut folder = SystemFolder::open_to_edit(alloc, files, command.folder)?;
    tell_strangers(&folder, teller.errors);
    let mut stamping = stamping_of(alloc, &folder, &archive, &keeper, found)?;
    let (opened, archive) = (&mut folder, &mut archive);
    let reconciled = reconcile_opened(
        alloc,
        opened,
        replica,
        archive,
        command,
        &mut stamping,
        teller,
    );
    tell_kept(folder.kept(), teller);
    let (replica, report) = reconciled?;
    print_report(&report, output)?;
    if stamping.is_raised() || takes_replica(&keeper, archive) {
        stamping.raise(status_at(alloc, identity, &replica, LAST_PLACE)?)?;
    }
    Ok(outcome_of(&report))
}

/// The stamp of the folder and of its marks.
///
/// Refused as `Stamping::open` is.
fn stamping_of<'a, 'k, F: Files, A: Disk, K: KeepsMarks>(
    alloc: Global,
    folder: &SystemFolder<'a, F>,
    archive: &Archive<A>,
    keeper: &'k K,
    found: SideStatus,
) -> Result<Stamping<'a, 'k, F, K>, CommandError> {
    match Stamping::open(
        alloc,
        folder,
        archive.tree(),
        keeper,
        keeper.folder(),
        found,
    ) {
        Ok(stamping) => Ok(stamping),
        Err(StampError::Other(mismatch)) => Err(CommandError::OtherFolder(mismatch)),
        Err(StampError::Folder(error)) => Err(CommandError::Folder(error)),
    }
}

/// Whether anything but the root is marked.
pub(crate) fn has_marks<A: Disk>(archive: &Archive<A>) -> bool {
    archive.tree().node_count() > 1
}

/// Tells where marks are taken for those of the replica, since nothing is known of theirs.
fn tell_taken<N: NamedDisks, A: Disk, E: Write>(
    keeper: &MarksKeeper<'_, N>,
    archive: &Archive<A>,
    file: &str,
    errors: &mut E,
) {
    if takes_replica(keeper, archive) {
        let _ = writeln!(
            errors,
            "syn: nothing is kept of the replica that the folder's marks are of: they are taken \
                for those of {file}"
        );
    }
}

/// Whether there are marks, and nothing is known of their replica, as before it was kept.
pub(crate) fn takes_replica<N: NamedDisks, A: Disk>(
    keeper: &MarksKeeper<'_, N>,
    archive: &Archive<A>,
) -> bool {
    !keeper.is_known() && has_marks(archive)
}

/// Makes the folder and the replica the same, and answers the replica then, and what came of each
/// item.
fn reconcile_opened<F: EditedFolder, R: Disk + Drop, A: Disk, B: BeforeItems, E: Write>(
    alloc: Global,
    folder: &mut F,
    replica: Replica<R>,
    archive: &mut Archive<A>,
    command: &ReconcileCommand<'_>,
    before: &mut B,
    teller: &mut Teller<'_, E>,
) -> Result<(Replica<R>, Report), CommandError> {
    let mut watch = ItemsTold {
        alloc,
        planned: 0,
        settled: 0,
        teller: &mut *teller,
    };
    let settled = reconcile(
        alloc,
        folder,
        replica,
        archive,
        command.user,
        command.preference,
        when_empty(command),
        before,
        &mut watch,
    );
    teller.end();
    match settled {
        Ok(done) => Ok(done),
        Err((error, _)) => Err(command_error_of(error, command, teller.errors)),
    }
}

/// Prints what `reconcile_named` would do, and answers what there is to do. Nothing is written, and
/// an archive that is missing is not made.
///
/// Refused as the replica and the archive are opened to read, 20 as `reconcile_named` is, 9 and 13
/// as the folder is read, and as `plan` of `syn_reconcile` is.
pub fn plan_named<N: NamedDisks, F: Files, O: Write, E: Write>(
    alloc: Global,
    disks: &N,
    files: &F,
    command: &ReconcileCommand<'_>,
    output: &mut O,
    errors: &mut E,
) -> Result<Outcome, CommandError> {
    let name = archive_name(alloc, command.file, command.archive)?;
    let replica = replica_to_read(alloc, disks, command.file)?;
    let identity = disks.identity(alloc, command.file, Access::Read)?;
    let folder = SystemFolder::open_to_plan(alloc, files, command.folder)?;
    tell_strangers(&folder, errors);
    let asked = PlanOfFolder {
        folder: &folder,
        replica: &replica,
        command,
    };
    if command.is_anew {
        let archive = empty_archive(alloc, replica.pair())?;
        return asked.print(alloc, &archive, output, errors);
    }
    let archive = match disks.lock(&name, Access::Read) {
        Err(error) if is_missing(&error) => {
            let archive = empty_archive(alloc, replica.pair())?;
            return asked.print(alloc, &archive, output, errors);
        }
        locked => archive_on(alloc, locked?)?,
    };
    let keeper = MarksKeeper::open(alloc, disks, &name, !has_marks(&archive))?;
    let found = keeper.ask(identity, &replica)?;
    keeper.check(&found)?;
    drop(stamping_of(alloc, &folder, &archive, &keeper, found)?);
    asked.print(alloc, &archive, output, errors)
}

/// A folder and a replica whose plan a command asks for.
#[derive(Drop)]
struct PlanOfFolder<'a, F, R: Disk> {
    folder: &'a F,
    replica: &'a Replica<R>,
    command: &'a ReconcileCommand<'a>,
}

impl<F: EditedFolder, R: Disk> PlanOfFolder<'_, F, R> {
    /// Prints what is to be done of the folder and the replica, by what the archive has.
    fn print<A: Disk, O: Write, E: Write>(
        &self,
        alloc: Global,
        archive: &Archive<A>,
        output: &mut O,
        errors: &mut E,
    ) -> Result<Outcome, CommandError> {
        let PlanOfFolder {
            folder,
            replica,
            command,
        } = self;
        let (preference, when_empty) = (command.preference, when_empty(command));
        match plan(alloc, *folder, replica, archive, preference, when_empty) {
            Ok(compared) => print_compared(alloc, &compared, archive.tree(), output),
            Err(error) => Err(command_error_of(error, command, errors)),
        }
    }
}

/// The file of what a folder and the replica in the file last agreed on: the one that is named, or
/// else one beside the replica.
pub(crate) fn archive_name(
    alloc: Global,
    file: &str,
    named: Option<&str>,
) -> Result<String, AllocError> {
    match named {
        Some(name) => String::from_str(alloc, name),
        None => format!(in alloc; "{file}.folder"),
    }
}

/// The archive of that name, which no other process may open meanwhile. Where it is missing it is
/// made, for the pair.
pub(crate) fn archive_or_new<N: NamedDisks>(
    alloc: Global,
    disks: &N,
    name: &str,
    pair: u64,
) -> Result<Archive<N::Disk>, CommandError> {
    match disks.lock(name, Access::Write) {
        Err(error) if is_missing(&error) => {
            disks.make_archive(alloc, name, pair)?;
            archive_on(alloc, disks.lock(name, Access::Write)?)
        }
        locked => archive_on(alloc, locked?),
    }
}

/// Whether there is no file of the name.
fn is_missing(error: &OpenError) -> bool {
    match error {
        OpenError::System(error) => error.kind() == ErrorKind::NotFound,
        _ => false,
    }
}

/// An archive in memory, on which nothing is agreed.
fn empty_archive(alloc: Global, pair: u64) -> Result<Archive<MemDisk>, CommandError> {
    let disk = MemDisk::new(alloc, Vec::new(alloc))?;
    Archive::format(alloc, disk, pair).map_err(|(error, _)| CommandError::from(error))
}

/// What is done where one side has become empty.
fn when_empty(command: &ReconcileCommand<'_>) -> WhenEmpty {
    if command.is_emptied {
        WhenEmpty::Carry
    } else {
        WhenEmpty::Refuse
    }
}

/// Tells what stands in the folder and no replica can have.
fn tell_strangers<F: EditedFolder, E: Write>(folder: &F, errors: &mut E) {
    for stranger in folder.strangers() {
        let _ = writeln!(errors, "syn: skipped {stranger}");
    }
}

/// Tells what was taken away from the folder: what lies beside something else at its path, and,
/// where each thing that is done is told, the others, too.
fn tell_kept<E: Write>(kept: &[Kept], teller: &mut Teller<'_, E>) {
    for one in kept {
        if one.is_apart || teller.verbosity.each {
            let _ = writeln!(teller.errors, "syn: kept {one}");
        }
    }
}

/// Tells each item that was carried or marked, and counts all. What finds no memory is left out.
#[derive(Drop)]
struct ItemsTold<'t, 'e, E> {
    alloc: Global,
    planned: usize,
    settled: usize,
    teller: &'t mut Teller<'e, E>,
}

impl<E: Write> ItemWatch for ItemsTold<'_, '_, E> {
    fn planned(&mut self, items: usize) {
        self.planned = items;
    }

    fn settled(&mut self, one: &Settled) {
        self.settled = self.settled.saturating_add(1);
        let Ok(line) = item_line(self.alloc, one) else {
            return;
        };
        let (count, all) = (self.settled, self.planned);
        self.teller.tell(&line, count, all, "items are settled");
    }
}

/// What is told of an item: nothing where the report has it.
fn item_line(alloc: Global, one: &Settled) -> Result<String, AllocError> {
    let path = one.path();
    match one.settlement() {
        Settlement::Done => carried_line(alloc, path),
        Settlement::Marked => marked_line(alloc, path),
        Settlement::Conflict | Settlement::Refused(_) => Ok(String::new(alloc)),
    }
}

/// Prints how the reconciliation ended, a line of its numbers, and one for each conflict and each
/// refused item, in path order.
fn print_report<O: Write>(report: &Report, output: &mut O) -> io::Result<()> {
    let (conflicts, refused) = (report.conflicts(), report.refused());
    let end = if refused > 0 {
        "incomplete"
    } else {
        "complete"
    };
    writeln!(output, "reconcile {end}")?;
    let (done, marked) = (report.done(), report.marked());
    writeln!(
        output,
        "done {done} marked {marked} conflicts {conflicts} refused {refused}"
    )?;
    for settled in &report.settled {
        let path = settled.path();
        match settled.settlement() {
            Settlement::Conflict => writeln!(output, "conflict {path}")?,
            Settlement::Refused(why) => writeln!(output, "refused {} {path}", why.number())?,
            Settlement::Done | Settlement::Marked => {}
        }
    }
    Ok(())
}

/// What the report came to.
fn outcome_of(report: &Report) -> Outcome {
    if report.refused() > 0 {
        Outcome::Incomplete
    } else if report.conflicts() > 0 {
        Outcome::Conflicts
    } else {
        Outcome::Done
    }
}

/// The error of a command for why the folder and the replica are not reconciled. That a side is
/// empty is told in a line, since its number alone says too little.
fn command_error_of<E: Write>(
    error: ReconcileError,
    command: &ReconcileCommand<'_>,
    errors: &mut E,
) -> CommandError {
    match error {
        ReconcileError::Empty(side) => {
            let empty = match side {
                Side::Left => command.folder,
                Side::Right => command.file,
            };
            let _ = writeln!(
                errors,
                "syn: {empty} is empty or missing, and was not: --emptied empties the other, too"
            );
            CommandError::Refused(error.refusal())
        }
        ReconcileError::Unready(why) => {
            let folder = command.folder;
            let _ = writeln!(
                errors,
                "syn: {folder}/.syn/folder, or what is known beside the marks, cannot be written: \
                    nothing was changed"
            );
            CommandError::Refused(why)
        }
        ReconcileError::Replica(error) => CommandError::Replica(error),
        ReconcileError::Archive(error) => CommandError::Archive(error),
        ReconcileError::TooMany | ReconcileError::OtherPair | ReconcileError::Unplanned(_) => {
            CommandError::Refused(error.refusal())
        }
        ReconcileError::Memory => CommandError::Memory,
    }
}
