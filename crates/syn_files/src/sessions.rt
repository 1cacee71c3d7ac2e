//! Sessions of images that have names, and of served replicas.
ghost use Rattle.syn_coordinator.specs.Coordinators.{archive_of};
ghost use Rattle.syn_daemon.specs.Sessions.{BelongTo};

use crate::asking::{Addresses, ask_both};
use crate::named::{NamedDisks, archive_in};
use crate::pairs::{BegunWatch, PairKeeper};
use crate::side_by_side::{Images, images_on, status_of_images};
use crate::upkeep::{shorten, shorten_archive};
use log::sink::Discard;
use log::{LevelFilter, Log, Logged};
use std::alloc::Global;
use std::io::Write;
use std::net::{Net, TcpListener, TcpStream};
use std::sync::Wait;
use std::thread::Threads;
use std::time::Clock;
use syn_archive::Archive;
use syn_cli::{Between, Pairing};
use syn_command::{CommandError, Outcome, SessionProgress, Teller, outcome_of};
use syn_coordinator::Coordinator;
use syn_daemon::{NoPauses, Sides, run, sync};
use syn_disk::{Access, Disk};
use syn_pair::{Belonging, KnownSides, LAST_PLACE, SideStatus};
use syn_path::Side;
use syn_print::show_report;
use syn_refusal::Refusal;
use syn_replica::Replica;
use syn_session::Report;
use syn_shared::SharedReplica;
use syn_sync::{SessionWatch, Unwatched};

/// Runs a session of the replicas and their archive, prints its report, and answers what it came
/// to. Each item is told, and with the items their counts, as the teller is to.
///
/// Before a session's number is taken, both sides are asked where they are in their histories. It
/// is kept beside the archive which of them have begun, before anything is listed, and where they
/// are as the session ends.
///
/// Refused as an opening of a disk is: of files left first and the archive last, and of servers the
/// archive before an address is tried. Refused 9 where an address cannot be reached, or where
/// nothing can be kept beside the archive; 12, 14 and 20 where the sides and the archive do not
/// belong together (`check_pair`); and as the start of a session is.
pub fn run_session<H, N, O, E>(
    rt: &H,
    alloc: Global,
    disks: &N,
    pairing: Pairing<'_>,
    output: &mut O,
    teller: &mut Teller<'_, E>,
) -> Result<Outcome, CommandError>
where
    H: Net<Listener = TcpListener, Stream = TcpStream> + Threads + Wait + Clock + Copy + Sync,
    N: NamedDisks,
    O: Write,
    E: Write,
{
    if !teller.verbosity.each {
        return run_watched(rt, alloc, disks, pairing, &mut Unwatched, output);
    }
    let mut watch = progress_for(alloc, teller);
    run_watched(rt, alloc, disks, pairing, &mut watch, output)
}

/// Tells each item of a session, and their counts where these are wanted.
pub(crate) fn progress_for<'e, E: Write>(
    alloc: Global,
    teller: &'e mut Teller<'_, E>,
) -> SessionProgress<&'e mut E> {
    if teller.verbosity.counts {
        SessionProgress::with_counts(alloc, &mut *teller.errors)
    } else {
        SessionProgress::new(alloc, &mut *teller.errors)
    }
}

/// Runs a session of the replicas and their archive that is watched, and prints its report.
fn run_watched<'a, H, N, V, O>(
    rt: &'a H,
    alloc: Global,
    disks: &'a N,
    pairing: Pairing<'a>,
    watch: &'a mut V,
    output: &'a mut O,
) -> Result<Outcome, CommandError>
where
    H: Net<Listener = TcpListener, Stream = TcpStream> + Threads + Wait + Clock + Copy + Sync,
    N: NamedDisks,
    V: SessionWatch,
    O: Write,
{
    let mut run = WatchedRun {
        rt,
        alloc,
        disks,
        archive: pairing.archive,
        preference: pairing.preference,
        watch,
        output,
    };
    match pairing.between {
        Between::Servers { left, right } => {
            let archive = archive_in(alloc, disks, pairing.archive)?;
            run.between_servers(left, right, archive)
        }
        Between::Files { left, right } => {
            let left_disk = disks.lock(left, Access::Write);
            let right_disk = disks.lock(right, Access::Write);
            let archive = disks.lock(pairing.archive, Access::Write);
            let images = images_on(rt, alloc, left_disk, right_disk, archive)?;
            run.between_images(left, right, images)
        }
    }
}

/// The run of one session: what it runs with, the archive's name, who watches it, and where its
/// report goes.
#[derive(Drop)]
struct WatchedRun<'a, H, N, V, O> {
    rt: &'a H,
    alloc: Global,
    disks: &'a N,
    archive: &'a str,
    preference: Option<Side>,
    watch: &'a mut V,
    output: &'a mut O,
}

impl<H, N, V, O> WatchedRun<'_, H, N, V, O>
where
    H: Net<Listener = TcpListener, Stream = TcpStream> + Threads + Wait + Clock + Copy + Sync,
    N: NamedDisks,
    V: SessionWatch,
    O: Write,
{
    /// Runs it between the replicas that are served at these addresses.
    fn between_servers<D: Disk + Drop>(
        &mut self,
        left: &str,
        right: &str,
        archive: Archive<D>,
    ) -> Result<Outcome, CommandError> {
        let alloc = self.alloc;
        let mut keeper = PairKeeper::open(alloc, self.disks, self.archive)?;
        let sides = Sides::reach(self.rt, left, right, &mut *self.watch)?;
        let (addresses, known) = (Addresses { left, right }, keeper.known());
        let found = ask_both(self.rt, alloc, addresses, &sides, known, &mut *self.watch)?;
        let mut coordinator = Coordinator::new(alloc, archive);
        let went = sync_sides(
            alloc,
            &mut coordinator,
            &mut keeper,
            &sides,
            found,
            self.preference,
            &mut *self.watch,
        );
        let told = self.print(went, &coordinator);
        shorten_archive(alloc, &mut coordinator);
        drop(coordinator);
        told
    }

    /// Runs it between replicas that are open, and have these names.
    fn between_images<D: Disk + Drop + Send>(
        &mut self,
        left: &str,
        right: &str,
        images: Images<D>,
    ) -> Result<Outcome, CommandError> {
        let mut keeper = PairKeeper::open(self.alloc, self.disks, self.archive)?;
        let found = status_of_images(
            self.alloc,
            self.disks,
            Access::Write,
            (left, right),
            &images,
            &keeper,
        )?;
        let belonging = keeper.check(&images.archive, &found)?;
        let Images {
            left,
            right,
            archive,
        } = images;
        let left = shared(self.alloc, left)?;
        let right = shared(self.alloc, right)?;
        self.between_shared(&left, &right, archive, &mut keeper, found, belonging)
    }

    /// Serves both replicas on loopback ports as long as the session between them runs. The servers
    /// log nothing.
    fn between_shared<D: Disk + Drop + Send>(
        &mut self,
        left: &SharedReplica<D>,
        right: &SharedReplica<D>,
        archive: Archive<D>,
        keeper: &mut PairKeeper<'_, N>,
        found: KnownSides,
        belonging: Belonging,
    ) -> Result<Outcome, CommandError>
        requires { BelongTo archive belonging }
    {
        let quiet = Logged::new(*self.rt, LevelFilter::Off, Discard);
        let (mut coordinator, went) = run_sides(
            &quiet,
            self.alloc,
            (left, right),
            Coordinator::new(self.alloc, archive),
            keeper,
            (found, belonging),
            self.preference,
            &mut *self.watch,
        );
        let told = self.print(went, &coordinator);
        shorten(self.alloc, left);
        shorten(self.alloc, right);
        shorten_archive(self.alloc, &mut coordinator);
        drop(coordinator);
        told
    }

    /// Prints the report of the session, which went so, and answers what it came to. Where it could
    /// not be kept as it ended where both sides are, that is refused after the report.
    fn print<D: Disk>(
        &mut self,
        went: Result<KeptAtEnd, CommandError>,
        coordinator: &Coordinator<D>,
    ) -> Result<Outcome, CommandError> {
        let kept = went?;
        let report = reported(coordinator)?;
        self.watch.ended(report);
        show_report(self.alloc, report, self.output)?;
        kept?;
        Ok(outcome_of(report))
    }
}

/// The replica under a lock. Refused 11 where memory is refused.
pub(crate) fn shared<D: Disk + Drop>(
    alloc: Global,
    replica: Replica<D>,
) -> Result<SharedReplica<D>, CommandError> {
    SharedReplica::new(alloc, replica).map_err(|_| CommandError::Memory)
}

/// The report of the session that ended last. Each that ended has one.
pub(crate) fn reported<D: Disk>(coordinator: &Coordinator<D>) -> Result<&Report, CommandError> {
    let report = coordinator.report();
    report.ok_or(CommandError::Refused(Refusal::NoAnswer))
}

/// Whether it was kept, as a session ended, where both sides are. Where it was not, the session has
/// a report all the same.
pub(crate) type KeptAtEnd = Result<(), CommandError>;

/// Runs one session with servers that answered so, where they belong to the archive, and keeps
/// where they are as it ends. Of a side that does not answer then, what was kept as it began stays.
///
/// Refused as `PairKeeper::check` is, 9 where it could not be kept that both have begun, and as
/// `sync` is.
pub(crate) fn sync_sides<D: Disk, N: NamedDisks, V: SessionWatch>(
    alloc: Global,
    coordinator: &mut Coordinator<D>,
    keeper: &mut PairKeeper<'_, N>,
    sides: &Sides,
    found: KnownSides,
    preference: Option<Side>,
    watch: &mut V,
) -> Result<KeptAtEnd, CommandError> {
    let belonging = keeper.check(coordinator.archive(), &found)?;
    let mut begun = BegunWatch::new(watch, &*keeper, found);
    let went = sync(alloc, coordinator, sides, belonging, preference, &mut begun);
    let kept = match begun.into_found()? {
        None => Ok(()),
        Some(KnownSides { left, right }) => keeper.learn(KnownSides {
            left: sides.ask(alloc, Side::Left, None).unwrap_or(left),
            right: sides.ask(alloc, Side::Right, None).unwrap_or(right),
        }),
    };
    went?;
    Ok(kept)
}

/// Runs one session between replicas that were found so and belong to the archive, and keeps where
/// they are as it ends. The coordinator comes back.
///
/// Refused 9 where it could not be kept that both have begun, and as `run` is.
fn run_sides<H, D, N, V>(
    rt: &H,
    alloc: Global,
    replicas: (&SharedReplica<D>, &SharedReplica<D>),
    coordinator: Coordinator<D>,
    keeper: &mut PairKeeper<'_, N>,
    checked: (KnownSides, Belonging),
    preference: Option<Side>,
    watch: &mut V,
) -> (Coordinator<D>, Result<KeptAtEnd, CommandError>)
where
    H: Net<Listener = TcpListener, Stream = TcpStream> + Threads + Wait + Clock + Log + Sync,
    D: Disk + Drop + Send,
    N: NamedDisks,
    V: SessionWatch,
    requires { BelongTo (archive_of coordinator) checked.1 }
{
    let (left, right) = replicas;
    let (found, belonging) = checked;
    let pauses = NoPauses;
    let mut begun = BegunWatch::new(watch, &*keeper, found);
    let (coordinator, went) = run(
        rt,
        alloc,
        left,
        right,
        coordinator,
        belonging,
        &pauses,
        &pauses,
        preference,
        &mut begun,
    );
    let kept = match begun.into_found() {
        Ok(None) => Ok(Ok(())),
        Ok(Some(begun)) => Ok(keeper.learn(after_run(rt, alloc, left, right, begun))),
        Err(error) => Err(error),
    };
    match went {
        Ok(()) => (coordinator, kept),
        Err(refusal) => (coordinator, Err(CommandError::from(refusal))),
    }
}

/// Where both replicas are as the session between them ends. Where memory is refused, what was kept
/// as it began stays.
fn after_run<H: Wait, D: Disk>(
    rt: &H,
    alloc: Global,
    left: &SharedReplica<D>,
    right: &SharedReplica<D>,
    begun: KnownSides,
) -> KnownSides {
    KnownSides {
        left: status_after(rt, alloc, left, begun.left),
        right: status_after(rt, alloc, right, begun.right),
    }
}

/// The same of one.
fn status_after<H: Wait, D: Disk>(
    rt: &H,
    alloc: Global,
    replica: &SharedReplica<D>,
    begun: SideStatus,
) -> SideStatus {
    let Ok(mut pass) = replica.own().pass() else {
        return begun;
    };
    match replica.status(rt, alloc, &mut pass, LAST_PLACE) {
        Ok(status) => SideStatus {
            identity: begun.identity,
            status,
        },
        Err(_) => begun,
    }
}
