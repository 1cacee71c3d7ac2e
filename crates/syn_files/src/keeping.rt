//! Two servers that are kept the same: a session runs whenever one of them has changed.

use crate::asking::{Addresses, ask_both, is_older};
use crate::named::{NamedDisks, archive_in};
use crate::pairs::PairKeeper;
use crate::sessions::{KeptAtEnd, progress_for, reported, sync_sides};
use crate::upkeep::shorten_archive;
use std::alloc::{AllocError, Global};
use std::io::{self, ErrorKind, Write};
use std::net::{Net, TcpListener, TcpStream};
use std::thread;
use std::time::{Clock, Duration};
use syn_cli::KeepCommand;
use syn_command::{CommandError, Outcome, Teller};
use syn_coordinator::Coordinator;
use syn_daemon::{Sides, reach};
use syn_disk::Disk;
use syn_image::Kept;
use syn_message::{Reply, ReplyMessage};
use syn_pair::LAST_PLACE;
use syn_path::{Path, Side};
use syn_print::show_report;
use syn_refusal::Refusal;
use syn_session::{End, Report, SettledItems};
use syn_sync::{SessionWatch, tell_unreached};
use syn_user::UserConnection;

/// Runs a session of the command's servers, and another one each time that a side has changed
/// since. It looks every so many seconds, at least one, and an idle pair is written nothing. A
/// report is printed where something was done, or where other items are refused or in conflict than
/// after the session before; also where memory was refused to keep which those were. A side that
/// cannot be reached is told once, and tried again.
///
/// It goes on as long as the process. Refused as an opening of the archive is, 9 where its device
/// fails or the output cannot be written, 12, 14 and 20 where the sides and the archive do not
/// belong together, 20 where a server is of an older version, and as `sync` is.
pub fn keep_servers<H, N, O, E>(
    rt: &H,
    alloc: Global,
    disks: &N,
    command: &KeepCommand<'_>,
    output: &mut O,
    teller: &mut Teller<'_, E>,
) -> Result<Outcome, CommandError>
where
    H: Net<Listener = TcpListener, Stream = TcpStream> + Clock,
    N: NamedDisks,
    O: Write,
    E: Write,
{
    let archive = archive_in(alloc, disks, command.archive)?;
    let pair = PairKeeper::open(alloc, disks, command.archive)?;
    let coordinator = Coordinator::new(alloc, archive);
    if !teller.verbosity.each {
        let mut watch = UnreachedOnly(&mut *teller.errors);
        return keep(rt, alloc, coordinator, pair, command, &mut watch, output);
    }
    let mut watch = progress_for(alloc, teller);
    keep(rt, alloc, coordinator, pair, command, &mut watch, output)
}

/// Tells which side cannot be reached, and nothing else.
#[derive(Drop)]
struct UnreachedOnly<'e, E>(&'e mut E);

impl<E: Write> SessionWatch for UnreachedOnly<'_, E> {
    fn unreached(&mut self, side: Side, why: &io::Error) {
        tell_unreached(self.0, side, why);
    }

    fn heard(&mut self, _from: Side, _answered: &ReplyMessage) -> bool {
        true
    }

    fn settled(&mut self, _settled: &SettledItems<'_>, _kept: &[Kept]) {}

    fn ended(&mut self, _report: &Report) {}
}

/// Counts the events that a session adds to each side: its begin and its replacements. Notes, too,
/// whether it could not run for want of a side.
#[derive(Drop)]
struct PositionCounter<'w, V> {
    watch: &'w mut V,
    /// The position of each side after what the session has added to it so far.
    left: u64,
    right: u64,
    /// Whether a side could not be reached.
    is_unreached: bool,
}

impl<V: SessionWatch> SessionWatch for PositionCounter<'_, V> {
    fn unreached(&mut self, side: Side, why: &io::Error) {
        self.is_unreached = true;
        self.watch.unreached(side, why);
    }

    fn heard(&mut self, from: Side, answered: &ReplyMessage) -> bool {
        let after = match from {
            Side::Left => &mut self.left,
            Side::Right => &mut self.right,
        };
        match answered.reply {
            Reply::Begun { position } => *after = position,
            Reply::Done => *after = after.saturating_add(1),
            _ => {}
        }
        self.watch.heard(from, answered)
    }

    fn settled(&mut self, settled: &SettledItems<'_>, kept: &[Kept]) {
        self.watch.settled(settled, kept);
    }

    fn ended(&mut self, report: &Report) {
        self.watch.ended(report);
    }
}

/// What a session has left undone: its conflicts, its refused items, and what ended it early.
#[derive(Drop)]
struct Unfinished {
    conflicts: Vec<Path>,
    refused: Vec<(Refusal, Path)>,
    ended: Option<Refusal>,
}

impl Unfinished {
    /// Nothing is left undone.
    fn nothing(alloc: Global) -> Unfinished {
        Unfinished {
            conflicts: Vec::new(alloc),
            refused: Vec::new(alloc),
            ended: None,
        }
    }

    /// What the session of the report has left undone. Refused where memory is refused.
    fn left_by(alloc: Global, report: &Report) -> Result<Unfinished, AllocError> {
        Ok(Unfinished {
            conflicts: copy_paths(alloc, &report.conflicts)?,
            refused: copy_refused(alloc, &report.refused)?,
            ended: report.ended,
        })
    }

    /// The session of the report has left the same undone.
    fn is_left_by(&self, report: &Report) -> bool {
        self.conflicts == report.conflicts
            && self.refused == report.refused
            && self.ended == report.ended
    }
}

/// A copy of the paths.
fn copy_paths(alloc: Global, paths: &[Path]) -> Result<Vec<Path>, AllocError> {
    let mut copies = Vec::new(alloc);
    for path in paths {
        copies.push(path.copy(alloc)?)?;
    }
    Ok(copies)
}

/// A copy of the refused items.
fn copy_refused(
    alloc: Global,
    refused: &[(Refusal, Path)],
) -> Result<Vec<(Refusal, Path)>, AllocError> {
    let mut copies = Vec::new(alloc);
    for (why, path) in refused {
        copies.push((*why, path.copy(alloc)?))?;
    }
    Ok(copies)
}

/// What is known since the last session.
#[derive(Drop)]
struct SinceLastSession {
    /// The positions of both sides after it, where it was complete.
    positions: Option<(u64, u64)>,
    /// What it left undone; none where memory was refused to keep that.
    unfinished: Option<Unfinished>,
    /// Whether it was told that a side cannot be reached.
    is_told: bool,
}

/// Runs a session whenever a side has changed.
fn keep<H, D, N, V, O>(
    rt: &H,
    alloc: Global,
    mut coordinator: Coordinator<D>,
    mut pair: PairKeeper<'_, N>,
    command: &KeepCommand<'_>,
    watch: &mut V,
    output: &mut O,
) -> Result<Outcome, CommandError>
where
    H: Net<Listener = TcpListener, Stream = TcpStream> + Clock,
    D: Disk + Drop,
    N: NamedDisks,
    V: SessionWatch,
    O: Write,
{
    let mut servers = PolledServers {
        left: PolledServer::new(command.left),
        right: PolledServer::new(command.right),
    };
    let mut keeper = Keeper {
        rt,
        alloc,
        command,
        since: SinceLastSession {
            positions: None,
            unfinished: Some(Unfinished::nothing(alloc)),
            is_told: false,
        },
    };
    let ended = keeper.keep(&mut coordinator, &mut pair, &mut servers, watch, output);
    drop(keeper);
    drop(pair);
    drop(servers);
    drop(coordinator);
    ended?;
    Ok(Outcome::Done)
}

/// What keeps two servers the same: what it runs with, and what it knows since the last session.
#[derive(Drop)]
struct Keeper<'h, 'a, 'c, H> {
    rt: &'h H,
    alloc: Global,
    command: &'a KeepCommand<'c>,
    since: SinceLastSession,
}

impl<H> Keeper<'_, '_, '_, H>
where
    H: Net<Listener = TcpListener, Stream = TcpStream> + Clock,
{
    /// Looks at both sides every so many seconds, and runs a session where one has changed.
    fn keep<D: Disk, N: NamedDisks, V: SessionWatch, O: Write>(
        &mut self,
        coordinator: &mut Coordinator<D>,
        keeper: &mut PairKeeper<'_, N>,
        servers: &mut PolledServers<'_>,
        watch: &mut V,
        output: &mut O,
    ) -> Result<(), CommandError> {
        for _round in 0..u64::MAX {
            if let Some(found) = self.positions(servers, watch)? {
                if self.since.positions != Some(found) {
                    self.run_session(coordinator, keeper, watch, output)?;
                }
            }
            thread::sleep(self.rt, Duration::from_secs(self.command.seconds.max(1)));
        }
        Ok(())
    }

    /// The addresses of both servers.
    fn addresses(&self) -> Addresses<'_> {
        Addresses {
            left: self.command.left,
            right: self.command.right,
        }
    }

    /// The positions of both sides. A side that cannot be reached is told, unless that was told
    /// since both were reached last.
    ///
    /// Refused 20 where a server is of an older version.
    fn positions<V: SessionWatch>(
        &mut self,
        servers: &mut PolledServers<'_>,
        watch: &mut V,
    ) -> Result<Option<(u64, u64)>, CommandError> {
        let (side, address, error) = match servers.left.position(self.rt, self.alloc) {
            Ok(left) => match servers.right.position(self.rt, self.alloc) {
                Ok(right) => {
                    self.since.is_told = false;
                    return Ok(Some((left, right)));
                }
                Err(error) => (Side::Right, self.command.right, error),
            },
            Err(error) => (Side::Left, self.command.left, error),
        };
        if is_older(self.rt, self.alloc, address) {
            return Err(CommandError::OlderServer(side));
        }
        if !self.since.is_told {
            watch.unreached(side, &error);
            self.since.is_told = true;
        }
        Ok(None)
    }

    /// Runs one session, prints its report where that says something new, and keeps what is then
    /// known. Where a side cannot be reached, `sync` has told it, and the next look tries again; a
    /// connection that is lost in the session ends it 25.
    fn run_session<D: Disk, N: NamedDisks, V: SessionWatch, O: Write>(
        &mut self,
        coordinator: &mut Coordinator<D>,
        keeper: &mut PairKeeper<'_, N>,
        watch: &mut V,
        output: &mut O,
    ) -> Result<(), CommandError> {
        let mut counter = PositionCounter {
            watch: &mut *watch,
            left: 0,
            right: 0,
            is_unreached: false,
        };
        let went = self.sync(coordinator, keeper, &mut counter);
        let after = (counter.left, counter.right);
        if counter.is_unreached {
            self.since.positions = None;
            self.since.is_told = true;
            return Ok(());
        }
        let Some(kept) = went? else {
            return Ok(());
        };
        let report = reported(coordinator)?;
        watch.ended(report);
        self.print_news(report, output)?;
        self.since = SinceLastSession {
            positions: (report.end == End::Complete).then_some(after),
            unfinished: Unfinished::left_by(self.alloc, report).ok(),
            is_told: false,
        };
        shorten_archive(self.alloc, coordinator);
        kept
    }

    /// Runs one session, where no side is halted: such a one is left alone until it is opened
    /// again, so that no number is taken. None where none ran.
    fn sync<D: Disk, N: NamedDisks, V: SessionWatch>(
        &self,
        coordinator: &mut Coordinator<D>,
        keeper: &mut PairKeeper<'_, N>,
        watch: &mut V,
    ) -> Result<Option<KeptAtEnd>, CommandError> {
        let (alloc, command) = (self.alloc, self.command);
        let sides = Sides::reach(self.rt, command.left, command.right, &mut *watch)?;
        let (addresses, known) = (self.addresses(), keeper.known());
        let found = ask_both(self.rt, alloc, addresses, &sides, known, &mut *watch)?;
        if found.left.status.halted || found.right.status.halted {
            return Ok(None);
        }
        let kept = sync_sides(
            alloc,
            coordinator,
            keeper,
            &sides,
            found,
            command.preference,
            watch,
        )?;
        Ok(Some(kept))
    }

    /// Prints the report of a session that did something, or left other things undone than the one
    /// before. Where it is not known what that one left, the report is printed, too.
    fn print_news<O: Write>(&self, report: &Report, output: &mut O) -> Result<(), CommandError> {
        let leaves_same = match &self.since.unfinished {
            Some(unfinished) => unfinished.is_left_by(report),
            None => false,
        };
        if report.done > 0 || report.marked > 0 || !leaves_same {
            show_report(self.alloc, report, output)?;
            output.flush()?;
        }
        Ok(())
    }
}

/// Both servers, as they are polled.
#[derive(Drop)]
struct PolledServers<'a> {
    left: PolledServer<'a>,
    right: PolledServer<'a>,
}

/// A server that is asked for its position again and again, over one connection as long as that
/// lasts: so neither its log nor its count of connections grows by a look.
#[derive(Drop)]
struct PolledServer<'a> {
    address: &'a str,
    connection: Option<UserConnection<TcpStream, TcpStream>>,
}

impl<'a> PolledServer<'a> {
    /// The server at the address, which was not asked yet.
    fn new(address: &'a str) -> PolledServer<'a> {
        PolledServer {
            address,
            connection: None,
        }
    }

    /// The position of the replica that is served there. A connection that has ended since the last
    /// look is opened again.
    fn position<H: Net<Stream = TcpStream>>(&mut self, rt: &H, alloc: Global) -> io::Result<u64> {
        if let Some(connection) = &mut self.connection {
            if let Ok((_, status)) = connection.status(alloc, LAST_PLACE) {
                return Ok(status.position);
            }
            self.connection = None;
        }
        let reader = reach(rt, self.address)?;
        let writer = reader.try_clone()?;
        let mut connection = UserConnection::new(alloc, reader, writer);
        match connection.status(alloc, LAST_PLACE) {
            Ok((_, status)) => {
                self.connection = Some(connection);
                Ok(status.position)
            }
            Err(_) => Err(io::Error::from(ErrorKind::ConnectionAborted)),
        }
    }
}
