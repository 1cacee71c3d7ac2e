//! A world of three machines, two sides and a coordinator, and what each kind of step does to it.
//!
//! Each machine is up or down (`side`, `coordinator`).
//!
//! # What it promises
//!
//! A `World` has two sides and a coordinator, and lists of what was heard.
//!
//! - `IsWorld world model`: the machines are the model's (`RunsMachines`), and so are the lists
//!   (`IsListed`), and no step was refused 11. An acknowledged event is compared by its spelling.
//! - `sent`, `acknowledged`, `refusals`, `reports`, `replica` and `archive` are what a world shows
//!   (`sent_in` and so on). Nothing of it is set but by steps.
//! - `step` takes any `Step`: for every model world that it was there is a step of the definitions
//!   to one that it is then (`StepsSo`). It is refused 11 where a list cannot grow, or for a copy
//!   of what it hands over, though no clause says when. The machines are then as that step of the
//!   definitions leaves them, or as they were (`HasTried`). Each later step is refused 11, and
//!   changes nothing (`again`).
//! - No machine counts more failed calls in a step than its disk (`FailWithDisks`), and so none in
//!   a run. So where no call of a disk failed, no step of its machine is refused 9.
//! - Each reply in the lists can be sent (`lawful` of `IsListed`): its bytes or entries are not too
//!   many, and the names of a listing rise.
//! - An opening acknowledges the event or the record that was being written, where the disk has it.
//! - `into_disks` stops each machine that is up, and gives the disks. Whatever a stop may leave on
//!   each may be its machine's (`left`). Nothing is armed at them (`free`), and a world may run
//!   from them again (`again`: `MayRun`).
//! - `World::open` opens a world from three disks of a pair with nothing armed (`StandFor`). It is
//!   then a start of a run from what the disks show (`opened`), and is refused 9 or 11 alone
//!   (`refused`). On a refusal nothing new may be left on a disk (`back`).
//! - Of any disks: what it opens is of one pair (`pair`), and a refusal has the cause of the first
//!   disk that is refused (`cause`: `RefusesDisks`). The disks count more failed calls than before
//!   exactly where it is refused 9, and each as many where it succeeds (`failures`).
//! - `run`, `recover` and the world itself keep the promise of a run, which is one record
//!   (`Promised` of `syn_promise`). After `run` it is of what the world shows, and of whatever a
//!   stop may then leave on its disks (`KeepsPromise`); where memory was refused in between, of the
//!   steps until then (`KeepPart`). `into_disks` hands this on to the disks (`LeavePromised`), and
//!   `recover` says it of what a world holds that was opened from them (`HoldsAsPromised`).
//!   `World::promise` says it of a world that went by steps of its caller.
//! - Beside the promise stands the exact run (`IsRun`): the world was opened from the disks, went
//!   by the steps of the definitions, and is this one. The laws of runs (`run_laws` and
//!   `session_laws` of `syn_runs`, `promise` of `syn_promise`, `disk_laws`) say of it what the
//!   promise does not. `run` makes one (`RunsFrom`), or the disks come back where nothing was
//!   opened (`IsNotOpened`), or after a first part of the steps where memory was refused
//!   (`IsCutShort`). Of any disks: those of no pair come back (`back`).
//! - What the laws say of the bytes of three disks stands in `CrashSafety.antt`. Those of a pair
//!   are a start of a run (`DisksAreStart`). An archive that `Archive::format_after` left makes
//!   such disks with any two replicas of its pair that have begun no later session
//!   (`following_laws`: `MeetPremise`). What the code owes beside its steps is one invariant,
//!   `MayBeLeft`: whatever a stop may leave on the three disks may be of their machines then. So
//!   it stands for what was acknowledged, with the change that each machine was making, or without
//!   it (`RunsRecover`). The invariant rests on what a replica and an archive say of any moment of
//!   a call: what is kept, the bytes that are left and the generation.
//! - `recover` opens a world from what a stop might have left on the disks, whatever that stands
//!   for (`OpensAgain`). Of any disks it says `pair`, `cause` and `failures`, as `World::open`
//!   does.
//!
//! # One machine
//!
//! A machine is a `SideHost` or a `CoordinatorHost`. It is up, halted where a device call failed,
//! or down with its disk alone. The disk is any `SimulatedDisk`, such as `Cut<MemDisk>`: it can be
//! told to fail or stop, and is found again after a stop.
//!
//! - `RunsAs`: a side that is up is a machine that is not down (`IsOf` of `syn_agent`). Nothing is
//!   being written while it is up, and what was being written as its device failed is what was sent
//!   to the disk last.
//! - `RestsAs`: a side that is down has the disk as a stop left it, with nothing armed. It keeps
//!   how many events were acknowledged, and what was sent to the disk last.
//! - `IsHost`, `IsCoordinator`: a side or a coordinator, up or down, is the machine.
//! - `SideHost` has the steps of a side: `edit`, `answer`, `checkpoint`, `open`, `reopen`, `fail`,
//!   `stop`. Each is a step of any machine that the side is, and says what came of it
//!   (`SideOutcome`, `IsStep`). The step is one of the model's machine (`UserEdits`, `Does`,
//!   `Answers`).
//! - `CoordinatorHost` has those of the coordinator: `start`, `hear`, `tick`, `checkpoint`, `open`,
//!   `reopen`, `fail`, `stop` (`CallIsStep`, `OpeningIsStep`). `CoordinatorOutcome` has what came
//!   of a call: what was kept, what was sent, the report of a session that ended in it, and a
//!   refusal (`Tells`). Where the machine stopped in the call, nothing is told but what was kept
//!   before (`Settles`).
//! - An opening acknowledges what was being written, where the disk has it (`OpensDown`,
//!   `Reopens`).
//! - `start_side` and `start_coordinator` open the disk of a machine of which nothing is known. Of
//!   a disk that stands for something, with nothing armed at it (`CanStart`), they make the machine
//!   that was just opened from it (`starts`), and refuse 9 or 11 alone (`refused`). On a refusal
//!   nothing new may be left on the disk (`left`). Of any disk they say what it holds (`holds`,
//!   `wanted`), or the cause of the refusal that lies in it (`cause`), and that 9 comes with a
//!   failed call (`failures`).
//! - A machine counts no more failed calls in a call than its disk does (`counts`: `CountsNoMore`).
//! - `into_disk` gives the disk of a machine, up or down (`side_disk`, `archive_disk`). Whatever a
//!   stop may leave on it may be the machine's (`left`).
#![tactic(auto)]

mod coordinator;
mod copies;
mod disk;
mod headline;
mod laws;
mod lists;
mod machine;
mod opening;
mod outcome;
mod promise;
mod replies;
mod running;
mod side;
mod step;
mod world;

pub use coordinator::{
    CoordinatorCall, CoordinatorHost, CoordinatorOpening, DownCoordinator, start_coordinator,
};
pub use disk::SimulatedDisk;
pub use headline::{recover, run};
pub use laws::{disk_laws, following_laws};
pub use lists::{Ack, Message};
pub use machine::Machine;
pub use outcome::{CoordinatorOutcome, SideOutcome};
pub use side::{DownSide, SideAnswer, SideCall, SideHost, UpSide, start_side};
pub use step::Step;
pub use world::{Disks, World};
