//! Scripts that are played on a world of three machines in memory, and what is printed of them.
//!
//! # Scripts
//!
//! A script is a text with one step a line. The words of a line are parted by one space. SIDE is
//! `left` or `right`, M is a SIDE or `coordinator`, and numbers are decimal digits alone. An empty
//! line, or one that begins with `#`, says nothing.
//!
//! - `edit SIDE USER put PATH TEXT`, where TEXT is the rest of the line, and may be missing
//! - `edit SIDE USER mkdir PATH`, `edit SIDE USER rm PATH`
//! - `edit SIDE USER chmod PATH MODE`, where MODE is three octal digits
//! - `start`, `start prefer SIDE`, `tick`, `drain`
//! - `deliver A`, `deliver A B`
//! - `checkpoint M`, `open M`, `reopen M`
//! - `fail M J`: the J-th device call of M from now on fails; with 0 none does
//! - `stop M J MODE`: M makes J device calls more, and is then down. What it had not synced is lost
//!   on its disk (`lose`), is there (`keep`), or is bytes of no meaning (`noise`)
//!
//! - `Script::parse` answers the steps that the lines of a text say, in their order (`ok`). A line
//!   is a step by `Say`, a table of its words.
//! - Otherwise it answers the number of the first line that is none, from 1 (`bad`), or 11
//!   (`memory`).
//!
//! # What it promises
//!
//! - `formatted_world` formats three disks in memory and opens the world of pair 1 from them. The
//!   disks stand for two replicas with no events and an archive with no session, with nothing
//!   armed, and the world is opened from what they show (`opened`, `StartsFormatted`). It is
//!   refused 9 or 11 alone (`refused`). What a stop leaves of a disk is not told: that each list of
//!   leaves reaches its disk is shown by tests.
//! - `play` answers the player after a script. Its lines say steps (`SaySteps`), and playing these
//!   leads a world of pair 1 that was just formatted to the player's, by a run of the definitions
//!   (`run`, `RunsScript`, `LeadsTo`), which keeps its promise (`promised` there). It is refused
//!   with the number of the first line that says no step, or 9 or 11 alone (`refused`, `IsNoRun`).
//! - `simulate` answers that player's world, and is refused as `play` is (`run`, `refused`).
//! - `show_world` works over any disks and any writer. Where it answers, just the lines of
//!   `world_shown` were added: of each session that ended, and of each machine's image, or that it
//!   is down.
//! - `draw_chart` draws what happened as a script was played, from the turns that the player noted
//!   and from what its world heard. A chart is for the eye alone, so no clause says what it shows.
//!   Tests do, to the byte.
//!
//! # The player
//!
//! A `Player` is a world with a note of which messages were delivered. For every `State` that it is
//! (`IsPlayer`), each call leads to a state of the definitions by a run of steps (`Runs`), and the
//! player is then that state.
//!
//! - `step` makes one step of the world (`plays`). A message that it delivers is noted (`Goes`,
//!   `noted`); a number that was never sent is not, since that message may still come.
//! - It adds one turn (`turns`): how long each list of the world was before it, which machines were
//!   up, and the message that it delivers (`turn_of`). `turns` are all that were played
//!   (`turns_of`).
//! - `deliver_all` plays the steps that deliver the first number to the last, in rising order
//!   (`deliveries`). A number that was not sent when its turn comes does nothing.
//! - `drain` delivers the lowest number that is left, again and again (`DeliversLowest`), at most
//!   `MOST_DRAINED` times. Where it delivered fewer, none is left (`Drains`, `NoneIsLeft`).
//! - `play` plays what a line says (`said`): one step, such deliveries, or a draining. What a stop
//!   leaves on a disk is the disk's own concern.
//! - `play_all` plays lines one after another (`PlaysAll`).
//! - Where memory is refused, the disks come back as the first of the steps left them (`Begins`,
//!   `EndsIn`). No clause says when.
//! - `Player::new` notes nothing as delivered (`fresh`). `world` and `into_world` are the player's
//!   world (`world_of`).
#![tactic(auto)]

mod chart;
mod disks;
mod error;
mod line;
mod notes;
mod parse_error;
mod player;
mod rows;
mod runs;
mod script;
mod show;
mod start;
mod turn;
mod verb;
mod words;

pub use chart::draw_chart;
pub use error::SimulateError;
pub use line::Line;
pub use parse_error::ScriptError;
pub use player::{MOST_DRAINED, Player};
pub use runs::{play, simulate};
pub use script::Script;
pub use show::show_world;
pub use start::formatted_world;
pub use turn::{Moment, PlayedStep};
