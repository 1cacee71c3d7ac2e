//! One session between two replicas: its requests and scans, and its way through its plan. It has
//! no archive and no disk.
//!
//! # What it promises
//!
//! `IsSession archive session running`: it is the running session of a machine that has this
//! archive. What waits on both sides is the same, and so are its scans, or its way through its
//! plan.
//!
//! - `Session::new` has both sides begin the session (`begun`, `sends`). `waiting` is what waits on
//!   both sides, left first and in rising number, and `count_resend` counts that each is sent
//!   again. `is_worn` says whether one may be sent again no more. `waits_on` says whether a request
//!   waits on a side.
//! - What waits on a side may wait there, its numbers rise, and all of it is of this session
//!   (`IsPeer`: `may`, `rising`, `of_session`).
//! - A request becomes one message, with its session and its number in it (`RequestMessage`). What
//!   waits and what is sent, now and again, own that message together.
//! - `take_waiting` gives the message whose answer has that number, which waits no more (`some`:
//!   `IsAnswering`). Where none does, nothing changes (`none`).
//! - `hear` takes the answer to a begin or to a listing (`step`: `Hears`). It gives the listings
//!   that are next, or that each directory of both sides was answered (`Heard`). Or the session
//!   ends, for what the answer is or 11.
//! - What is asked next is `Asks`: listings of both sides, or one request for the item that is
//!   carried. Each may be asked, for the first time, and may wait beside what waits (`MayGoOn`).
//! - `ask` asks the sides for what comes next (`left`, `right`), and gives just these messages
//!   (`sends`). `into_report` is what the session reports (`report_of`), and `settled` is what it
//!   would report of its items if it ended now (`settled_in`).
//! - `PlanProgress::new` is the plan of both scans and the archive's marks (`items`), at its first
//!   item (`begun`). `doing` is what is to be done for the item at the cursor (`ok`).
//! - `pass_conflict`, `refuse` and `pass_kept` go past that item (`passes`). Where memory is
//!   refused the progress stays where it is (`stays`).
//! - `SideScan` is the scan of one side, told over the exchanges of the session (`IsFoundIn`). Each
//!   listing that it found was answered so, and it has as many nodes as these show. Each listing
//!   that was asked for was taken.
//!   - `next` gives the root or a directory that a listing shows (`shown`), of which nothing was
//!     answered yet (`new`) and whose listing does not wait (`unasked`); none where there is no
//!     such directory (`none`).
//!   - `take` adds an answer to the scan (`step`). It needs a path whose listing waits, and that
//!     waits no more afterwards (`out`). It is refused with what ends the session, or 11. `so_far`
//!     shows the scan so far.
#![tactic(auto)]

mod carrying;
mod doing;
mod hearing;
mod passing;
mod peer;
mod plan_progress;
mod report;
mod requests;
mod sending;
mod session;
mod settled_items;
mod side_scan;

pub use doing::Doing;
pub use hearing::Heard;
pub use peer::PeerState;
pub use plan_progress::{Carrying, PlanProgress};
pub use report::{End, Report};
pub use requests::{MOST_RESENDS, UnansweredRequest};
pub use sending::Sending;
pub use session::{Asks, Session};
pub use settled_items::SettledItems;
pub use side_scan::SideScan;
