//! What happens to a replica: the events of its history, and the trail that is kept of them.
//!
//! # What it promises
//!
//! - An `Event` is one of the model's (`event_of`): an edit of a user, the begin of a session, or a
//!   replacement by a session's item. A `Token` is a session and an item, in that order.
//! - A `Trail` is the standing of a history without its tree (`Past`): the number of events, the
//!   floor, the last 4,096 touches, the session begun last and the last token. `standing_with tree
//!   past` is the standing of both, so a replica says of its history: its tree and its trail are
//!   `standing_of history`. With each event the standing goes on as the tree and the trail do,
//!   whatever the tree is (`trail_laws`: `steps`, `goes_on`).
//! - `new` is the trail of no events (`ok`). `push` leaves the trail after the event (`done`:
//!   `past_after`), and after a refusal what stood before (`same`): 7 exactly where the position is
//!   the greatest (`full`), and else only 11.
//! - `prepare` makes the step of an event ready with all memory (`step`, `room`), refused as
//!   `push`; `record` records a step, without memory, and cannot fail. It leaves the trail after
//!   each event that has the step. `step` is the step alone. Between the two a replica writes its
//!   journal.
//! - `touched(path, since)` is exactly whether the history was not quiet at the path from `since`
//!   to its end (`quiet`). This is so for each history whose trail it is; of any trail it is what
//!   the kept touches tell (`kept`). It is refused 15 exactly where `since` is below the floor or
//!   above the position (`below`), for no other cause (`refusals`), and takes no memory.
//! - `build_index` makes the index by which `touched` is quick, and changes nothing else (`same`).
//!   A new trail has one, and a trail that was read from an image has none.
//! - `position`, `floor`, `last_session`, `last_token` and `touches` read the trail. The touches
//!   come as two slices, the second after the first, oldest first, at most 4,096 (`all`, `count`).
//! - `path_at` is the path of the kept touch at a place. `place_for` is the place that is asked
//!   about: the greatest number asks for that of the last touch, which is `last_place`.
//! - A `ReplicaStatus` is what a replica tells of itself (`status_of`). Each is lawful, which its
//!   types say (`status_laws`).
//! - `from_parts` takes what an image has of a trail (`parts`) exactly where it is lawful. Then,
//!   with each tree within the limits, it is what an image may hold (`lawful`). Where it gives
//!   none, no tree makes a standing of it (`none`).
//! - An `Identity` is 16 bytes, as its type says (`is_identity`).
#![tactic(auto)]

mod error;
mod event;
mod index;
mod laws;
mod places;
mod status;
mod step;
mod token;
mod touch;
mod touched_path;
mod trail;

pub use error::HistoryError;
pub use event::Event;
pub use laws::trail_laws;
pub use status::{IDENTITY_LENGTH, Identity, ReplicaStatus, is_identity, status_laws};
pub use step::TrailStep;
pub use token::Token;
pub use touch::Touch;
pub use touched_path::TouchedPath;
pub use trail::{Trail, TrailParts};
