//! A journal on a disk: an image and the payloads appended since, each durable before its append
//! answers Ok.
//!
//! # What it promises
//!
//! A value is an image and a list of payloads.
//!
//! - `Stands journal value`: the disk seen means the value, its current half has the generation
//!   that the journal shows, and a stop would leave just that.
//! - `append`, where it succeeds, leaves `with_payload value payload` standing (`acknowledged`). At
//!   any moment of the call the disk means the value with the payload or without it, with the same
//!   generation (`any_moment`).
//! - `append_all` does so with many payloads, of which a stop leaves all or none. The bytes are
//!   those that an append of each would leave.
//! - `checkpoint`, where it succeeds, leaves a new image standing, with no payload
//!   (`acknowledged`), in the other half and with the next generation. At any moment of the call
//!   the disk means the value before it, or the image alone with the next generation
//!   (`any_moment`). It is refused 7 exactly where the image is too long for a half, or the
//!   generation is the greatest that can be written (`full`).
//! - After any refusal but 9 a journal is as it was (`unchanged`), and after 9 its readings are.
//! - A failed device call halts the journal; a halted one refuses each change with 10 and does no
//!   call.
//! - `open` gives a value that stands, and changes nothing (`untouched`). Its refusals are those of
//!   the meaning of the disk: 18 where it has no image, 19 where it is damaged.
//! - `reopen` opens the journal's own disk again, and gives a value that stands (`reopened`), also
//!   where the journal was halted. It changes nothing on the disk (`untouched`), and is refused as
//!   `open` is (`refusals`). After 9 the journal is halted (`halts`), and after any other refusal
//!   it is as it was (`unchanged`). A change that was refused 9 left only the value before it or
//!   the one after it. So one of the two is what is reopened, and 18 and 19 do not come.
//! - `format` leaves the image with no payload. Of a stop inside it nothing is promised.
//! - Device calls are counted (`calls`): where they succeed an append makes four, of however many
//!   payloads, a checkpoint six and a format seven, of which the disk was told to refuse none.
//!   Refused 9 they made at most so many, and before the last of them the disk was told to refuse
//!   none. Otherwise they made none. An opening makes a sync and then reads. Of those before the
//!   last, and after another answer than 9 of all, the disk was told to refuse none.
//! - `halt` makes each later change refused 10, until the journal is reopened. It serves a layer
//!   that could not take what `reopen` gave. `halt_at` also has it show what it showed at a
//!   `cursor` from before (`shows`), where it was halted then.
//! - `left_of` is how many bytes are left for records, and `bytes_left` the same of a value; a
//!   record takes `record_size` of them (`layout_laws`).
//! - An opening leaves nothing armed at a disk at which nothing was (`opening_laws`).
//! - `room` is the length of the longest payload that fits. `Takes` says of a length that it fits,
//!   and `IsTooLong` that it does not.
//! - Of a disk that can be armed, a journal can be armed, which changes nothing that it stands for
//!   (`arm`).
//!
//! # A machine that keeps a state
//!
//! What such a machine has in memory is what the image and the payloads of its journal give, at any
//! stop.
//!
//! A `State` says how it is spelled as an image, how it is read from an image and the payloads
//! after it, also from those of an older version, and how an update that was prepared is made.
//! `Journaled` keeps one on a disk.
//!
//! - `format` writes the image of a state, with no payload (`formatted`).
//! - `write` appends the payload of an update, and then makes the update (`journal`: `Appends`).
//!   After any refusal the state is as it was (`state`).
//! - `append_all` appends many payloads, all of them or none, to a journal that was taken from a
//!   machine by `into_parts`, and goes on with the state that they lead to (`appended`: `HasAll`).
//!   At any moment the disk has what it had, or that with all of them (`disk`: `AppendsAll`). Where
//!   it is refused, the disk alone comes back.
//! - `checkpoint` writes the image of the state in the place of the payloads (`journal`:
//!   `Compacts`), and leaves the state (`state`).
//! - `open` has in memory what the disk gives, and the disk gives nothing else (`opened`:
//!   `Opened`). It is refused as the journal is, or as the state is not read (`refused`:
//!   `NotOpened`).
//! - `reopen` does the same with the machine's own disk, where what is read may follow the state
//!   (`follows`). After any refusal the state is as it was. After 11 the machine goes on, and after
//!   any other it is halted (`halts`).
//! - What `write`, `checkpoint` and `reopen` are to the model's machine that keeps the state
//!   (`IsMachine`) is one clause of each, `world`: `WritesRecord`, `WritesImage`, `ReadsDisk`;
//!   and so what `open` is to one that was down (`Rests`: `Starts`, `RestsStill`). It holds also
//!   where the device fails, which halts that machine, and where it stops, so that the machine is
//!   down (`IsDown`). `MayMean` says what its disk may mean then: what the machine keeps; that with
//!   the record that was being written; or the image alone that an unfinished checkpoint leaves.
//!   Each case has its room and its generation.
//! - `migrate` reads what the disk gives in an older version, and writes it as one image with the
//!   next generation (`migrated`: `Migrated`). At any moment the disk has what it had, or that
//!   image alone (`device`: `Migrates`). It is refused as an opening or a checkpoint is (`refused`:
//!   `NotMigrated`).
//! - What the device sees of a call is one fact: how many device calls were made, and whether the
//!   last of them failed (`Spends`, `Reads`).
#![tactic(auto)]

mod commit;
mod contents;
mod cursor;
mod error;
mod half;
mod journal;
mod journaled;
mod laws;
mod layout;
mod number;
mod read;
mod state;

pub use contents::Contents;
pub use cursor::JournalCursor;
pub use error::JournalError;
pub use half::HALF_SIZE;
pub use journal::{Journal, Opened};
pub use journaled::Journaled;
pub use laws::{layout_laws, opening_laws};
pub use layout::{LONGEST_IMAGE, RECORD_HEADER};
pub use state::State;
