//! A replica: the history of a file tree, that of its users' edits and of the sessions that change
//! it, which outlives stops of its machine.
//!
//! # What it promises
//!
//! `Stands replica history`: the disk stands for the history of allowed events, and a stop would
//! leave just that. The replica remembers what is kept of the history (`standing_of`): tree,
//! position, touches with their floor, last session, last token.
//!
//! - `edit`, where it succeeds, leaves `history ++ event` standing and answers its position
//!   (`acknowledged`). `begin` adds the event of a session above the last, and none for the last
//!   one again; `check_begin` tells beforehand what it refuses, but for the room (`refusal`).
//!   `replace` checks the token, the path and the tree, and writes the event, in one call. A token
//!   that was done before changes nothing (`again`).
//! - `edit_all` makes many edits at once: where it succeeds all of them stand (`acknowledged`), and
//!   at any moment the disk stands for the history, or for that with all of them (`any_moment`:
//!   `KeepsNoneOrAll`). It is refused for the first cause of the first that is refused, and then
//!   none is made (`cause`, `refused`, `unchanged`). It takes the replica by value: refused, it
//!   gives back the disk alone. `edit_all_with_room` does so after a checkpoint, where the journal
//!   may have too little room.
//! - Each call of one event is refused for the first cause in the model's order, 8 as the last of
//!   them (`refused`). Each refusal has its cause, but for lack of memory and a failed device call
//!   (`cause`). After any refusal but 9 the replica stands as it did (`unchanged`).
//! - At any moment of such a call the disk stands for the history, or for the history with the
//!   event (`any_moment`: `KeepsBeforeOrAfter`). Both come with the generation and with the bytes
//!   that are then left for records.
//! - What `edit`, `begin`, `replace`, `checkpoint` and `reopen` are to the model's machine that the
//!   replica is (`IsMachine`) is one clause of each, `world` (`WritesRecord`, `WritesImage`,
//!   `ReadsDisk`), also where its device fails or stops; and so what `open` is to one that was down
//!   (`Starts`).
//! - `checkpoint` leaves the same history standing, and its image alone in the journal
//!   (`acknowledged`). At any moment of it the disk stands for that history, as it was kept or by
//!   the image alone with the next generation (`any_moment`: `KeepsOrCompacts`).
//! - What a call makes of the machine is one record of `specs/Calls.antt` (`machine`): `Writes`,
//!   `Compacts` or `Reopens`. It says what the generation, the room and `tried` are after the call,
//!   and what the device saw (`Spends`, `Reads` of `syn_journal`). After 9 the replica is halted,
//!   and a halted one refuses 10.
//! - `open` shows what the disk gives (`given`), stands for each history that the disk stands for
//!   (`each`), and writes nothing. Each lawful image is opened, also one that comes from no
//!   history. It is refused 18, 19, 20 and 26 each for its own cause, and no two of these hold at
//!   once (`refusals`, `old`, `wrong_pair`, `wanted`). A disk that stands for a history of the
//!   wanted pair is refused 9 or 11 alone (`disk_laws`).
//! - `migrate` does so of a disk of version 1 or 2, and stands for each history that the disk
//!   stands for in either (`given`, `migrated`). At any moment the disk stands for the history in
//!   one of them (`any_moment`: `KeepsOrMigrates`).
//! - `reopen` does the same with the replica's own disk, also where it is halted. A disk that gives
//!   fewer events than the replica remembers is refused 19, so no reopening goes back. A replica
//!   that keeps up with a history is never refused so: its reopening gives that history, or that
//!   history and the event that was tried last (`keeps_up`).
//! - A replica only grows (`IsGrown`): each history that it keeps up with goes on, by events that
//!   are allowed in turn. Each changing call says so whatever it answers, and without any premise
//!   (`grown`). So a replica may lie under the lock (`Grows`).
//! - `standing` tells of a token whether it is done, old, or open. `fetch` gives a piece of the
//!   spelling of what stands at a path (`piece`), where no event touched the path since; else it is
//!   refused 15 or 13 (`refused`, `cause`).
//! - `listing` gives the names in a directory in byte order, each with its mark, and the position
//!   (`marks`, `position`); 5 exactly where no directory is. From the second listing of the root on
//!   it keeps each digest that it makes with the bytes that it is of, in a cell that no clause sees
//!   (`Digests`).
//! - `get` gives what the tree holds at the path, and `list` the names of a directory. `tree` is
//!   the tree itself, without a copy.
//! - `status` tells where the replica is in its history, also while it is halted, and which path
//!   the event at a place touched (`told`: `status_at`). It is refused 11 alone (`memory`).
//! - `format` gives a replica that stands for no events, of the given pair.
//! - No clause says what the calls after an opening do of a lawful image that comes from no
//!   history.
//!
//! # What stands in memory
//!
//! An event is checked and made in memory, with no disk.
//!
//! A `Standing` is what is kept of a history: its tree and its trail. Contracts see it as the
//! model's standing.
//!
//! - `check` tells the first cause that is seen without memory: of a replacement the token alone,
//!   and of each other event every cause.
//! - `prepare` makes the event ready where `check` does not refuse it, and changes nothing. It is
//!   refused for a cause that stands, or for lack of memory (`refused`). Where it succeeds, no
//!   cause stands (`allowed`). `make` takes the standing one step on, and takes no memory.
//! - `check_untouched` tells whether an event touched a path since a position, of each history that
//!   the standing is of (`cause`).
//! - An opening reads in a version (`read_replica`): the pair and the standing that an image and
//!   the payloads after it give in it (`gives`). No other could be given (`one`), and an image may
//!   hold it (`sound`). It is refused 19 only where they give none (`damaged`), and 20 only where
//!   they give another pair than the wanted one (`other`). The index of its trail is built once,
//!   after the last payload (`build_index`).
//! - `read_image` and `read_event` read the parts alone: the image that bytes are, and the event
//!   that a payload is.
#![tactic(auto)]

mod digests;
mod error;
mod lawful;
mod laws;
mod reading;
mod remembered;
mod replica;
mod standing;

pub use error::ReplicaError;
pub use lawful::disk_laws;
pub use laws::opening_laws;
pub use reading::{read_event, read_image};
pub use replica::{Listing, Piece, ROOM_FOR_EDITS, Replica, TokenStatus};
pub use standing::{Standing, Update};
