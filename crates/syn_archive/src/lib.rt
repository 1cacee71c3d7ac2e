//! The archive: the marks that both sides last agreed on, on a disk.
//!
//! # What it promises
//!
//! `Stands archive kept`: the disk stands for what the model's archive keeps, a stop would leave
//! just that, and the archive shows its marks and its last session.
//!
//! - `format_after` leaves an archive of the pair with no marks whose last session is the one that
//!   is given, `archive_after` (`formatted`), and `format` one with no session. Seven device calls
//!   write it (`device`).
//! - `next_session`, `record` and `record_dir`, where they succeed, leave the archive with what was
//!   kept (`acknowledged`: `after_kept`). At any moment of the call the disk stands for the archive
//!   without it or with it (`any_moment`).
//! - How such a call ended is one fact, the `machine` (`Writes`). A read after it gives the archive
//!   without what was kept or with it, also after 9 (`seen`). Where it succeeds the journal has the
//!   record (`written`).
//! - `fits` answers exactly why the definition refuses the record of an item, without memory
//!   (`kept_refusal`).
//!   `record`, `record_dir` and `next_session` are refused with just that cause where there is one,
//!   and else 8 where the record does not fit in the journal (`refused`: `keep_refusal`).
//! - Else a refusal is 9, 10 or 11 (`cause`). 10 comes exactly where the archive is halted
//!   (`halted`). So 11 comes where no cause stands before it.
//! - Where a directory is recorded, `record_dir` is Ok (`done`). It has nothing to write then
//!   (`to_write`), so that it changes nothing and makes no device call.
//! - `checkpoint` leaves the same archive standing, in one image, whatever stop comes
//!   (`acknowledged`, `any_moment`). An archive that stands is refused 7 exactly at the greatest
//!   generation (`greatest`). How it ended is one fact, too (`machine`: `Compacts`).
//! - After a failed device call it is halted (`halts`) and shows what it had (`readings`,
//!   `memory`). After any other refusal its journal is as it was (`unchanged`).
//! - What `next_session`, `record`, `record_dir`, `checkpoint` and `reopen` are to the model's
//!   machine that the archive is (`IsMachine`) is one clause of each, `world` (`KeepsRecord`,
//!   `CompactsImage`, `ReadsDisk`), also where its device fails or stops; and so what `open` is to
//!   one that was down (`Starts`).
//! - `open` shows what the disk stands for (`given`), and stands for each archive that the disk
//!   stands for, whatever its pair (`stands`, `each`). It changes nothing (`device`: `Reads`). It
//!   is refused 18 only where no half is open, and 26 only where the image begins as one of the
//!   first version. It is refused 19 only where the layout is broken, or where the disk's value is
//!   not of the first version and stands for no archive of any pair. It is refused 20 only where
//!   it stands for one of another pair than the wanted one (`refusals`, `wanted`). No two of these
//!   hold of one disk. A disk of the wanted pair's archive is refused 9 and 11 alone (`lawful`),
//!   and one of the first version 9, 11 and 26 alone (`old`).
//! - `reopen` does the same with the archive's own disk (`given`, `each`), also where it was
//!   halted. Where a call was refused 9, it leaves the archive before that call, or with what was
//!   being kept (`before_or_after`, of what `seen` says). A disk that stands for no archive of its
//!   pair is 19. After 9 it is halted (`halts`), and after any other refusal it is as it was
//!   (`memory`, `halted`, `unchanged`). How it ended is one fact, too (`machine`: `Reopens`).
//! - `migrate` reads an archive of the first version with what was kept since its image, and writes
//!   it as one image of the second (`migrated`, `image`). Whatever stop comes, the disk has the one
//!   or the other (`any_moment`). It is refused as `open` is, but for 20 and 26, and 7 exactly at
//!   the greatest generation (`refusals`, `greatest`). A disk of the second version it opens, and
//!   writes nothing (`same`).
//! - What the device sees of a call is one fact: how many device calls were made, and whether the
//!   last of them failed (`device`: `Spends`, `Reads`). `migrate` says it in two (`calls`,
//!   `failures`). `arm` and `is_cut` are the disk's.
//! - After Ok a call of those that keep leaves as many bytes less as its record takes, and after
//!   any refusal as many as were there (`written`, `readings`). After a reopening that is refused,
//!   room and generation are as they were, or they are those of its disk (`readings` of `Reopens`).
//!   An archive that stood for what it kept has them as they were (`room`), and so has one that was
//!   halted (`remembers`).
#![tactic(auto)]

mod agreed;
mod archive;
mod error;
mod laws;
mod new_record;
mod opening;

pub use archive::Archive;
pub use error::ArchiveError;
