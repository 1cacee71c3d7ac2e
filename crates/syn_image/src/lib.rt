//! What stands on a disk in bytes: the image of a replica, and the image and the records of an
//! archive.
//!
//! Each has one spelling in each version, made of those of single values, and no spelling of one
//! begins another. What is written is of the second version, and each reader is told the version.
//!
//! # What it promises
//!
//! - `encode_replica` writes the image of a replica from its tree and its trail, and
//!   `decode_replica` reads exactly what an image may hold.
//! - `encode_kept` with `encode_session`, `encode_record` and `encode_dir`, and `encode_archive`
//!   write the spelling of what an archive keeps, and of an archive's image. `decode_kept` and
//!   `decode_archive` read them, exactly as trees are read. The marks of an image have a directory
//!   as their root.
//! - `record_length` and `dir_length` are how many bytes spell a record, before it is spelled and
//!   without memory. `Kept::copy` is equal, and so are `copied_marks`.
//! - `is_old_replica` and `is_old_archive` tell an image of the first version by how it begins, and
//!   `is_other_pair` one of another pair than is wanted.
//! - In no version does a spelling of an image, a record or an archive's image begin that of
//!   another (`image_laws`: `image`, `kept`, `archive`).
#![tactic(auto)]

ghost use Rattle.syn_image.specs.Images.{NoImageBeginsAnother};
ghost use Rattle.syn_image.specs.Archives.{NoKeptBeginsAnother, NoArchiveBeginsAnother};

mod image;
mod image_reading;
mod kept;
mod kept_reading;
mod pair;

pub use image::{ReplicaImage, encode_replica, is_old_replica};
pub use image_reading::decode_replica;
pub use kept::{
    ArchiveImage, ItemRecord, Kept, SESSION_LENGTH, copied_marks, dir_length, encode_archive,
    encode_dir, encode_kept, encode_record, encode_session, is_old_archive, record_length,
};
pub use kept_reading::{decode_archive, decode_kept};
pub use pair::is_other_pair;

/// In no version does the spelling of an image or of a record begin that of another.
pub fn image_laws()
    ensures image { NoImageBeginsAnother }
    ensures kept { NoKeptBeginsAnother }
    ensures archive { NoArchiveBeginsAnother }
{
    syn_model::spelling_laws();
    syn_model::mark_laws();
}
