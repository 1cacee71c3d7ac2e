//! The one spelling of a single value in bytes: what is written, and what is read from it.
//!
//! All numbers are big-endian. Each value has one spelling, and no spelling of a value begins
//! another. A `Node` is a file, or a directory with all that is below it. A replica's tree is
//! spelled as one that is a directory, and what a session carries as one, or as nothing.
//!
//! There are two versions of it, which differ in what is spelled of a file. In the first a file has
//! no mode, and in the second its mode stands before its length or its digest. What is written is
//! of the second, and each reader is told the version (`Version`).
//!
//! # What it promises
//!
//! - A `Reader` goes over bytes, and each of its methods reads one kind of value: `u16`, `u32`,
//!   `u64`, `name`, `path`, `token`, `file`, `contents`, `digest`, `tree`, `node`, `marks`,
//!   `mark_tree` and `event`. What a method gives is a lawful value whose spelling stood there, and
//!   what follows it is left. A method is `Malformed` exactly where no front of the bytes is such a
//!   spelling (`Reads`). `ReadError::Memory` is refused memory, and a method that takes no
//!   allocator never answers it (`why`).
//! - `decode_tree`, `decode_node` and `decode_event` read one value from the front of bytes, and
//!   answer none where a `Reader` is `Malformed` (`IsReading`). What is written is the spelling. Of
//!   the part that a replacement puts, the limits of each file and directory and of its paths are
//!   part of the spelling. Its number of nodes and its size are not.
//! - `write_path`, `write_node`, `write_tree` and `write_marks` add the spelling after the bytes
//!   that are there. After a refusal those still begin what is there (`kept`).
//! - `encode_marks` writes the spelling of marks. Of marks the limits of an archive are part of the
//!   spelling: 4,096 nodes, and those of each path.
//! - `write_token` writes a token of twelve bytes.
//! - `encode_piece` gives a piece of the spelling of what stands at a path in a tree, and
//!   `part_length` how many bytes the whole has. The piece is written from the tree's own pairs.
//!   The bytes of files beside it are passed over, and no `Node` is made.
//! - `edit_length`, `path_length` and `optional_marks_length` are how many bytes the event of an
//!   edit, a path, and marks or nothing are spelled with, before they are spelled and without
//!   memory.
//! - In no version does a spelling of a number, a path, a part of a tree, an event or marks begin
//!   that of another (`spelling_laws`). So what comes after it is read without a length before it,
//!   and no bytes are read in two ways. A tree is spelled in one walk over its entries in path
//!   order (`walk`).
#![tactic(auto)]

ghost use Rattle.syn_wire.specs.Laws.{NoU16BeginsAnother, NoU32BeginsAnother, NoU64BeginsAnother};
ghost use Rattle.syn_wire.specs.Laws.{NoPathBeginsAnother, NoFileBeginsAnother};
ghost use Rattle.syn_wire.specs.Laws.{NoEventBeginsAnother};
ghost use Rattle.syn_wire.specs.Marks.{NoMarksBeginOthers};
ghost use Rattle.syn_wire.specs.Trees.{NoTreeBeginsAnother, SpellingIsWalk, SpellingIsMeasured};

mod bytes;
mod contents;
mod error;
mod event;
mod mark_reading;
mod marks;
mod number;
mod part_reading;
mod path;
mod piece;
mod readable;
mod reader;
mod tree;
mod tree_reading;
mod version;
mod window;

pub use bytes::{LONGEST_PIECE, write_file};
pub use contents::{write_contents, write_digest};
pub use error::{ReadError, WireError};
pub use event::{decode_event, edit_length, encode_edit, encode_event, write_token};
pub use marks::{encode_marks, optional_marks_length, write_marks, write_optional_marks};
pub use number::{write_u16, write_u32, write_u64};
pub use path::{encode_path, path_length, write_path};
pub use piece::{encode_piece, part_length};
pub use reader::{Reader, or_none, read_u32};
pub use tree::{ABSENT, DIRECTORY, FILE, encode_node, encode_tree, write_node, write_tree};
pub use tree_reading::{decode_node, decode_tree};
pub use version::Version;

/// In no version does the spelling of a value begin that of another.
pub fn spelling_laws()
    ensures u16 { NoU16BeginsAnother }
    ensures u32 { NoU32BeginsAnother }
    ensures u64 { NoU64BeginsAnother }
    ensures path { NoPathBeginsAnother }
    ensures file { NoFileBeginsAnother }
    ensures event { NoEventBeginsAnother }
    ensures tree { NoTreeBeginsAnother }
    ensures marks { NoMarksBeginOthers }

    // A tree is spelled in one walk over its entries, and what is written is as long as the model
    // measures.
    ensures walk { SpellingIsWalk }
    ensures measured { SpellingIsMeasured }
{
    syn_model::spelling_laws();
    syn_model::mark_laws();
}
