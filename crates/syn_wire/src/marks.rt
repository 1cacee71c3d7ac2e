//! Trees of marks, and what may stand at a path of one.
ghost use Rattle.std.specs.Prelude.{◌≡◌, ◌≤◌, ◌<◌, ◌^◌, ◌++◌, ℕ, length, IfOk, OnOk, option_map};
ghost use Rattle.syn_model.specs.Limits.{children};
ghost use Rattle.syn_model.specs.MarkSpelling.{mark_spelling};
ghost use Rattle.syn_mark.specs.Marks.{or_absent};
ghost use Rattle.syn_model.specs.Contents.{digest_spelling};
ghost use Rattle.syn_wire.specs.Reads.{IsBeginning};
ghost use Rattle.syn_wire.specs.Trees.{last_name_spelling, standing_by};

use crate::contents::write_digest;
use crate::error::WireError;
use crate::tree::{ABSENT, FILE, last_name_length, write_count, write_last_name};
use std::alloc::Global;
use syn_mark::{Mark, MarkEntry, MarkTree};

/// The spelling of the marks at a path, or of nothing.
///
/// Refused 11 where memory is refused.
pub fn encode_marks(alloc: Global, marks: Option<&MarkTree>) -> Result<Vec<u8>, WireError>
    ensures { IfOk result (λ bytes. bytes.items
        ≡ mark_spelling (or_absent (option_map (λ there. there.now) marks.entry))) }
{
    let mut out = Vec::new(alloc);
    write_optional_marks(&mut out, marks)?;
    Ok(out)
}

/// Adds the spelling of the marks at a path, or of nothing. Refused 11 where memory is refused; a
/// beginning of it may then have been added.
pub fn write_optional_marks(out: &mut Vec<u8>, marks: Option<&MarkTree>) -> Result<(), WireError>
    ensures added { OnOk result (out.new.items ≡ out.old.items
        ++ mark_spelling (or_absent (option_map (λ there. there.now) marks.entry))) }
    ensures kept { IsBeginning out.old.items out.new.items }
{
    match marks {
        None => {
            out.push(ABSENT)?;
            Ok(())
        }
        Some(there) => write_marks(out, there),
    }
}

/// Adds the spelling of the marks, entry by entry in path order. Refused 11 where memory is
/// refused; a beginning of it may then have been added.
pub fn write_marks(out: &mut Vec<u8>, marks: &MarkTree) -> Result<(), WireError>
    ensures added { OnOk result (out.new.items ≡ out.old.items ++ mark_spelling marks.now) }
    ensures kept { IsBeginning out.old.items out.new.items }
{
    let list = marks.as_slice();
    for entry in list {
        write_mark(out, entry, count_in_marks(marks, entry))?;
    }
    Ok(())
}

/// How many bytes spell the marks at a path, or nothing. It takes no memory.
pub fn optional_marks_length(marks: Option<&MarkTree>) -> usize
    ensures length { result ≡ length
        (mark_spelling (or_absent (option_map (λ there. there.now) marks.entry))) }
    ensures brief { result ≤ 409600 }
{
    match marks {
        None => 1,
        Some(there) => marks_length(there),
    }
}

// How many bytes spell the marks, entry by entry.
fn marks_length(marks: &MarkTree) -> usize
    ensures length { result ≡ length (mark_spelling marks.now) }
    ensures brief { result ≤ 409600 }
{
    let mut length = 0;
    let list = marks.as_slice();
    for entry in list {
        length += entry_length(entry);
    }
    length
}

// How many bytes spell an entry's last name and its mark, without what is below it.
fn entry_length(entry: &MarkEntry) -> usize
    ensures length { (count : ℕ) → result ≡ length
        (last_name_spelling entry.now.0 ++ standing_by digest_spelling count entry.now.1) }
    ensures brief { result ≤ 100 }
{
    let mark = match entry.content() {
        Mark::File(_, digest) => 3 + digest_length(*digest),
        Mark::Dir => 3,
    };
    last_name_length(entry.path()) + mark
}

// How many bytes a digest has.
fn digest_length(digest: [u8; 32]) -> usize
    ensures length { result ≡ length digest }
    ensures brief { result ≤ 32 }
{
    digest.as_slice().len()
}

// How many names are in the directory at the entry's path. A file is spelled without a count.
fn count_in_marks(marks: &MarkTree, entry: &MarkEntry) -> usize
    ensures spelled { standing_by digest_spelling result entry.now.1
        ≡ standing_by digest_spelling (length (children marks.now entry.now.0)) entry.now.1 }
    ensures few { result ≤ length (children marks.now entry.now.0) }
{
    match entry.content() {
        Mark::File(..) => 0,
        Mark::Dir => marks.child_count(entry.path()),
    }
}

// Adds the last name of an entry and its mark, without what is below it.
fn write_mark(out: &mut Vec<u8>, entry: &MarkEntry, count: usize) -> Result<(), WireError>
    requires { count < 2 ^ 16 }
    ensures added { OnOk result (out.new.items ≡ out.old.items
        ++ (last_name_spelling entry.now.0 ++ standing_by digest_spelling count entry.now.1)) }
    ensures kept { IsBeginning out.old.items out.new.items }
{
    write_last_name(out, entry.path())?;
    match entry.content() {
        Mark::File(mode, digest) => {
            out.push(FILE)?;
            write_digest(out, *mode, digest)
        }
        Mark::Dir => write_count(out, count),
    }
}
