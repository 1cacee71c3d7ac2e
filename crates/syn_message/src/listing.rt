//! The names in a directory with the mark of each.
ghost use Rattle.std.specs.Prelude.{◌≡◌, ◌++◌, ◌↔◌, IsTrue, OnOk};
ghost use Rattle.syn_mark.specs.Marks.{IsDigestOrDirectory, content_of};
ghost use Rattle.syn_message.specs.Bodies.{ReadsWhole};
ghost use Rattle.syn_message.specs.Listings.{IsEntry, IsListing, entries_of, entries_spelling};
ghost use Rattle.syn_message.specs.Listings.{AreRising, entry_of, entry_spelling, mark_spelling};
ghost use Rattle.syn_message.specs.inner.Listed.{AreEntries, each_spelling};
ghost use Rattle.syn_wire.specs.Reads.{Reads};

use std::alloc::Global;
use syn_mark::Mark;
use syn_path::Name;
use syn_tree::MOST_CHILDREN;
use syn_wire::{
    DIRECTORY, FILE, ReadError, Reader, Version, WireError, spelling_laws, write_digest, write_u16,
};

/// Adds how many entries there are, and each of them.
pub(crate) fn write_entries(body: &mut Vec<u8>, entries: &[(Name, Mark)]) -> Result<(), WireError>
    requires { IsListing (entries_of entries.now) }
    ensures { OnOk result (body.new.items
        ≡ body.old.items ++ entries_spelling (entries_of entries.now)) }
{
    write_u16(body, entries.len() as u16)?;
    for (name, mark) in entries {
        write_entry(body, name, *mark)?;
    }
    Ok(())
}

/// Adds a name with its length, and its mark.
fn write_entry(body: &mut Vec<u8>, name: &Name, mark: Mark) -> Result<(), WireError>
    ensures { OnOk result (body.new.items
        ≡ body.old.items ++ entry_spelling (name.now, content_of mark)) }
{
    let text = name.as_str();
    body.push(text.len() as u8)?;
    body.extend_from_slice(text.as_bytes())?;
    match mark {
        Mark::File(mode, digest) => {
            body.push(FILE)?;
            write_digest(body, mode, &digest)?;
        }
        Mark::Dir => body.push(DIRECTORY)?,
    }
    Ok(())
}

/// The entries that all that is left is: at most 256, their names strictly rising.
///
/// Memory is taken as entries are seen, and never by their number alone.
pub(crate) fn read_entries(
    reader: &mut Reader<'_>,
    alloc: Global,
) -> Result<Vec<(Name, Mark)>, ReadError>
    ensures { ReadsWhole IsListing entries_spelling (λ entries. entries_of entries.items)
        reader.old result }
{
    spelling_laws();
    let count = reader.u16()?;
    if usize::from(count) > MOST_CHILDREN {
        return Err(ReadError::Malformed);
    }
    let entries = read_each(reader, alloc, count)?;
    reader.end()?;
    if !are_rising(&entries) {
        return Err(ReadError::Malformed);
    }
    Ok(entries)
}

/// So many entries.
fn read_each(
    reader: &mut Reader<'_>,
    alloc: Global,
    count: u16,
) -> Result<Vec<(Name, Mark)>, ReadError>
    ensures { Reads (AreEntries count) each_spelling (λ entries. entries_of entries.items)
        reader.old reader.new result }
{
    let mut entries = Vec::new(alloc);
    for _read in 0..count {
        entries.push(read_entry(reader, alloc)?)?;
    }
    Ok(entries)
}

/// A name, and its mark.
fn read_entry(reader: &mut Reader<'_>, alloc: Global) -> Result<(Name, Mark), ReadError>
    ensures { Reads IsEntry entry_spelling entry_of reader.old reader.new result }
{
    let name = reader.name(alloc)?;
    let mark = read_mark(reader)?;
    Ok((name, mark))
}

/// A mark.
fn read_mark(reader: &mut Reader<'_>) -> Result<Mark, ReadError>
    ensures { Reads IsDigestOrDirectory mark_spelling content_of reader.old reader.new result }
{
    match reader.byte()? {
        FILE => {
            let (mode, digest) = reader.digest(Version::Two)?;
            Ok(Mark::File(mode, digest))
        }
        DIRECTORY => Ok(Mark::Dir),
        _ => Err(ReadError::Malformed),
    }
}

/// Whether each name of a listing is below the next, in byte order.
pub fn are_rising(entries: &[(Name, Mark)]) -> bool
    ensures { IsTrue result ↔ AreRising (entries_of entries.now) }
{
    entries.is_sorted_by(|entry, next| entry.0 < next.0)
}
