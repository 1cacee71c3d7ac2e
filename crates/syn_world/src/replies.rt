//! Which replies of a side can be sent.
ghost use Rattle.std.specs.Prelude.{◌↔◌, All, IsTrue};
ghost use Rattle.syn_mark.specs.Marks.{content_of};
ghost use Rattle.syn_message.specs.Listings.{IsEntry, IsListing, entries_of, entry_of};
ghost use Rattle.syn_message.specs.Replies.{IsFetchedBytes, IsLawfulReply, reply_of};

use syn_mark::{Mark, is_mark};
use syn_message::{LONGEST_PIECE, Reply, are_rising};
use syn_model::{is_long, is_short};
use syn_path::Name;
use syn_tree::MOST_CHILDREN;

/// Whether it is a reply that can be sent: a directory has not too many names, and in their order,
/// and a piece not too many bytes.
pub(crate) fn can_be_sent(reply: &Reply) -> bool
    ensures { IsTrue result ↔ IsLawfulReply (reply_of reply.now) }
{
    match reply {
        Reply::Begun { position } => {
            is_long(*position);
            true
        }
        Reply::Listed { position, entries } => {
            is_long(*position);
            is_listing(entries)
        }
        Reply::NotDir { position } => {
            is_long(*position);
            true
        }
        Reply::Piece { total, bytes } => {
            is_short(*total);
            is_piece(bytes)
        }
        Reply::Staged => true,
        Reply::Done => true,
        Reply::Refused(_) => true,
    }
}

/// Not more bytes than are fetched at a time.
fn is_piece(bytes: &[u8]) -> bool
    ensures { IsTrue result ↔ IsFetchedBytes bytes.now }
{
    bytes.len() <= LONGEST_PIECE
}

/// As many entries as a directory may have, their names strictly rising.
fn is_listing(entries: &[(Name, Mark)]) -> bool
    ensures { IsTrue result ↔ IsListing (entries_of entries.now) }
{
    are_entries(entries);
    entries.len() <= MOST_CHILDREN && are_rising(entries)
}

/// Each has a lawful name and mark, by its type.
fn are_entries(entries: &[(Name, Mark)])
    ensures { All (λ entry. IsEntry (entry_of entry)) entries.now }
{
    for (name, mark) in entries {
        is_entry(name, *mark);
    }
}

/// A name with a mark is an entry.
fn is_entry(name: &Name, mark: Mark)
    ensures { IsEntry (name.now, content_of mark) }
{
    let _ = name.as_str();
    is_mark(mark);
}
