//! Events.
ghost use Rattle.std.specs.Prelude.{◌≡◌, ◌++◌, ◌∷◌, ℕ, length, IfOk, OnOk, option_map};
ghost use Rattle.syn_model.specs.Path.{IsPath, path_spelling};
ghost use Rattle.syn_model.specs.Event.{Edited, IsLawfulEdit, IsLawfulEvent, IsLawfulToken};
ghost use Rattle.syn_model.specs.Spelling.{event_spelling, event_spelling_in, token_spelling};
ghost use Rattle.syn_tree.specs.Edits.{edit_of};
ghost use Rattle.syn_history.specs.Events.{event_of, token_of};
ghost use Rattle.syn_wire.specs.Events.{Both, IsNumber32, IsNumber64, IsShort};
ghost use Rattle.syn_wire.specs.Events.{IsSpelledEventIn, ReadsEventInEach, both_spelling};
ghost use Rattle.syn_wire.specs.Events.{number_spelling, number64_spelling};
ghost use Rattle.syn_wire.specs.Reads.{IsReading, Reads};
ghost use Rattle.syn_wire.specs.Versions.{version_of};

use crate::bytes::write_file;
use crate::contents::write_mode;
use crate::error::{ReadError, WireError};
use crate::number::{write_u32, write_u64};
use crate::path::{path_length, write_path};
use crate::reader::Reader;
use crate::spelling_laws;
use crate::tree::write_node;
use crate::version::Version;
use std::alloc::Global;
use syn_history::{Event, Token};
use syn_path::Path;
use syn_tree::Edit;

const PUT: u8 = 1;

const MAKE_DIR: u8 = 2;

const REMOVE: u8 = 3;

const BEGAN: u8 = 4;

const REPLACED: u8 = 5;

const CHMOD: u8 = 6;

/// How many bytes an event of an edit begins with: its kind and its user.
const KIND_AND_USER: usize = 5;

/// How many bytes spell the length of a file.
const LENGTH: usize = 4;

/// How many bytes spell a mode.
const MODE: usize = 2;

/// The spelling of the event: its kind, and what it has.
///
/// Refused 11 where memory is refused.
pub fn encode_event(alloc: Global, event: &Event) -> Result<Vec<u8>, WireError>
    requires { IsShort (event_of event.now) }
    ensures spelling { IfOk result (λ bytes. bytes.items ≡ event_spelling (event_of event.now)) }
    ensures lawful { OnOk result (IsLawfulEvent (event_of event.now)) }
{
    match event {
        Event::Edited { user, edit } => encode_edit(alloc, *user, edit),
        Event::Began { session } => {
            let mut out = Vec::new(alloc);
            out.push(BEGAN)?;
            write_u64(&mut out, *session)?;
            Ok(out)
        }
        Event::Replaced {
            token,
            path,
            since,
            new,
        } => {
            let mut out = Vec::new(alloc);
            out.push(REPLACED)?;
            write_token(&mut out, token)?;
            write_path(&mut out, path)?;
            write_u64(&mut out, *since)?;
            write_node(&mut out, new.as_ref())?;
            Ok(out)
        }
    }
}

/// The spelling of the event that the user made the edit.
///
/// Refused 11 where memory is refused.
pub fn encode_edit(alloc: Global, user: u32, edit: &Edit) -> Result<Vec<u8>, WireError>
    requires { IsShort (Edited user (edit_of edit.now)) }
    ensures spelling { IfOk result (λ bytes. bytes.items
        ≡ event_spelling (Edited user (edit_of edit.now))) }
    ensures lawful { OnOk result (IsLawfulEdit (edit_of edit.now)) }
{
    let mut out = Vec::new(alloc);
    match edit {
        Edit::Put(path, bytes) => {
            out.push(PUT)?;
            write_user_and_path(&mut out, user, path)?;
            write_file(&mut out, bytes)?;
        }
        Edit::MakeDir(path) => {
            out.push(MAKE_DIR)?;
            write_user_and_path(&mut out, user, path)?;
        }
        Edit::Remove(path) => {
            out.push(REMOVE)?;
            write_user_and_path(&mut out, user, path)?;
        }
        Edit::Chmod(path, mode) => {
            out.push(CHMOD)?;
            write_user_and_path(&mut out, user, path)?;
            write_mode(&mut out, *mode)?;
        }
    }
    Ok(out)
}

/// How many bytes spell the event that a user made the edit.
pub fn edit_length(edit: &Edit) -> usize
    ensures { (user : ℕ) → result ≡ length (event_spelling (Edited user (edit_of edit.now))) }
{
    match edit {
        Edit::Put(path, bytes) => KIND_AND_USER + path_length(path) + LENGTH + bytes.len(),
        Edit::MakeDir(path) => KIND_AND_USER + path_length(path),
        Edit::Remove(path) => KIND_AND_USER + path_length(path),
        Edit::Chmod(path, _) => KIND_AND_USER + path_length(path) + MODE,
    }
}

/// The event that the bytes begin with, and the rest; none where no front of them is the spelling
/// of an event.
///
/// Refused 11 where memory is refused.
pub fn decode_event(
    alloc: Global,
    version: Version,
    bytes: &[u8],
) -> Result<Option<(Event, &[u8])>, WireError>
    ensures { IfOk result (λ read. IsReading (IsSpelledEventIn (version_of version))
        (event_spelling_in (version_of version)) bytes.now
        (option_map (λ found. (event_of found.0, found.1.now)) read)) }
{
    let mut reader = Reader::new(bytes);
    let event = reader.event(alloc, version);
    reader.front(event)
}

impl<'a> Reader<'a> {
    /// An event.
    pub fn event(&mut self, alloc: Global, version: Version) -> Result<Event, ReadError>
        ensures { Reads (IsSpelledEventIn (version_of version))
            (event_spelling_in (version_of version)) event_of self.old self.new result }
    {
        match self.byte()? {
            PUT => self.put(alloc),
            MAKE_DIR => self.make_dir(alloc),
            REMOVE => self.remove(alloc),
            BEGAN => self.began(),
            REPLACED => self.replaced(alloc, version),
            CHMOD => self.chmod(alloc, version),
            _ => Err(ReadError::Malformed),
        }
    }

    // What follows the kind of a put.
    fn put(&mut self, alloc: Global) -> Result<Event, ReadError>
        ensures { ReadsEventInEach (PUT ∷ self.old) self.new result }
    {
        let (user, path) = self.user_and_path(alloc)?;
        let bytes = self.file()?;
        Ok(Event::Edited {
            user,
            edit: Edit::Put(path, bytes.to_vec(alloc)?),
        })
    }

    fn make_dir(&mut self, alloc: Global) -> Result<Event, ReadError>
        ensures { ReadsEventInEach (MAKE_DIR ∷ self.old) self.new result }
    {
        let (user, path) = self.user_and_path(alloc)?;
        Ok(Event::Edited {
            user,
            edit: Edit::MakeDir(path),
        })
    }

    fn remove(&mut self, alloc: Global) -> Result<Event, ReadError>
        ensures { ReadsEventInEach (REMOVE ∷ self.old) self.new result }
    {
        let (user, path) = self.user_and_path(alloc)?;
        Ok(Event::Edited {
            user,
            edit: Edit::Remove(path),
        })
    }

    fn began(&mut self) -> Result<Event, ReadError>
        ensures { ReadsEventInEach (BEGAN ∷ self.old) self.new result }
    {
        let session = self.u64()?;
        Ok(Event::Began { session })
    }

    fn replaced(&mut self, alloc: Global, version: Version) -> Result<Event, ReadError>
        ensures { Reads (IsSpelledEventIn (version_of version))
            (event_spelling_in (version_of version)) event_of (REPLACED ∷ self.old) self.new
            result }
    {
        let (token, path, since) = self.token_path_and_since(alloc)?;
        let new = self.node(alloc, version)?;
        Ok(Event::Replaced {
            token,
            path,
            since,
            new,
        })
    }

    // What follows the kind of a change of a mode; the first version has none.
    fn chmod(&mut self, alloc: Global, version: Version) -> Result<Event, ReadError>
        ensures { Reads (IsSpelledEventIn (version_of version))
            (event_spelling_in (version_of version)) event_of (CHMOD ∷ self.old) self.new result }
    {
        if version == Version::One {
            return Err(ReadError::Malformed);
        }
        let (user, path) = self.user_and_path(alloc)?;
        let mode = self.mode()?;
        Ok(Event::Edited {
            user,
            edit: Edit::Chmod(path, mode),
        })
    }

    // A user and a path.
    fn user_and_path(&mut self, alloc: Global) -> Result<(u32, Path), ReadError>
        ensures { Reads (Both IsNumber32 IsPath) (both_spelling number_spelling path_spelling)
            (λ found. found) self.old self.new result }
    {
        spelling_laws();
        let user = self.u32()?;
        let path = self.path(alloc)?;
        Ok((user, path))
    }

    // A token, a path and a position.
    fn token_path_and_since(&mut self, alloc: Global) -> Result<(Token, Path, u64), ReadError>
        ensures { Reads (Both (Both IsLawfulToken IsPath) IsNumber64)
            (both_spelling (both_spelling token_spelling path_spelling) number64_spelling)
            (λ found. ((token_of found.0, found.1), found.2)) self.old self.new result }
    {
        let (token, path) = self.token_and_path(alloc)?;
        let since = self.u64()?;
        Ok((token, path, since))
    }

    // A token and a path.
    fn token_and_path(&mut self, alloc: Global) -> Result<(Token, Path), ReadError>
        ensures { Reads (Both IsLawfulToken IsPath) (both_spelling token_spelling path_spelling)
            (λ found. (token_of found.0, found.1)) self.old self.new result }
    {
        let token = self.token()?;
        let path = self.path(alloc)?;
        Ok((token, path))
    }

    /// A token: the number of a session, and that of its item.
    pub fn token(&mut self) -> Result<Token, ReadError>
        ensures { Reads IsLawfulToken token_spelling (λ token. token_of token) self.old self.new
            result }
    {
        let session = self.u64()?;
        let item = self.u32()?;
        Ok(Token { session, item })
    }
}

/// Adds the number of a session, and that of its item. Refused 11 where memory is refused; a
/// beginning of it may then have been added.
pub fn write_token(out: &mut Vec<u8>, token: &Token) -> Result<(), WireError>
    ensures added { OnOk result (out.new.items ≡ out.old.items
        ++ token_spelling (token_of token.now)) }
    ensures lawful { OnOk result (IsLawfulToken (token_of token.now)) }
{
    write_u64(out, token.session)?;
    write_u32(out, token.item)?;
    Ok(())
}

// Adds a user and a path.
fn write_user_and_path(out: &mut Vec<u8>, user: u32, path: &Path) -> Result<(), WireError>
    ensures added { OnOk result (out.new.items ≡ out.old.items
        ++ both_spelling number_spelling path_spelling (user, path.now)) }
    ensures lawful { OnOk result (IsPath path.now) }
{
    write_u32(out, user)?;
    write_path(out, path)
}
