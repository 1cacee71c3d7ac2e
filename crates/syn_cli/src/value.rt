//! What the words of a command stand for.
ghost use Rattle.std.specs.Prelude.{◌≡◌};
ghost use Rattle.syn_cli.specs.Verbs.{name_of};

use crate::verb::Verb;

/// What a word of a command stands for.
#[derive(Clone, Copy, Debug, PartialEq, Eq)]
pub enum ValueName {
    Command,
    Kind,
    Pair,
    User,
    File,
    Path,
    Mode,
    Folder,
    Address,
    Connections,
    Seconds,
    Lines,
    Archive,
    Left,
    Right,
    Script,
    Preference,
    FolderPreference,
    After,
}

impl ValueName {
    /// Its id for `clap`, which is printed in the help too.
    pub fn as_str(self) -> &'static str
        ensures { result.now ≡ name_of self }
    {
        match self {
            ValueName::Command => "COMMAND",
            ValueName::Kind => "KIND",
            ValueName::Pair => "PAIR",
            ValueName::User => "USER",
            ValueName::File => "FILE",
            ValueName::Path => "PATH",
            ValueName::Mode => "MODE",
            ValueName::Folder => "DIR",
            ValueName::Address => "ADDR",
            ValueName::Connections | ValueName::Lines => "N",
            ValueName::Seconds => "SECONDS",
            ValueName::Archive => "ARCHIVE",
            ValueName::Left => "LEFT",
            ValueName::Right => "RIGHT",
            ValueName::Script => "SCRIPT",
            ValueName::Preference | ValueName::FolderPreference => "SIDE",
            ValueName::After => "AFTER",
        }
    }

    /// What it has to be.
    pub fn wanted(self) -> &'static str {
        match self {
            ValueName::Kind => "'replica' or 'archive'",
            ValueName::Pair | ValueName::Connections | ValueName::Seconds | ValueName::Lines =>
                "a decimal number below 2^64",
            ValueName::User => "a decimal number below 2^32",
            ValueName::Mode => "three octal digits",
            ValueName::Preference => "'left' or 'right'",
            ValueName::FolderPreference => "'folder' or 'replica'",
            ValueName::After => "LEFT and RIGHT, after which an archive goes on",
            _ => "there",
        }
    }

    /// What the help of the command says of it.
    pub(crate) fn help(self, verb: Verb) -> &'static str {
        match (self, verb) {
            (ValueName::File, _) => file_help(verb),
            (ValueName::Path, Verb::Export) => {
                "The directory to export: its root where none is given"
            }
            (ValueName::Path, Verb::Import) => {
                "Where the folder goes: to the root where no path is given"
            }
            (ValueName::Folder, Verb::Import) => "The folder that is read",
            (ValueName::Folder, Verb::Reconcile) => "The folder, which may be missing",
            (ValueName::Folder, Verb::Serve) => {
                "Keeps the folder DIR the same as the replica, by edits of the user of '--user'"
            }
            (ValueName::User, Verb::Serve) => {
                "The number of the user whose edits the changes of DIR are, below 2^32"
            }
            (ValueName::Seconds, Verb::Serve) => {
                "Looks every SECONDS seconds whether DIR has changed: each second by default"
            }
            (ValueName::Archive, Verb::Reconcile) => {
                "The file of what both last agreed on, made where it is missing: else FILE.folder"
            }
            (ValueName::Left, Verb::Sync) => "HOST:PORT of the server of the left replica",
            (ValueName::Right, Verb::Sync) => "HOST:PORT of the server of the right replica",
            (ValueName::Left, Verb::Plan) => {
                "The file that has the left replica, or with '--served' HOST:PORT of its server"
            }
            (ValueName::Right, Verb::Plan) => {
                "The file that has the right replica, or with '--served' HOST:PORT of its server"
            }
            _ => self.plain_help(),
        }
    }

    /// What the help says of it where each command has it for the same.
    fn plain_help(self) -> &'static str {
        match self {
            ValueName::Command => "What to do",
            ValueName::Kind => "What the image is to hold: 'replica' or 'archive'",
            ValueName::Pair => "The number of the pair that the image belongs to, below 2^64",
            ValueName::User => "The number of the user who makes the edit, below 2^32",
            ValueName::File => "The file that has the image",
            ValueName::Path => "A path in the image: '.' for its root, else names parted by '/'",
            ValueName::Mode =>
                "Three octal digits: what the owner, the group and all others may do",
            ValueName::Folder => "The folder, which is missing or empty without '--update'",
            ValueName::Address => "HOST:PORT to listen at",
            ValueName::Connections => "Ends when N connections were served, below 2^64",
            ValueName::Seconds => {
                "Goes on: looks every SECONDS seconds, and runs a session where a side has changed"
            }
            ValueName::Lines => "Prints N lines at most: all where no number is given",
            ValueName::Archive => "The file that has the archive",
            ValueName::Left => "The file that has the left replica",
            ValueName::Right => "The file that has the right replica",
            ValueName::Script => "The file that has the steps, one a line",
            ValueName::Preference => {
                "Where both sides changed, SIDE overwrites the other: 'left' or 'right'"
            }
            ValueName::FolderPreference => {
                "Where both changed, SIDE overwrites the other: 'folder' or 'replica'"
            }
            ValueName::After => {
                "Goes on after the last session of LEFT and RIGHT, whose archive is lost"
            }
        }
    }
}

/// What the help of the command says of its file.
fn file_help(verb: Verb) -> &'static str {
    match verb {
        Verb::Put | Verb::MakeDir | Verb::Remove | Verb::Chmod | Verb::Show => {
            "The file that has the image, or with '--served' HOST:PORT of its server"
        }
        Verb::Export | Verb::Import => {
            "The file that has the replica, or with '--served' HOST:PORT of its server"
        }
        Verb::Reconcile | Verb::Serve | Verb::Log => "The file that has the replica",
        _ => "The file that has the image",
    }
}
