//! What a command line asks for.
ghost use Rattle.std.specs.Prelude.{◌≡◌};
ghost use Rattle.syn_cli.specs.Places.{text_of};

use syn_path::Side;
use syn_tree::Mode;

/// What an image holds.
#[derive(Clone, Copy, Debug, PartialEq, Eq)]
pub enum ImageKind {
    /// A tree of files with the history of its edits.
    Replica,
    /// The marks that both sides last agreed on.
    Archive,
}

/// What an edit does.
#[derive(Clone, Copy, Debug, PartialEq, Eq)]
pub enum EditKind {
    /// Puts standard input.
    Put,
    /// Makes a directory.
    MakeDir,
    /// Removes what stands there, with all below it.
    Remove,
    /// Gives the file that stands there this mode.
    Chmod(Mode),
}

/// Where a replica is.
#[derive(Clone, Copy, Debug, PartialEq, Eq)]
pub enum ReplicaLocation<'a> {
    /// In the file of this name.
    File(&'a str),
    /// After the server at this HOST:PORT. The text is looked at when it is used.
    Served(&'a str),
}

impl<'a> ReplicaLocation<'a> {
    /// The name of the file, or the address of the server.
    pub fn as_str(&self) -> &'a str
        ensures { result.now ≡ text_of self.now }
    {
        match self {
            ReplicaLocation::File(file) => file,
            ReplicaLocation::Served(address) => address,
        }
    }
}

/// What an export does with a folder that has something.
#[derive(Clone, Copy, Debug, PartialEq, Eq)]
pub enum Existing {
    /// It is refused.
    Refused,
    /// What differs is written, and nothing is removed.
    Updated,
    /// What differs is written, and what is not exported is removed.
    Mirrored,
}

/// What becomes of something in a folder that can stand in no replica.
#[derive(Clone, Copy, Debug, PartialEq, Eq)]
pub enum OnStranger {
    /// All is refused.
    Refuse,
    /// It is left out, and told.
    Skip,
}

/// An edit of a replica at a path, by a user.
#[derive(Clone, Copy, Debug, PartialEq, Eq)]
pub struct EditCommand<'a> {
    pub kind: EditKind,
    pub location: ReplicaLocation<'a>,
    pub user: u32,
    pub path: &'a str,
}

/// An export of a directory of a replica into a folder. With no path it is the root.
#[derive(Clone, Copy, Debug, PartialEq, Eq)]
pub struct ExportCommand<'a> {
    pub location: ReplicaLocation<'a>,
    pub folder: &'a str,
    pub path: Option<&'a str>,
    pub existing: Existing,
}

/// An import of a folder into a directory of a replica, by a user. With no path it is the root.
#[derive(Clone, Copy, Debug, PartialEq, Eq)]
pub struct ImportCommand<'a> {
    pub location: ReplicaLocation<'a>,
    pub user: u32,
    pub folder: &'a str,
    pub path: Option<&'a str>,
    pub on_stranger: OnStranger,
}

/// A folder and a replica that are to be the same.
#[derive(Clone, Copy, Debug, PartialEq, Eq)]
pub struct ReconcileCommand<'a> {
    pub folder: &'a str,
    /// The file that has the replica.
    pub file: &'a str,
    /// Whose edits the folder's changes are.
    pub user: u32,
    /// The file of what both last agreed on; with none it stands beside the replica.
    pub archive: Option<&'a str>,
    /// The folder is the left side, and the replica the right one.
    pub preference: Option<Side>,
    /// What would be done is printed, and nothing is done.
    pub is_dry: bool,
    /// A side that has become empty empties the other.
    pub is_emptied: bool,
    /// It begins without marks, and with the replica as it is.
    pub is_anew: bool,
}

/// What a session is between.
#[derive(Clone, Copy, Debug, PartialEq, Eq)]
pub enum Between<'a> {
    /// The replicas in the files of these names.
    Files { left: &'a str, right: &'a str },
    /// The replicas that are served at these addresses, each HOST:PORT. A text is looked at when it
    /// is used.
    Servers { left: &'a str, right: &'a str },
}

/// Two replicas and their archive, and the side whose change wins where both changed.
#[derive(Clone, Copy, Debug, PartialEq, Eq)]
pub struct Pairing<'a> {
    pub between: Between<'a>,
    /// The file of the archive.
    pub archive: &'a str,
    pub preference: Option<Side>,
}

/// Two servers that are to be kept the same.
#[derive(Clone, Copy, Debug, PartialEq, Eq)]
pub struct KeepCommand<'a> {
    /// The address of each, HOST:PORT. A text is looked at when it is used.
    pub left: &'a str,
    pub right: &'a str,
    /// The file of the archive.
    pub archive: &'a str,
    pub preference: Option<Side>,
    /// So many seconds pass between two looks.
    pub seconds: u64,
}

/// A replica that is to be served.
#[derive(Clone, Copy, Debug, PartialEq, Eq)]
pub struct ServeCommand<'a> {
    /// The file that has the replica.
    pub file: &'a str,
    /// HOST:PORT to listen at. The text is looked at when it is used.
    pub address: &'a str,
    /// The server ends when so many connections were served; with none it goes on.
    pub connections: Option<u64>,
    /// The folder that is kept the same as the replica meanwhile, if one is.
    pub folder: Option<FolderCommand<'a>>,
}

/// A folder that is kept the same as a replica.
#[derive(Clone, Copy, Debug, PartialEq, Eq)]
pub struct FolderCommand<'a> {
    pub folder: &'a str,
    /// Whose edits the folder's changes are.
    pub user: u32,
    /// So many seconds pass between two looks: one where none are given.
    pub seconds: Option<u64>,
}

/// An image that is to be made.
#[derive(Clone, Copy, Debug, PartialEq, Eq)]
pub struct FormatCommand<'a> {
    pub kind: ImageKind,
    pub pair: u64,
    pub file: &'a str,
    /// The replicas of the pair, where the image is an archive that goes on after a lost one.
    pub after: Option<Between<'a>>,
    /// Nothing is asked, and nothing is refused but an image that is in use.
    pub force: bool,
}

/// What is done about an image.
#[derive(Clone, Copy, Debug, PartialEq, Eq)]
pub enum ImageCommand<'a> {
    /// Makes a file an image.
    Format(FormatCommand<'a>),
    /// Prints a whole image.
    Show {
        location: ReplicaLocation<'a>,
    },
    /// Prints what stands at the path.
    ShowPath {
        location: ReplicaLocation<'a>,
        path: &'a str,
    },
    /// Prints the numbers of the image in a file.
    Check {
        file: &'a str,
    },
    /// Makes the image of version 1 in a file one of version 2.
    Migrate {
        file: &'a str,
    },
    /// Prints the last events of the replica in a file, so many at most.
    Log {
        file: &'a str,
        lines: Option<u64>,
    },
}

/// A command with its values.
#[derive(Clone, Copy, Debug, PartialEq, Eq)]
pub enum Command<'a> {
    /// Makes, prints or migrates an image.
    Image(ImageCommand<'a>),
    /// Edits a replica.
    Edit(EditCommand<'a>),
    /// Writes what a directory of a replica has into a folder.
    Export(ExportCommand<'a>),
    /// Makes a directory of a replica what a folder is.
    Import(ImportCommand<'a>),
    /// Makes a folder and a replica the same.
    Reconcile(ReconcileCommand<'a>),
    /// Serves the replica in a file.
    Serve(ServeCommand<'a>),
    /// Runs a session.
    Session(Pairing<'a>),
    /// Runs a session of two servers, and others whenever one of them has changed.
    Keep(KeepCommand<'a>),
    /// Prints what a session would do.
    Plan(Pairing<'a>),
    /// Runs the steps of a script on a world of three machines in memory, and tells each of them
    /// where it is traced.
    Simulate { script: &'a str, is_traced: bool },
}

/// A command, and whether more is to be told of it: each item of a session, and what a refusal
/// means.
#[derive(Clone, Copy, Debug, PartialEq, Eq)]
pub struct Arguments<'a> {
    pub command: Command<'a>,
    pub is_verbose: bool,
}
