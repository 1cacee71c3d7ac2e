//! The commands of the program.
ghost use Rattle.std.specs.Prelude.{◌≡◌, ◌≢◌, IfSome, IfNone};
ghost use Rattle.syn_cli.specs.Verbs.{values_of, word_of};
ghost use Rattle.syn_cli.specs.declared.verb.Verb.{Verb as Word};

use crate::value::ValueName;

/// What a command does.
#[derive(Clone, Copy, Debug, PartialEq, Eq)]
pub enum Verb {
    /// Makes a file an image.
    Format,
    /// Puts standard input.
    Put,
    /// Makes a directory.
    MakeDir,
    /// Removes what stands there.
    Remove,
    /// Changes the mode of a file.
    Chmod,
    /// Prints an image, or what stands at a path.
    Show,
    /// Prints the numbers of an image.
    Check,
    /// Makes an image of version 1 one of version 2.
    Migrate,
    /// Prints the last events of a replica.
    Log,
    /// Writes a part of a replica into a folder.
    Export,
    /// Makes a part of a replica what a folder is.
    Import,
    /// Makes a folder and a replica the same.
    Reconcile,
    /// Serves a replica.
    Serve,
    /// Runs a session of two replicas that are served.
    Sync,
    /// Runs a session of two replicas in files.
    Run,
    /// Prints what a session would do.
    Plan,
    /// Runs the steps of a script.
    Simulate,
}

impl Verb {
    /// All commands, in the order of the help.
    pub const ALL: [Verb; 17] = [
        Verb::Format,
        Verb::Put,
        Verb::MakeDir,
        Verb::Remove,
        Verb::Chmod,
        Verb::Show,
        Verb::Check,
        Verb::Migrate,
        Verb::Log,
        Verb::Export,
        Verb::Import,
        Verb::Reconcile,
        Verb::Serve,
        Verb::Sync,
        Verb::Run,
        Verb::Plan,
        Verb::Simulate,
    ];

    /// The word that it is called by.
    pub fn as_str(self) -> &'static str
        ensures { result.now ≡ word_of self }
    {
        match self {
            Verb::Format => "format",
            Verb::Put => "put",
            Verb::MakeDir => "mkdir",
            Verb::Remove => "rm",
            Verb::Chmod => "chmod",
            Verb::Show => "show",
            Verb::Check => "check",
            Verb::Migrate => "migrate",
            Verb::Log => "log",
            Verb::Export => "export",
            Verb::Import => "import",
            Verb::Reconcile => "reconcile",
            Verb::Serve => "serve",
            Verb::Sync => "sync",
            Verb::Run => "run",
            Verb::Plan => "plan",
            Verb::Simulate => "simulate",
        }
    }

    /// The values that it requires, in their order.
    pub(crate) fn values(self) -> &'static [ValueName]
        ensures { result.now ≡ values_of self }
    {
        match self {
            Verb::Format => &[ValueName::Kind, ValueName::Pair, ValueName::File],
            Verb::Put | Verb::MakeDir | Verb::Remove => {
                &[ValueName::File, ValueName::User, ValueName::Path]
            }
            Verb::Chmod => {
                &[
                    ValueName::File,
                    ValueName::User,
                    ValueName::Path,
                    ValueName::Mode,
                ]
            }
            Verb::Show | Verb::Check | Verb::Migrate | Verb::Log => &[ValueName::File],
            Verb::Export => &[ValueName::File, ValueName::Folder],
            Verb::Import => &[ValueName::File, ValueName::User, ValueName::Folder],
            Verb::Reconcile => &[ValueName::Folder, ValueName::File, ValueName::User],
            Verb::Serve => &[ValueName::File, ValueName::Address],
            Verb::Sync => &[ValueName::Archive, ValueName::Left, ValueName::Right],
            Verb::Run | Verb::Plan => &[ValueName::Left, ValueName::Right, ValueName::Archive],
            Verb::Simulate => &[ValueName::Script],
        }
    }

    /// What the help says of it.
    pub(crate) fn about(self) -> &'static str {
        match self {
            Verb::Format => {
                "Makes FILE an image of KIND, `replica` or `archive`, for the pair numbered PAIR"
            }
            Verb::Put => "Puts standard input at PATH, as an edit of the user numbered USER",
            Verb::MakeDir => "Makes a directory at PATH, as an edit of the user numbered USER",
            Verb::Remove => {
                "Removes what is at PATH, with all below it, as an edit of the user numbered USER"
            }
            Verb::Chmod => {
                "Gives the file at PATH the mode MODE, as an edit of the user numbered USER"
            }
            Verb::Show => "Prints an image, or a file or a directory of it",
            Verb::Check => "Opens an image, and prints its numbers",
            Verb::Migrate =>
                "Makes an image of version 1 one of version 2, which this program reads",
            Verb::Log => "Prints the last events of a replica, the newest first",
            Verb::Export => "Writes a replica, or a directory of it, into the folder DIR",
            Verb::Import => {
                "Makes a replica, or a directory of it, what the folder DIR is, by edits of USER"
            }
            Verb::Reconcile => {
                "Makes the folder DIR and the replica in FILE the same, by what both last agreed on"
            }
            Verb::Serve => "Serves the replica in FILE at ADDR, to users and to `syn sync`",
            Verb::Sync => "Runs one session of two replicas that are served, and prints its report",
            Verb::Run => "Runs one session of two replicas in files, and prints its report",
            Verb::Plan => "Prints what a session would do, and does nothing",
            Verb::Simulate => {
                "Runs a script of steps on two replicas, an archive and their sessions, in memory"
            }
        }
    }
}

/// The command that the word calls.
pub(crate) fn read_verb(word: &str) -> Option<Verb>
    ensures some { IfSome result (λ verb. word.now ≡ word_of verb) }
    ensures none { IfNone result ((verb : Word) → word.now ≢ word_of verb) }
{
    match word {
        "format" => Some(Verb::Format),
        "put" => Some(Verb::Put),
        "mkdir" => Some(Verb::MakeDir),
        "rm" => Some(Verb::Remove),
        "chmod" => Some(Verb::Chmod),
        "show" => Some(Verb::Show),
        "check" => Some(Verb::Check),
        "migrate" => Some(Verb::Migrate),
        "log" => Some(Verb::Log),
        "export" => Some(Verb::Export),
        "import" => Some(Verb::Import),
        "reconcile" => Some(Verb::Reconcile),
        "serve" => Some(Verb::Serve),
        "sync" => Some(Verb::Sync),
        "run" => Some(Verb::Run),
        "plan" => Some(Verb::Plan),
        "simulate" => Some(Verb::Simulate),
        _ => None,
    }
}
