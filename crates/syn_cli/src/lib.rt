//! What the words of a command line ask for.
//!
//! The words are read by `clap`, whose commands are made here. A command is what the words say, or
//! there is none, and then it is told which value is wrong, or what `clap` says of the words.
//!
//! # What it promises
//!
//! - `read_words` answers the command that the words say (`ok`: `Asks`). Where they ask for help or
//!   the version it says so (`asked`), and where it tells a mistake no command is what they say
//!   (`mistaken`). A value that is told is wrong (`wrong`).
//! - So replicas to go on after are given for an archive alone, and `format` asks servers with them
//!   alone (`IsWrong`, at `After`).
#![tactic(auto)]

mod command;
mod commands;
mod error;
mod matched;
mod value;
mod values;
mod verb;
mod words;

pub use command::{
    Arguments, Between, Command, EditCommand, EditKind, Existing, ExportCommand, FolderCommand,
    FormatCommand, ImageCommand, ImageKind, ImportCommand, KeepCommand, OnStranger, Pairing,
    ReconcileCommand, ReplicaLocation, ServeCommand,
};
pub use error::WordsError;
pub use value::ValueName;
pub use verb::Verb;
pub use words::read_words;
