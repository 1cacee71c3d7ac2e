//! A crash-safe synchronizer of file trees: the program.
//!
//! `syn format KIND PAIR FILE` makes a replica or an archive. `syn put FILE USER PATH` puts
//! standard input into a replica. `syn mkdir FILE USER PATH` makes a directory, `syn rm FILE USER
//! PATH` removes what is there, and `syn chmod FILE USER PATH MODE` changes a file's mode. `syn
//! show FILE [PATH]` prints an image, `syn check FILE` its numbers, and `syn log FILE [N]` its last
//! events. `syn migrate FILE` makes an image of version 1 one of version 2. `syn export FILE DIR
//! [PATH]` writes a replica into a folder, and `syn import FILE USER DIR [PATH]` makes it what a
//! folder is. `syn reconcile` makes a folder and a replica the same, by what both last agreed on.
//!
//! `syn serve FILE ADDR` serves a replica to users, who give `--served` and its address in the
//! place of FILE, and to sessions. `syn sync ARCHIVE LEFT RIGHT` runs a session of two that are
//! served, with `--every` one whenever something changed, and `syn run LEFT RIGHT ARCHIVE` of two
//! in files. `syn plan LEFT RIGHT ARCHIVE` prints what it would do. `syn simulate SCRIPT` runs the
//! steps of a script on machines in memory, and prints what comes of them.
//!
//! The exit status is 0 where the command was done, 1 where it was refused, and 2 where the words
//! are no command. It is 3 where a session is incomplete, and 4 where it is complete with
//! conflicts. It is 5 where the session that is planned has something to do.
//!
//! # What it promises
//!
//! - Status 0 only where the words ask for a command, the help or the version; status 2 only where
//!   they ask for none.
//! - `read_words` gives a command only where `clap` finds no fault and the values are the command's
//!   (`ok`). A refusal by `clap` has a kind that `clap` states of the words (`usage`). The only
//!   other mistakes, with all values given, are wrong values. A KIND is neither `replica` nor
//!   `archive`, or a SIDE neither `left` nor `right`. A PAIR or an N is no number below 2^64, a
//!   USER is none below 2^32, or a MODE is no three octal digits. The one that is told is the wrong
//!   one (`wrong`).
//! - The disks of its lines are disks in files, and the lock of each is the system's on its file
//!   (`is_held` of `DisksInFiles`). `format` changes the length of no file to a disk's before it
//!   has the lock to write (`take_lock` of `syn_disk`, `format_file`: `held`).
//! - Words that ask for nothing are told as such (`mistaken`), and what `simulate` prints is the
//!   run of the script that it read (`PrintsRun`).
//! - That the file of the command is the one that is opened, that no file has the number of a
//!   standard stream, and that a refusal begins with the line `syn: refused N NAME` on standard
//!   error, is shown by tests alone.
#![tactic(auto)]

mod beside;
mod command;
mod files;
mod format;
mod question;
mod simulation;
mod streams;

use command::{Standard, command};
use std::alloc::Global;
use std::io::{self, BufWriter, ErrorKind, IsTerminal, Write};
use std::process::ExitCode;
use streams::open_closed_streams;
use syn_command::{Failure, Status, tell_answer};

fn main(rt: HostRuntime) -> ExitCode {
    if let Err(error) = open_closed_streams(&rt) {
        return refused(&rt, error);
    }
    let alloc = rt.alloc();
    let owned = match own_words(&rt, alloc) {
        Ok(owned) => owned,
        Err(error) if error.kind() == ErrorKind::InvalidData => return no_text(&rt),
        Err(error) => return refused(&rt, error),
    };
    let words: Vec<&str> = match owned.iter().map(|word| word.as_str()).collect(alloc) {
        Ok(words) => words,
        Err(error) => return refused(&rt, error.into()),
    };
    let mut output = match BufWriter::new(alloc, rt.stdout()) {
        Ok(output) => output,
        Err(error) => return refused(&rt, error),
    };
    let status = command(
        &rt,
        alloc,
        &words,
        &rt,
        Standard {
            input: &mut rt.stdin(),
            output: &mut output,
            errors: &mut rt.stderr(),
            is_terminal: rt.stderr().is_terminal(),
            asks: rt.stdin().is_terminal() && rt.stderr().is_terminal(),
        },
    );
    ExitCode::from(status.code())
}

/// The words of the command line, the program's own name first.
fn own_words(rt: &HostRuntime, alloc: Global) -> io::Result<Vec<String>> {
    Ok(std::env::args(rt)?.collect(alloc)?)
}

/// Tells that the words are no command, since one of them is no text.
fn no_text(rt: &HostRuntime) -> ExitCode {
    let _ = write!(
        rt.stderr(),
        "error: an argument is no text: each has to be UTF-8\n\n\
            For more information, try '--help'.\n"
    );
    ExitCode::from(Status::Usage.code())
}

/// Tells that the command was refused before it was read: it is out of memory, or a standard stream
/// was closed and nothing could be opened in its place.
fn refused(rt: &HostRuntime, error: io::Error) -> ExitCode {
    let status = tell_answer(None, &Err(Failure::from(error)), &mut rt.stderr());
    ExitCode::from(status.code())
}
