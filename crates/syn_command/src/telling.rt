//! Tells how a command came out.
ghost use Rattle.std.specs.Prelude.{◌≡◌};
ghost use Rattle.syn_command.specs.Status.{status_of};

use crate::error::{BesideError, CommandError};
use crate::failure::Failure;
use crate::mismatch::{tell_marks_mismatch, tell_mismatch, tell_older_server, tell_other_folder};
use crate::outcome::Outcome;
use crate::status::Status;
use std::io::{self, Write};
use syn_cli::{Between, Command, FormatCommand, ImageCommand};
use syn_disk::{DISK_SIZE, OpenError};
use syn_folder::FolderError;
use syn_refusal::Refusal;

/// The status of the answer. A refusal is told in one line, and where `command` is given in a
/// second one in plain words. Of a script the first faulty line is told.
///
/// An error of `errors` itself is not told: there is nowhere left to tell it.
pub fn tell_answer<E: Write>(
    command: Option<&Command<'_>>,
    answer: &Result<Outcome, Failure>,
    errors: &mut E,
) -> Status
    ensures { result ≡ status_of answer.now }
{
    match answer {
        Ok(outcome) => Status::from(*outcome),
        Err(failure) => {
            tell_failure(command, failure, errors);
            Status::from(failure)
        }
    }
}

/// Why the command was not done.
fn tell_failure<E: Write>(command: Option<&Command<'_>>, failure: &Failure, errors: &mut E) {
    match failure {
        Failure::Line(number) => {
            let _ = writeln!(errors, "syn: script line {number}");
        }
        Failure::Refused(error) | Failure::Stopped(error) => {
            refuse(error, errors);
            if let Some(command) = command {
                explain(command, error, errors);
            }
        }
    }
}

/// The line of a refusal, and one of each thing of a folder that is in its way.
fn refuse<E: Write>(error: &CommandError, errors: &mut E) {
    let number = error.number();
    let _ = writeln!(errors, "syn: refused {number} {error}");
    match error {
        CommandError::Folder(FolderError::Strange(strangers)) => {
            for stranger in strangers {
                let _ = writeln!(errors, "syn: {stranger}");
            }
        }
        CommandError::Folder(FolderError::Changed(paths)) => {
            for path in paths {
                let _ = writeln!(errors, "syn: {path} changed while the folder was read");
            }
        }
        CommandError::Apart(mismatch) => tell_mismatch(*mismatch, errors),
        CommandError::Marks(mismatch) => tell_marks_mismatch(*mismatch, errors),
        CommandError::OtherFolder(mismatch) => tell_other_folder(*mismatch, errors),
        CommandError::OlderServer(side) => tell_older_server(*side, errors),
        CommandError::Beside(BesideError::System { path, error }) => {
            let _ = writeln!(errors, "syn: {path}: {error}");
        }
        CommandError::Beside(BesideError::Strange { path }) => {
            let _ = writeln!(
                errors,
                "syn: {path} was not written by syn: give it another name"
            );
        }
        _ => {}
    }
}

/// What the command is about: its files, paths, folders and addresses.
fn name_subject<E: Write>(command: &Command<'_>, errors: &mut E) -> io::Result<()> {
    match command {
        Command::Image(image) => name_image(image, errors),
        Command::Edit(edit) => write!(errors, "syn: {} in {}", edit.path, edit.location.as_str()),
        Command::Export(export) => write!(
            errors,
            "syn: {} into {}",
            export.location.as_str(),
            export.folder
        ),
        Command::Import(import) => write!(
            errors,
            "syn: {} into {}",
            import.folder,
            import.location.as_str()
        ),
        Command::Reconcile(reconcile) => write!(
            errors,
            "syn: {} and {}",
            reconcile.folder, reconcile.file
        ),
        Command::Serve(serve) => {
            let (file, address) = (serve.file, serve.address);
            write!(errors, "syn: {file} at {address}")
        }
        Command::Session(pairing) | Command::Plan(pairing) => {
            let (Between::Files { left, right } | Between::Servers { left, right }) =
                pairing.between;
            let archive = pairing.archive;
            write!(errors, "syn: {left} and {right} with {archive}")
        }
        Command::Keep(keep) => {
            let (left, right, archive) = (keep.left, keep.right, keep.archive);
            write!(errors, "syn: {left} and {right} with {archive}")
        }
        Command::Simulate { script, .. } => write!(errors, "syn: {script}"),
    }
}

/// What a command on one image is about: its file, and the path that is shown.
fn name_image<E: Write>(command: &ImageCommand<'_>, errors: &mut E) -> io::Result<()> {
    match command {
        ImageCommand::Format(FormatCommand { file, .. })
        | ImageCommand::Check { file }
        | ImageCommand::Migrate { file }
        | ImageCommand::Log { file, .. } => write!(errors, "syn: {file}"),
        ImageCommand::Show { location } => write!(errors, "syn: {}", location.as_str()),
        ImageCommand::ShowPath { location, path } => write!(
            errors,
            "syn: {path} in {}",
            location.as_str()
        ),
    }
}

/// What was refused, of which file or path, and what the system said of it, where it said
/// something.
fn explain<E: Write>(command: &Command<'_>, error: &CommandError, errors: &mut E) {
    let _ = name_subject(command, errors);
    let refusal = error.refusal();
    let plain = refusal.explanation();
    let _ = match error {
        CommandError::Device(system)
        | CommandError::Open(OpenError::System(system))
        | CommandError::Folder(FolderError::System(system)) => {
            writeln!(errors, ": {plain} ({system})")
        }
        CommandError::Open(OpenError::Length(length)) => {
            writeln!(
                errors,
                ": {plain} (it has {length} bytes, an image {DISK_SIZE})"
            )
        }
        CommandError::Folder(FolderError::NotEmpty) => {
            writeln!(errors, ": the folder is not empty")
        }
        CommandError::Folder(FolderError::Strange(_)) => {
            writeln!(errors, ": no replica can have what is named above")
        }
        CommandError::Folder(FolderError::Changed(_)) => {
            writeln!(errors, ": somebody changes the folder")
        }
        _ if refusal == Refusal::OldVersion => {
            writeln!(errors, ": {plain}: run `syn migrate` on it")
        }
        _ => writeln!(errors, ": {plain}"),
    };
}

/// The exit statuses, and each refusal with its meaning, as the help ends.
pub fn print_meanings<W: Write>(output: &mut W) -> std::io::Result<()> {
    writeln!(output)?;
    writeln!(output, "Exit status:")?;
    writeln!(output, "  0  the command was done")?;
    writeln!(output, "  1  it was refused, and why is on standard error")?;
    writeln!(output, "  2  the words are no command")?;
    writeln!(output, "  3  the session is incomplete")?;
    writeln!(
        output,
        "  4  the session is complete, with conflicts, or would have some"
    )?;
    writeln!(
        output,
        "  5  the session that is planned would do something"
    )?;
    writeln!(output)?;
    writeln!(output, "Refusals:")?;
    for refusal in Refusal::ALL {
        let number = refusal.number();
        writeln!(output, "  {number} {refusal}: {}", refusal.explanation())?;
    }
    Ok(())
}
