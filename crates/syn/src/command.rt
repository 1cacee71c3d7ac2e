//! Carries out a command.
ghost use Rattle.std.specs.Prelude.{◌≡◌, ◌⊎◌, map, IfOk};
ghost use Rattle.syn_cli.specs.Reads.{Asks, AsksHelp, IsMistake, IsRequest};
ghost use Rattle.syn_cli.specs.declared.command.Command.{Command};

use crate::files::DisksInFiles;
use crate::format::{NewImage, format};
use crate::question::check_format;
use crate::simulation::{let_go, run_script, trace_script};
use clap::error::ErrorKind;
use std::alloc::Global;
use std::fs::Files;
use std::io::{Read, Write};
use std::net::{Net, TcpListener, TcpStream};
use std::sync::Wait;
use std::thread::Threads;
use std::time::Clock;
use syn_cli::{
    Command, FormatCommand, ImageCommand, ImportCommand, ReconcileCommand, WordsError, read_words,
};
use syn_command::{
    CommandError, Failure, Outcome, Status, Teller, Verbosity, print_meanings, tell_answer,
};
use syn_disk::OsFile;
use syn_files::{
    NamedDisks, edit, export, format_after, import, keep_servers, migrate, plan_named, print_image,
    print_log, print_numbers, print_path, print_plan, reconcile_named, run_session, serve_named,
};

/// The standard streams of a command.
#[derive(Drop)]
pub struct Standard<'s, I, O, E> {
    pub input: &'s mut I,
    /// What is asked for goes there.
    pub output: &'s mut O,
    /// Why a command is refused goes there, with what is told of its work.
    pub errors: &'s mut E,
    /// Whether the errors go to a terminal, where a refusal is explained unasked.
    pub is_terminal: bool,
    /// Whether a person is there, who is asked before something is lost.
    pub asks: bool,
}

/// Carries out what the words ask for, of which the first is the program's own name.
///
/// Paths are read before a file is opened, and the input after it.
pub fn command<H, F, I, O, E>(
    rt: &H,
    alloc: Global,
    words: &[&str],
    files: &F,
    streams: Standard<'_, I, O, E>,
) -> Status
where
    H: Net<Listener = TcpListener, Stream = TcpStream> + Threads + Wait + Clock + Eprint,
    H: Copy + Sync,
    F: Files + Sync,
    F::File: OsFile + Send + Sync,
    F::Dir: Send,
    I: Read,
    O: Write,
    E: Write,
    ensures done { result ≡ Status.Done
        → ((command : Command) × Asks (map (λ word. word.now) words.entry.now) command)
        ⊎ AsksHelp (map (λ word. word.now) words.entry.now) }
    ensures usage { result ≡ Status.Usage
        → (command : Command) → ¬ Asks (map (λ word. word.now) words.entry.now) command }

    // Words that ask for nothing are told as such, or memory is refused while they are read.
    ensures mistaken { ((command : Command)
        → ¬ Asks (map (λ word. word.now) words.entry.now) command)
        → ¬ AsksHelp (map (λ word. word.now) words.entry.now)
        → (result ≡ Status.Usage) ⊎ (result ≡ Status.Refused) }
{
    let Standard {
        input,
        output,
        errors,
        is_terminal,
        asks,
    } = streams;
    let arguments = match read_words(alloc, words) {
        Ok(arguments) => arguments,
        Err(error) => return tell(&error, output, errors),
    };
    let context = Context {
        rt,
        alloc,
        files,
        disks: &DisksInFiles(files),
        verbosity: Verbosity {
            each: arguments.is_verbose,
            counts: is_terminal,
        },
        asks,
    };
    let answer = carry_out(&context, &arguments.command, input, output, errors);
    if arguments.is_verbose || is_terminal {
        tell_answer(Some(&arguments.command), &answer, errors)
    } else {
        tell_answer(None, &answer, errors)
    }
}

/// What a command works with: the machine, its files, and disks, which may be any; and how much it
/// tells of what it does.
#[derive(Drop)]
struct Context<'c, H, F, N> {
    rt: &'c H,
    alloc: Global,
    files: &'c F,
    disks: &'c N,
    verbosity: Verbosity,
    /// Whether a person is asked before something is lost.
    asks: bool,
}

/// Tells why the words are no command, or the help or the version where the words ask for it.
fn tell<O: Write, E: Write>(error: &WordsError, output: &mut O, errors: &mut E) -> Status
    ensures done { result ≡ Status.Done → IsRequest error.now }
    ensures usage { result ≡ Status.Usage → IsMistake error.now }
    ensures mistake { IsMistake error.now → ¬ IsRequest error.now → result ≡ Status.Usage }
    ensures mistaken { ¬ IsRequest error.now → (result ≡ Status.Usage) ⊎ (result ≡ Status.Refused) }
{
    match error {
        WordsError::Memory => {
            let failure = Failure::Refused(CommandError::Memory);
            return tell_answer(None, &Err(failure), errors);
        }
        WordsError::Usage(asked) => match asked.kind() {
            ErrorKind::DisplayHelp | ErrorKind::DisplayVersion => {
                return tell_answer(None, &help(asked, output), errors);
            }
            _ => {}
        },
        WordsError::Value(_) => {}
    }
    let _ = write!(errors, "{error}");
    Status::Usage
}

/// Prints the help with the meaning of each status and refusal, or the version.
fn help<O: Write>(asked: &clap::Error, output: &mut O) -> Result<Outcome, Failure>
    ensures { IfOk result (λ came. came ≡ Outcome.Done) }
{
    write!(output, "{asked}")?;
    if let ErrorKind::DisplayHelp = asked.kind() {
        print_meanings(output)?;
    }
    output.flush()?;
    Ok(Outcome::Done)
}

/// Carries out the command, and answers what it came to.
fn carry_out<H, F, N, I, O, E>(
    context: &Context<'_, H, F, N>,
    command: &Command<'_>,
    input: &mut I,
    output: &mut O,
    errors: &mut E,
) -> Result<Outcome, Failure>
where
    H: Net<Listener = TcpListener, Stream = TcpStream> + Threads + Wait + Clock + Eprint,
    H: Copy + Sync,
    F: Files + Sync,
    F::File: OsFile + Send + Sync,
    F::Dir: Send,
    N: NamedDisks + Sync,
    I: Read,
    O: Write,
    E: Write,
{
    let (rt, alloc, disks) = (context.rt, context.alloc, context.disks);
    let verbosity = context.verbosity;
    let teller = &mut Teller { verbosity, errors };
    let outcome = match command {
        Command::Session(pairing) => { run_session(rt, alloc, disks, *pairing, output, teller)? }
        Command::Keep(command) => {
            keep_servers(rt, alloc, disks, command, output, teller).map_err(stopped)?
        }
        Command::Plan(pairing) => print_plan(rt, alloc, disks, *pairing, output)?,
        Command::Edit(command) => print_done(edit(rt, alloc, disks, command, input)?, output)?,
        Command::Import(command) => import_into(context, command, output, teller)?,
        Command::Reconcile(command) => reconcile_with(context, command, output, teller)?,
        Command::Export(command) => print_done(
            export(rt, alloc, disks, context.files, command)?,
            output,
        )?,
        Command::Image(command) => carry_out_on_image(context, command, input, output, teller)?,
        Command::Serve(command) => {
            serve_named(rt, alloc, disks, context.files, command)?;
            Outcome::Done
        }
        Command::Simulate { script, is_traced } => {
            play_script(alloc, context.files, script, *is_traced, output)?;
            Outcome::Done
        }
    };
    output.flush()?;
    Ok(outcome)
}

/// Makes what is in a replica what stands in a folder.
fn import_into<H, F, N, O, E>(
    context: &Context<'_, H, F, N>,
    command: &ImportCommand<'_>,
    output: &mut O,
    teller: &mut Teller<'_, E>,
) -> Result<Outcome, Failure>
where
    H: Net<Stream = TcpStream>,
    F: Files,
    N: NamedDisks,
    O: Write,
    E: Write,
{
    let (rt, alloc, disks) = (context.rt, context.alloc, context.disks);
    let position = import(rt, alloc, disks, context.files, command, teller)?;
    print_done(position, output)
}

/// Makes a folder and a replica the same, or prints what that would do.
fn reconcile_with<H, F, N, O, E>(
    context: &Context<'_, H, F, N>,
    command: &ReconcileCommand<'_>,
    output: &mut O,
    teller: &mut Teller<'_, E>,
) -> Result<Outcome, Failure>
where
    F: Files,
    N: NamedDisks,
    O: Write,
    E: Write,
{
    let (alloc, disks, files) = (context.alloc, context.disks, context.files);
    let outcome = if command.is_dry {
        plan_named(alloc, disks, files, command, output, teller.errors)?
    } else {
        reconcile_named(alloc, disks, files, command, output, teller)?
    };
    Ok(outcome)
}

/// Servers that were kept the same are left once they and the archive do not belong together, which
/// nothing mends but a person.
fn stopped(error: CommandError) -> Failure {
    match error {
        CommandError::Apart(_) => Failure::Stopped(error),
        _ => Failure::Refused(error),
    }
}

/// Prints `ok` and the position of the replica's last event.
fn print_done<O: Write>(position: u64, output: &mut O) -> Result<Outcome, Failure> {
    writeln!(output, "ok {position}")?;
    Ok(Outcome::Done)
}

/// Carries out a command about an image, and answers what it came to.
fn carry_out_on_image<H, F, N, I, O, E>(
    context: &Context<'_, H, F, N>,
    command: &ImageCommand<'_>,
    input: &mut I,
    output: &mut O,
    teller: &mut Teller<'_, E>,
) -> Result<Outcome, Failure>
where
    H: Net<Listener = TcpListener, Stream = TcpStream> + Clock,
    F: Files,
    F::File: OsFile,
    N: NamedDisks,
    I: Read,
    O: Write,
    E: Write,
{
    let (rt, alloc, disks) = (context.rt, context.alloc, context.disks);
    match command {
        ImageCommand::Format(asked) => {
            make_image(context, asked, input, teller.errors)?;
            writeln!(output, "ok")?;
        }
        ImageCommand::Show { location } => print_image(rt, alloc, disks, *location, output)?,
        ImageCommand::ShowPath { location, path } => print_path(
            rt, alloc, disks, *location, path, output,
        )?,
        ImageCommand::Check { file } => print_numbers(alloc, disks, file, output)?,
        ImageCommand::Migrate { file } => {
            migrate(alloc, disks, file)?;
            writeln!(output, "ok")?;
        }
        ImageCommand::Log { file, lines } => print_log(alloc, disks, file, *lines, output)?,
    }
    Ok(Outcome::Done)
}

/// Makes a file an image; an archive may go on with two sides that have a history. Unless that is
/// forced, the file is looked at first.
fn make_image<H, F, N, I, E>(
    context: &Context<'_, H, F, N>,
    asked: &FormatCommand<'_>,
    input: &mut I,
    errors: &mut E,
) -> Result<(), CommandError>
where
    H: Net<Stream = TcpStream>,
    F: Files,
    F::File: OsFile,
    N: NamedDisks,
    I: Read,
    E: Write,
{
    let (rt, alloc, disks) = (context.rt, context.alloc, context.disks);
    if !asked.force {
        // A person who goes on with both sides has looked already.
        let asks = context.asks && asked.after.is_none();
        check_format(alloc, context.files, disks, asked.file, asks, input, errors)?;
    }
    match asked.after {
        Some(between) => format_after(rt, alloc, disks, asked.file, asked.pair, between),
        None => {
            let image = NewImage::from(asked.kind);
            format(
                alloc,
                context.files,
                asked.file,
                image,
                asked.pair,
                asked.force,
            )
        }
    }
}

/// Runs the script in the file, and draws its steps first where they are traced.
fn play_script<F: Files, O: Write>(
    alloc: Global,
    files: &F,
    script: &str,
    is_traced: bool,
    output: &mut O,
) -> Result<(), Failure>
where
    F::File: OsFile,
{
    if is_traced {
        let_go(trace_script(alloc, files, script, output)?);
    } else {
        let_go(run_script(alloc, files, script, output)?);
    }
    Ok(())
}
