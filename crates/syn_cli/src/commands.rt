//! The commands of the program, as `clap` reads and explains them.
ghost use Rattle.std.specs.Prelude.{◌≡◌, IfOk, false};
ghost use Rattle.clap.specs.Words.{app_of, rule_of, with_rule};
ghost use Rattle.clap.specs.declared.Command.TheViews.{out-Command};
ghost use Rattle.syn_cli.specs.App.{after_rule, flag_rule, option_rule, syn_app, top_app, verb_app};
ghost use Rattle.syn_cli.specs.App.{verbose_rule, with_options, with_preference, word_app};
ghost use Rattle.syn_cli.specs.App.{with_folder_values, with_reconcile_values};
ghost use Rattle.syn_cli.specs.declared.verb.Verb.TheVariants.{Export, Format, Reconcile, Serve};

use crate::value::ValueName;
use crate::verb::Verb;
use clap::{Arg, ArgAction, Command};
use std::alloc::{AllocError, Global};

/// What the words of a command line stand for, as the help ends.
const TERMS: &str = "\
An image is a file of 8 MiB. It holds a replica, which is a tree of files and directories with the
history of its edits, or an archive, which is what two replicas last agreed on. A pair is the number
of the two replicas that are to be kept the same, and of their archive. A user is the number of
somebody who edits. HOST:PORT is the name or the address of a machine, a colon and the number of a
port, as in localhost:7007, where a server listens. A folder of yours is read and written by
commands that have DIR among their words, and by no others.";

/// What the help says of the flag of each command.
const VERBOSE: &str = "Explains a refusal in plain words, and tells each item of a session";

/// What the help says of the flag by which a server is asked.
const SERVED: &str = "Asks the server at HOST:PORT, which stands in the place of FILE";

/// What the help says of the flag by which two servers are asked.
const BOTH_SERVED: &str = "Asks the servers at LEFT and at RIGHT, each HOST:PORT";

/// What the help says of the flag by which a format overwrites what it finds.
const FORCE: &str = "Asks nothing, and refuses nothing but an image that is in use";

/// What the help says of the flag by which a simulation tells its steps.
const TRACE: &str = "Prints each message, stop and opening before the reports";

/// What the help says of the flag by which an export changes a folder.
const UPDATE: &str = "Writes what differs into a DIR that is there, and removes nothing";

/// What the help says of the flag by which an export removes.
const DELETE: &str = "As '--update', and removes from DIR what is not exported";

/// What the help says of the flag by which a reconciliation is only shown.
const DRY_RUN: &str = "Prints what would be done, and does nothing";

/// What the help says of the flag by which an empty side empties the other.
const EMPTIED: &str = "Carries it, too, where one side has become empty";

/// What the help says of the flag by which a reconciliation begins without marks.
const ANEW: &str = "Begins without marks, with the replica as it is: it removes nothing";

/// What the help says of the flag by which an import leaves something out.
const SKIP: &str = "Leaves out what can stand in no replica, and tells it";

/// A flag, whose id is its long name too.
fn flag<'a>(alloc: Global, id: &'a str) -> Arg<'a>
    ensures rule { rule_of result ≡ flag_rule id.entry.now }
    ensures local { result.global ≡ false }
{
    Arg::new(alloc, id).long(id).action(ArgAction::SetTrue)
}

/// The command with the flag of this long name.
fn with_flag<'a>(
    alloc: Global,
    command: Command<'a>,
    id: &'a str,
    help: &'a str,
) -> Result<Command<'a>, AllocError>
    requires { (out-Command command).has_globals ≡ false }
    ensures app { IfOk result (λ c.
        app_of c ≡ with_rule (app_of command.entry) (flag_rule id.entry.now)) }
    ensures globals { IfOk result (λ c. (out-Command c).has_globals ≡ false) }
{
    command.arg(flag(alloc, id).help(help))
}

/// The command with the option of this long name, which has a value.
fn with_option<'a>(
    alloc: Global,
    command: Command<'a>,
    id: &'a str,
    long: &'a str,
    help: &'a str,
) -> Result<Command<'a>, AllocError>
    requires { (out-Command command).has_globals ≡ false }
    ensures app { IfOk result (λ c.
        app_of c ≡ with_rule (app_of command.entry) (option_rule id.entry.now long.entry.now)) }
    ensures globals { IfOk result (λ c. (out-Command c).has_globals ≡ false) }
{
    let option = Arg::new(alloc, id).long(long);
    command.arg(option.help(help))
}

/// The command with the flag that asks for an explanation.
fn with_verbose<'a>(alloc: Global, command: Command<'a>) -> Result<Command<'a>, AllocError>
    requires { (out-Command command).has_globals ≡ false }
    ensures app { IfOk result (λ c. app_of c ≡ with_rule (app_of command.entry) verbose_rule) }
    ensures globals { IfOk result (λ c. (out-Command c).has_globals ≡ false) }
{
    command.arg(flag(alloc, "verbose").short('v').help(VERBOSE))
}

/// A command with its values, each required, in the order of their names.
fn word_command<'a>(alloc: Global, verb: Verb) -> Result<Command<'a>, AllocError>
    ensures app { IfOk result (λ c. app_of c ≡ word_app verb) }
    ensures globals { IfOk result (λ c. (out-Command c).has_globals ≡ false) }
{
    let name: &'a str = verb.as_str();
    let about: &'a str = verb.about();
    let mut command = Command::new(alloc, name).about(about);
    let values = verb.values();
    for value in values {
        let id: &'a str = value.as_str();
        let help: &'a str = value.help(verb);
        let arg = Arg::new(alloc, id).required(true);
        command = command.arg(arg.help(help))?;
    }
    Ok(command)
}

/// The command with what may be left out of it.
fn with_optional<'a>(
    alloc: Global,
    verb: Verb,
    command: Command<'a>,
) -> Result<Command<'a>, AllocError>
    requires { (out-Command command).has_globals ≡ false }
    ensures app { IfOk result (λ c. app_of c ≡ with_options verb (app_of command.entry)) }
    ensures globals { IfOk result (λ c. (out-Command c).has_globals ≡ false) }
{
    match verb {
        Verb::Format => with_format_options(alloc, command),
        Verb::Put | Verb::MakeDir | Verb::Remove | Verb::Chmod => {
            with_flag(alloc, command, "served", SERVED)
        }
        Verb::Show => {
            let help: &'a str = ValueName::Path.help(verb);
            let path = Arg::new(alloc, "PATH").help(help);
            with_flag(alloc, command.arg(path)?, "served", SERVED)
        }
        Verb::Export => with_export_options(alloc, command),
        Verb::Import => {
            let help: &'a str = ValueName::Path.help(verb);
            let path = Arg::new(alloc, "PATH").help(help);
            let skipping = with_flag(alloc, command.arg(path)?, "skip", SKIP)?;
            with_flag(alloc, skipping, "served", SERVED)
        }
        Verb::Reconcile => with_reconcile_options(alloc, command),
        Verb::Serve => with_serve_options(alloc, command),
        Verb::Log => {
            let help: &'a str = ValueName::Lines.help(verb);
            command.arg(Arg::new(alloc, "N").help(help))
        }
        Verb::Sync => {
            let preferring = with_preference(alloc, verb, command)?;
            let help: &'a str = ValueName::Seconds.help(verb);
            with_option(alloc, preferring, "SECONDS", "every", help)
        }
        Verb::Run => with_preference(alloc, verb, command),
        Verb::Plan => {
            let preferring = with_preference(alloc, verb, command)?;
            with_flag(alloc, preferring, "served", BOTH_SERVED)
        }
        Verb::Simulate => with_flag(alloc, command, "trace", TRACE),
        Verb::Check | Verb::Migrate => Ok(command),
    }
}

/// The command with the option by which a session prefers a side.
fn with_preference<'a>(
    alloc: Global,
    verb: Verb,
    command: Command<'a>,
) -> Result<Command<'a>, AllocError>
    requires { (out-Command command).has_globals ≡ false }
    ensures app { IfOk result (λ c. app_of c ≡ with_preference (app_of command.entry)) }
    ensures globals { IfOk result (λ c. (out-Command c).has_globals ≡ false) }
{
    let help: &'a str = ValueName::Preference.help(verb);
    with_option(alloc, command, "SIDE", "prefer", help)
}

/// The command with what may be left out of a format.
fn with_format_options<'a>(alloc: Global, command: Command<'a>) -> Result<Command<'a>, AllocError>
    requires { (out-Command command).has_globals ≡ false }
    ensures app { IfOk result (λ c. app_of c ≡ with_options Format (app_of command.entry)) }
    ensures globals { IfOk result (λ c. (out-Command c).has_globals ≡ false) }
{
    let following = with_after(alloc, command)?;
    let asking = with_flag(alloc, following, "served", BOTH_SERVED)?;
    with_flag(alloc, asking, "force", FORCE)
}

/// The command with the option by which an archive goes on. It has two values.
fn with_after<'a>(alloc: Global, command: Command<'a>) -> Result<Command<'a>, AllocError>
    requires { (out-Command command).has_globals ≡ false }
    ensures app { IfOk result (λ c. app_of c ≡ with_rule (app_of command.entry) after_rule) }
    ensures globals { IfOk result (λ c. (out-Command c).has_globals ≡ false) }
{
    let help: &'a str = ValueName::After.help(Verb::Format);
    let sides: &'a [&'a str] = &["LEFT", "RIGHT"];
    let after = Arg::new(alloc, "AFTER").long("after").value_names(sides);
    command.arg(after.help(help))
}

/// The command with what may be left out of an export.
fn with_export_options<'a>(alloc: Global, command: Command<'a>) -> Result<Command<'a>, AllocError>
    requires { (out-Command command).has_globals ≡ false }
    ensures app { IfOk result (λ c. app_of c ≡ with_options Export (app_of command.entry)) }
    ensures globals { IfOk result (λ c. (out-Command c).has_globals ≡ false) }
{
    let help: &'a str = ValueName::Path.help(Verb::Export);
    let path = Arg::new(alloc, "PATH").help(help);
    let updating = with_flag(alloc, command.arg(path)?, "update", UPDATE)?;
    let deleting = with_flag(alloc, updating, "delete", DELETE)?;
    with_flag(alloc, deleting, "served", SERVED)
}

/// The command with what may be left out of a reconciliation.
fn with_reconcile_options<'a>(
    alloc: Global,
    command: Command<'a>,
) -> Result<Command<'a>, AllocError>
    requires { (out-Command command).has_globals ≡ false }
    ensures app { IfOk result (λ c. app_of c ≡ with_options Reconcile (app_of command.entry)) }
    ensures globals { IfOk result (λ c. (out-Command c).has_globals ≡ false) }
{
    let placed = with_reconcile_values(alloc, command)?;
    let showing = with_flag(alloc, placed, "dry-run", DRY_RUN)?;
    let emptying = with_flag(alloc, showing, "emptied", EMPTIED)?;
    with_flag(alloc, emptying, "anew", ANEW)
}

/// The command with the options of a reconciliation that have a value.
fn with_reconcile_values<'a>(alloc: Global, command: Command<'a>) -> Result<Command<'a>, AllocError>
    requires { (out-Command command).has_globals ≡ false }
    ensures app { IfOk result (λ c. app_of c ≡ with_reconcile_values (app_of command.entry)) }
    ensures globals { IfOk result (λ c. (out-Command c).has_globals ≡ false) }
{
    let side: &'a str = ValueName::FolderPreference.help(Verb::Reconcile);
    let archive: &'a str = ValueName::Archive.help(Verb::Reconcile);
    let preferring = with_option(alloc, command, "SIDE", "prefer", side)?;
    with_option(alloc, preferring, "ARCHIVE", "archive", archive)
}

/// The command with what may be left out of a server.
fn with_serve_options<'a>(alloc: Global, command: Command<'a>) -> Result<Command<'a>, AllocError>
    requires { (out-Command command).has_globals ≡ false }
    ensures app { IfOk result (λ c. app_of c ≡ with_options Serve (app_of command.entry)) }
    ensures globals { IfOk result (λ c. (out-Command c).has_globals ≡ false) }
{
    let connections: &'a str = ValueName::Connections.help(Verb::Serve);
    let counting = with_option(alloc, command, "N", "connections", connections)?;
    with_folder_options(alloc, counting)
}

/// The command with the options of a folder that is kept the same.
fn with_folder_options<'a>(alloc: Global, command: Command<'a>) -> Result<Command<'a>, AllocError>
    requires { (out-Command command).has_globals ≡ false }
    ensures app { IfOk result (λ c. app_of c ≡ with_folder_values (app_of command.entry)) }
    ensures globals { IfOk result (λ c. (out-Command c).has_globals ≡ false) }
{
    let folder: &'a str = ValueName::Folder.help(Verb::Serve);
    let user: &'a str = ValueName::User.help(Verb::Serve);
    let seconds: &'a str = ValueName::Seconds.help(Verb::Serve);
    let placed = with_option(alloc, command, "DIR", "folder", folder)?;
    let owned = with_option(alloc, placed, "USER", "user", user)?;
    with_option(alloc, owned, "SECONDS", "every", seconds)
}

/// The whole command.
fn verb_command<'a>(alloc: Global, verb: Verb) -> Result<Command<'a>, AllocError>
    ensures app { IfOk result (λ c. app_of c ≡ verb_app verb) }
    ensures globals { IfOk result (λ c. (out-Command c).has_globals ≡ false) }
{
    let words = word_command(alloc, verb)?;
    let command = with_optional(alloc, verb, words)?;
    with_verbose(alloc, command)
}

/// The program, with no command yet.
fn top_command<'a>(alloc: Global) -> Result<Command<'a>, AllocError>
    ensures app { IfOk result (λ c. app_of c ≡ top_app) }
    ensures globals { IfOk result (λ c. (out-Command c).has_globals ≡ false) }
{
    let top = Command::new(alloc, "syn")
        .about("A crash-safe synchronizer of file trees")
        .version("0.1.0")
        .after_help(TERMS)
        .subcommand_required(true);
    with_verbose(alloc, top)
}

/// The program with its commands.
pub(crate) fn clap_command<'a>(alloc: Global) -> Result<Command<'a>, AllocError>
    ensures { IfOk result (λ c. app_of c ≡ syn_app) }
{
    let mut top = top_command(alloc)?;
    for verb in Verb::ALL {
        let command = verb_command(alloc, verb)?;
        top = top.subcommand(command)?;
    }
    Ok(top)
}
