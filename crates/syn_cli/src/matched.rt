//! Each command, from the values that `clap` matches.
ghost use Rattle.std.specs.Prelude.{◌≡◌, IfOk, IfErr};
ghost use Rattle.clap.specs.Words.{found_of, rows_of};
ghost use Rattle.syn_cli.specs.Reads.{HasExisting, HasMode, HasNumber, HasOnStranger, HasText};
ghost use Rattle.syn_cli.specs.Reads.{HasUser, IsEdit};
ghost use Rattle.syn_cli.specs.Reads.{MayHaveFolderSide, MayHaveNumber, MayHaveSide};
ghost use Rattle.syn_cli.specs.Reads.{IsGiven, MayGoOn, MayHaveFolder, TakesSeconds};
ghost use Rattle.syn_cli.specs.Reads.{TakesPreference, kind_word};
ghost use Rattle.syn_cli.specs.Verbs.{edit_verb, name_of};
ghost use Rattle.syn_tree.specs.Modes.{mode_digits, mode_of};
ghost use Rattle.syn_cli.specs.inner.Lacking.{IsLack, IsCommandOf};

use crate::command::{
    Between, Command, EditCommand, EditKind, Existing, ExportCommand, FolderCommand, FormatCommand,
    ImageCommand, ImageKind, ImportCommand, KeepCommand, OnStranger, Pairing, ReconcileCommand,
    ServeCommand,
};
use crate::error::WordsError;
use crate::value::ValueName;
use crate::values::{
    between, folder_side, image_kind, is_set, location, mode, number, optional_text, side, text,
    two_texts, user,
};
use crate::verb::Verb;
use clap::ArgMatches;
use syn_path::Side;
use syn_tree::Mode;

/// The values of the command, or the first value of it that is missing or wrong.
pub(crate) fn command_of<'a>(
    verb: Verb,
    matches: &ArgMatches<'a>,
) -> Result<Command<'a>, WordsError>
    ensures ok { IfOk result (IsCommandOf verb (rows_of (found_of matches.now))) }
    ensures lacks { IfErr result (IsLack verb (rows_of (found_of matches.now))) }
{
    match verb {
        Verb::Format => format_command(matches),
        Verb::Put | Verb::MakeDir | Verb::Remove | Verb::Chmod => edit_command(matches, verb),
        Verb::Show => show_command(matches),
        Verb::Check => check_command(matches),
        Verb::Migrate => migrate_command(matches),
        Verb::Log => log_command(matches),
        Verb::Export => export_command(matches),
        Verb::Import => import_command(matches),
        Verb::Reconcile => reconcile_command(matches),
        Verb::Serve => serve_command(matches),
        Verb::Sync => sync_command(matches),
        Verb::Run => run_command(matches),
        Verb::Plan => plan_command(matches),
        Verb::Simulate => simulate_command(matches),
    }
}

fn format_command<'a>(matches: &ArgMatches<'a>) -> Result<Command<'a>, WordsError>
    ensures ok { IfOk result (IsCommandOf Verb.Format (rows_of (found_of matches.now))) }
    ensures lacks { IfErr result (IsLack Verb.Format (rows_of (found_of matches.now))) }
{
    let kind = kind_given(matches)?;
    let pair = pair_given(matches)?;
    let file = text(matches, ValueName::File)?;
    let after = after_given(matches, kind)?;
    let force = is_set(matches, "force");
    Ok(Command::Image(ImageCommand::Format(FormatCommand {
        kind,
        pair,
        file,
        after,
        force,
    })))
}

/// The replicas after which an archive goes on, where they are given. No replica has them, and
/// without them no server is asked.
fn after_given<'a>(
    matches: &ArgMatches<'a>,
    kind: ImageKind,
) -> Result<Option<Between<'a>>, WordsError>
    requires { HasText (rows_of (found_of matches.now)) (name_of ValueName.Kind) (kind_word kind) }
    ensures ok { IfOk result (MayGoOn (rows_of (found_of matches.now)) kind) }
    ensures lacks { IfErr result (IsLack Verb.Format (rows_of (found_of matches.now))) }
{
    let given = two_texts(matches, ValueName::After)?;
    match (given, kind) {
        (Some((left, right)), ImageKind::Archive) => Ok(Some(between(matches, left, right))),
        (None, _) if !is_set(matches, "served") => Ok(None),
        _ => Err(WordsError::Value(ValueName::After)),
    }
}

fn kind_given(matches: &ArgMatches<'_>) -> Result<ImageKind, WordsError>
    ensures ok { IfOk result (λ kind. HasText (rows_of (found_of matches.now))
        (name_of ValueName.Kind) (kind_word kind)) }
    ensures lacks { IfErr result (IsLack Verb.Format (rows_of (found_of matches.now))) }
{
    image_kind(text(matches, ValueName::Kind)?)
}

fn pair_given(matches: &ArgMatches<'_>) -> Result<u64, WordsError>
    ensures ok { IfOk result (HasNumber 64 (rows_of (found_of matches.now))
        (name_of ValueName.Pair)) }
    ensures lacks { IfErr result (IsLack Verb.Format (rows_of (found_of matches.now))) }
{
    number(text(matches, ValueName::Pair)?, ValueName::Pair)
}

/// The edit of a command that makes one.
#[tactic(auto, using(crate::proofs::LackLemmas::edit_missing))]
fn edit_command<'a>(matches: &ArgMatches<'a>, verb: Verb) -> Result<Command<'a>, WordsError>
    requires { IsEdit verb }
    ensures ok { IfOk result (IsCommandOf verb (rows_of (found_of matches.now))) }
    ensures lacks { IfErr result (IsLack verb (rows_of (found_of matches.now))) }
{
    let location = location(matches)?;
    let user = user_given(matches, verb)?;
    let path = text(matches, ValueName::Path)?;
    let kind = edit_kind_given(matches, verb)?;
    Ok(Command::Edit(EditCommand {
        kind,
        location,
        user,
        path,
    }))
}

/// The user of a command that has one.
#[tactic(auto, using(crate::proofs::LackLemmas::user_missing))]
fn user_given(matches: &ArgMatches<'_>, verb: Verb) -> Result<u32, WordsError>
    requires { HasUser verb }
    ensures ok { IfOk result (HasNumber 32 (rows_of (found_of matches.now))
        (name_of ValueName.User)) }
    ensures lacks { IfErr result (IsLack verb (rows_of (found_of matches.now))) }
{
    user(text(matches, ValueName::User)?)
}

/// What the edit of a command does, with its mode where it changes one.
fn edit_kind_given(matches: &ArgMatches<'_>, verb: Verb) -> Result<EditKind, WordsError>
    requires { IsEdit verb }
    ensures ok { IfOk result (λ kind. (edit_verb kind ≡ verb)
        × HasMode (rows_of (found_of matches.now)) kind) }
    ensures lacks { IfErr result (IsLack verb (rows_of (found_of matches.now))) }
{
    match verb {
        Verb::Put => Ok(EditKind::Put),
        Verb::MakeDir => Ok(EditKind::MakeDir),
        Verb::Remove => Ok(EditKind::Remove),
        Verb::Chmod => Ok(EditKind::Chmod(mode_given(matches)?)),
        _ => unreachable!(),
    }
}

fn mode_given(matches: &ArgMatches<'_>) -> Result<Mode, WordsError>
    ensures ok { IfOk result (λ mode. HasText (rows_of (found_of matches.now))
        (name_of ValueName.Mode) (mode_digits (mode_of mode))) }
    ensures lacks { IfErr result (IsLack Verb.Chmod (rows_of (found_of matches.now))) }
{
    mode(text(matches, ValueName::Mode)?)
}

/// What is to be printed: what stands at a path, or with no path the whole image.
fn show_command<'a>(matches: &ArgMatches<'a>) -> Result<Command<'a>, WordsError>
    ensures ok { IfOk result (IsCommandOf Verb.Show (rows_of (found_of matches.now))) }
    ensures lacks { IfErr result (IsLack Verb.Show (rows_of (found_of matches.now))) }
{
    let location = location(matches)?;
    match optional_text(matches, ValueName::Path) {
        Some(path) => Ok(Command::Image(ImageCommand::ShowPath { location, path })),
        None => Ok(Command::Image(ImageCommand::Show { location })),
    }
}

fn check_command<'a>(matches: &ArgMatches<'a>) -> Result<Command<'a>, WordsError>
    ensures ok { IfOk result (IsCommandOf Verb.Check (rows_of (found_of matches.now))) }
    ensures lacks { IfErr result (IsLack Verb.Check (rows_of (found_of matches.now))) }
{
    let file = text(matches, ValueName::File)?;
    Ok(Command::Image(ImageCommand::Check { file }))
}

fn migrate_command<'a>(matches: &ArgMatches<'a>) -> Result<Command<'a>, WordsError>
    ensures ok { IfOk result (IsCommandOf Verb.Migrate (rows_of (found_of matches.now))) }
    ensures lacks { IfErr result (IsLack Verb.Migrate (rows_of (found_of matches.now))) }
{
    let file = text(matches, ValueName::File)?;
    Ok(Command::Image(ImageCommand::Migrate { file }))
}

fn log_command<'a>(matches: &ArgMatches<'a>) -> Result<Command<'a>, WordsError>
    ensures ok { IfOk result (IsCommandOf Verb.Log (rows_of (found_of matches.now))) }
    ensures lacks { IfErr result (IsLack Verb.Log (rows_of (found_of matches.now))) }
{
    let file = text(matches, ValueName::File)?;
    let lines = lines_given(matches)?;
    Ok(Command::Image(ImageCommand::Log { file, lines }))
}

fn lines_given(matches: &ArgMatches<'_>) -> Result<Option<u64>, WordsError>
    ensures ok { IfOk result (MayHaveNumber 64 (rows_of (found_of matches.now))
        (name_of ValueName.Lines)) }
    ensures lacks { IfErr result (IsLack Verb.Log (rows_of (found_of matches.now))) }
{
    match optional_text(matches, ValueName::Lines) {
        Some(text) => Ok(Some(number(text, ValueName::Lines)?)),
        None => Ok(None),
    }
}

fn export_command<'a>(matches: &ArgMatches<'a>) -> Result<Command<'a>, WordsError>
    ensures ok { IfOk result (IsCommandOf Verb.Export (rows_of (found_of matches.now))) }
    ensures lacks { IfErr result (IsLack Verb.Export (rows_of (found_of matches.now))) }
{
    let location = location(matches)?;
    let folder = text(matches, ValueName::Folder)?;
    let path = optional_text(matches, ValueName::Path);
    let existing = existing_given(matches);
    Ok(Command::Export(ExportCommand {
        location,
        folder,
        path,
        existing,
    }))
}

/// What is asked of a folder that has something.
fn existing_given(matches: &ArgMatches<'_>) -> Existing
    ensures { HasExisting (rows_of (found_of matches.now)) result }
{
    if is_set(matches, "delete") {
        Existing::Mirrored
    } else if is_set(matches, "update") {
        Existing::Updated
    } else {
        Existing::Refused
    }
}

fn import_command<'a>(matches: &ArgMatches<'a>) -> Result<Command<'a>, WordsError>
    ensures ok { IfOk result (IsCommandOf Verb.Import (rows_of (found_of matches.now))) }
    ensures lacks { IfErr result (IsLack Verb.Import (rows_of (found_of matches.now))) }
{
    let location = location(matches)?;
    let user = user_given(matches, Verb::Import)?;
    let folder = text(matches, ValueName::Folder)?;
    let path = optional_text(matches, ValueName::Path);
    let on_stranger = on_stranger_given(matches);
    Ok(Command::Import(ImportCommand {
        location,
        user,
        folder,
        path,
        on_stranger,
    }))
}

/// What is asked of what can stand in no replica.
fn on_stranger_given(matches: &ArgMatches<'_>) -> OnStranger
    ensures { HasOnStranger (rows_of (found_of matches.now)) result }
{
    if is_set(matches, "skip") {
        OnStranger::Skip
    } else {
        OnStranger::Refuse
    }
}

fn reconcile_command<'a>(matches: &ArgMatches<'a>) -> Result<Command<'a>, WordsError>
    ensures ok { IfOk result (IsCommandOf Verb.Reconcile (rows_of (found_of matches.now))) }
    ensures lacks { IfErr result (IsLack Verb.Reconcile (rows_of (found_of matches.now))) }
{
    let folder = text(matches, ValueName::Folder)?;
    let file = text(matches, ValueName::File)?;
    let user = user_given(matches, Verb::Reconcile)?;
    let archive = optional_text(matches, ValueName::Archive);
    let preference = folder_preference_given(matches)?;
    let is_dry = is_set(matches, "dry-run");
    let is_emptied = is_set(matches, "emptied");
    let is_anew = is_set(matches, "anew");
    Ok(Command::Reconcile(ReconcileCommand {
        folder,
        file,
        user,
        archive,
        preference,
        is_dry,
        is_emptied,
        is_anew,
    }))
}

/// Which of the folder and its replica is preferred, where one is.
fn folder_preference_given(matches: &ArgMatches<'_>) -> Result<Option<Side>, WordsError>
    ensures ok { IfOk result (MayHaveFolderSide (rows_of (found_of matches.now))) }
    ensures lacks { IfErr result (IsLack Verb.Reconcile (rows_of (found_of matches.now))) }
{
    match optional_text(matches, ValueName::FolderPreference) {
        Some(text) => Ok(Some(folder_side(text)?)),
        None => Ok(None),
    }
}

fn serve_command<'a>(matches: &ArgMatches<'a>) -> Result<Command<'a>, WordsError>
    ensures ok { IfOk result (IsCommandOf Verb.Serve (rows_of (found_of matches.now))) }
    ensures lacks { IfErr result (IsLack Verb.Serve (rows_of (found_of matches.now))) }
{
    let file = text(matches, ValueName::File)?;
    let address = text(matches, ValueName::Address)?;
    let connections = connections_given(matches)?;
    let folder = served_folder_given(matches)?;
    Ok(Command::Serve(ServeCommand {
        file,
        address,
        connections,
        folder,
    }))
}

/// The folder that a server keeps the same as its replica, where one is given. Its user is given
/// with it, and without it neither a user nor seconds.
fn served_folder_given<'a>(
    matches: &ArgMatches<'a>,
) -> Result<Option<FolderCommand<'a>>, WordsError>
    ensures ok { IfOk result (MayHaveFolder (rows_of (found_of matches.now))) }
    ensures lacks { IfErr result (IsLack Verb.Serve (rows_of (found_of matches.now))) }
{
    let user = optional_text(matches, ValueName::User);
    let seconds = optional_text(matches, ValueName::Seconds);
    let Some(folder) = optional_text(matches, ValueName::Folder) else {
        return match (user, seconds) {
            (None, None) => Ok(None),
            _ => Err(WordsError::Value(ValueName::Folder)),
        };
    };
    let user = folder_user_given(matches)?;
    let seconds = seconds_given(matches, Verb::Serve)?;
    Ok(Some(FolderCommand {
        folder,
        user,
        seconds,
    }))
}

/// The user whose edits the changes of a folder are.
fn folder_user_given(matches: &ArgMatches<'_>) -> Result<u32, WordsError>
    requires { IsGiven (rows_of (found_of matches.now)) (name_of ValueName.Folder) }
    ensures ok { IfOk result (HasNumber 32 (rows_of (found_of matches.now))
        (name_of ValueName.User)) }
    ensures lacks { IfErr result (IsLack Verb.Serve (rows_of (found_of matches.now))) }
{
    user(text(matches, ValueName::User)?)
}

fn connections_given(matches: &ArgMatches<'_>) -> Result<Option<u64>, WordsError>
    ensures ok { IfOk result (MayHaveNumber 64 (rows_of (found_of matches.now))
        (name_of ValueName.Connections)) }
    ensures lacks { IfErr result (IsLack Verb.Serve (rows_of (found_of matches.now))) }
{
    match optional_text(matches, ValueName::Connections) {
        Some(text) => Ok(Some(number(text, ValueName::Connections)?)),
        None => Ok(None),
    }
}

fn sync_command<'a>(matches: &ArgMatches<'a>) -> Result<Command<'a>, WordsError>
    ensures ok { IfOk result (IsCommandOf Verb.Sync (rows_of (found_of matches.now))) }
    ensures lacks { IfErr result (IsLack Verb.Sync (rows_of (found_of matches.now))) }
{
    let archive = text(matches, ValueName::Archive)?;
    let left = text(matches, ValueName::Left)?;
    let right = text(matches, ValueName::Right)?;
    let preference = preference_given(matches, Verb::Sync)?;
    match seconds_given(matches, Verb::Sync)? {
        Some(seconds) => Ok(Command::Keep(KeepCommand {
            left,
            right,
            archive,
            preference,
            seconds,
        })),
        None => Ok(Command::Session(Pairing {
            between: Between::Servers { left, right },
            archive,
            preference,
        })),
    }
}

/// The seconds between two looks, where they are given.
fn seconds_given(matches: &ArgMatches<'_>, verb: Verb) -> Result<Option<u64>, WordsError>
    requires { TakesSeconds verb }
    ensures ok { IfOk result (MayHaveNumber 64 (rows_of (found_of matches.now))
        (name_of ValueName.Seconds)) }
    ensures lacks { IfErr result (IsLack verb (rows_of (found_of matches.now))) }
{
    match optional_text(matches, ValueName::Seconds) {
        Some(text) => Ok(Some(number(text, ValueName::Seconds)?)),
        None => Ok(None),
    }
}

fn run_command<'a>(matches: &ArgMatches<'a>) -> Result<Command<'a>, WordsError>
    ensures ok { IfOk result (IsCommandOf Verb.Run (rows_of (found_of matches.now))) }
    ensures lacks { IfErr result (IsLack Verb.Run (rows_of (found_of matches.now))) }
{
    let left = text(matches, ValueName::Left)?;
    let right = text(matches, ValueName::Right)?;
    let archive = text(matches, ValueName::Archive)?;
    let preference = preference_given(matches, Verb::Run)?;
    Ok(Command::Session(Pairing {
        between: Between::Files { left, right },
        archive,
        preference,
    }))
}

/// The side that a session prefers, where one is given.
fn preference_given(matches: &ArgMatches<'_>, verb: Verb) -> Result<Option<Side>, WordsError>
    requires { TakesPreference verb }
    ensures ok { IfOk result (MayHaveSide (rows_of (found_of matches.now))) }
    ensures lacks { IfErr result (IsLack verb (rows_of (found_of matches.now))) }
{
    match optional_text(matches, ValueName::Preference) {
        Some(text) => Ok(Some(side(text)?)),
        None => Ok(None),
    }
}

fn plan_command<'a>(matches: &ArgMatches<'a>) -> Result<Command<'a>, WordsError>
    ensures ok { IfOk result (IsCommandOf Verb.Plan (rows_of (found_of matches.now))) }
    ensures lacks { IfErr result (IsLack Verb.Plan (rows_of (found_of matches.now))) }
{
    let left = text(matches, ValueName::Left)?;
    let right = text(matches, ValueName::Right)?;
    let archive = text(matches, ValueName::Archive)?;
    let between = between(matches, left, right);
    let preference = preference_given(matches, Verb::Plan)?;
    Ok(Command::Plan(Pairing {
        between,
        archive,
        preference,
    }))
}

fn simulate_command<'a>(matches: &ArgMatches<'a>) -> Result<Command<'a>, WordsError>
    ensures ok { IfOk result (IsCommandOf Verb.Simulate (rows_of (found_of matches.now))) }
    ensures lacks { IfErr result (IsLack Verb.Simulate (rows_of (found_of matches.now))) }
{
    let script = text(matches, ValueName::Script)?;
    let is_traced = is_set(matches, "trace");
    Ok(Command::Simulate { script, is_traced })
}
