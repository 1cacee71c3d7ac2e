//! Reads a command line by `clap`.
ghost use Rattle.std.specs.Prelude.{◌≡◌, ◌≢◌, ◌↔◌, ◌⊎◌, [], IfOk, IfErr, IsTrue, map, codes};
ghost use Rattle.clap.specs.Words.{IsAmong, fault_of, found_of, kind_of, rows_of, subcommand_of};
ghost use Rattle.syn_cli.specs.App.{syn_app};
ghost use Rattle.syn_cli.specs.Reads.{Asks, AsksHelp, AsksWhy, IfUsage, IfValue, IsMistake};
ghost use Rattle.syn_cli.specs.Reads.{IsRequest, IsSet, IsValue, IsWrongValue, ReadsRows};
ghost use Rattle.syn_cli.specs.declared.command.Command.{Command};
ghost use Rattle.syn_cli.specs.inner.Lacking.{IsLackOf};

use crate::command::Arguments;
use crate::commands::clap_command;
use crate::error::WordsError;
use crate::matched::command_of;
use crate::value::ValueName;
use crate::values::is_set;
use crate::verb::read_verb;
use clap::ArgMatches;
use clap::error::ErrorKind;
use std::alloc::Global;

/// The command that the words ask for. The first word is the program's own.
///
/// What `clap` refuses, the help and the version are `Usage`, and a value that is wrong is told by
/// its name. Refused memory is `Memory`.
pub fn read_words<'a>(alloc: Global, words: &'a [&'a str]) -> Result<Arguments<'a>, WordsError>
    ensures ok { IfOk result (λ asked.
        Asks (map (λ word. word.now) words.entry.now) asked.command) }
    ensures verbose { IfOk result (λ asked. IsTrue asked.is_verbose
        ↔ AsksWhy (map (λ word. word.now) words.entry.now)) }

    // The help and the version are told only where the words ask for them.
    ensures asked { IfErr result (λ error. IsRequest error
        → AsksHelp (map (λ word. word.now) words.entry.now)) }

    // Where anything but refused memory is told, the words ask for no command.
    ensures mistaken { IfErr result (λ error. IsMistake error
        → (command : Command) → ¬ Asks (map (λ word. word.now) words.entry.now) command) }

    // What `clap` tells is of the kinds that it states of the words.
    ensures usage { IfErr result (λ error. IfUsage error
        (λ told. IsAmong (kind_of told) (fault_of syn_app
        (map (λ word. word.now) words.entry.now)))) }

    // A value is told only where `clap` takes the words.
    ensures taken { IfErr result (λ error. IsValue error
        → fault_of syn_app (map (λ word. word.now) words.entry.now) ≡ []) }

    // And then the words name a command with each value that it requires, and the value that is
    // told is wrong.
    ensures wrong { IfErr result (λ error. IfValue error
        (IsWrongValue (subcommand_of syn_app (map (λ word. word.now) words.entry.now)))) }
{
    let command = clap_command(alloc)?;
    let matches = match command.try_get_matches_from(words) {
        Ok(matches) => matches,
        Err(error) => return Err(told(error)),
    };
    let Some((name, subcommand)) = matches.subcommand() else {
        return Err(WordsError::Value(ValueName::Command));
    };
    asked_of(name, subcommand, is_verbose(&matches, subcommand))
}

/// Whether more is to be told of the command: the flag may stand before the command or after it.
fn is_verbose(matches: &ArgMatches<'_>, subcommand: &ArgMatches<'_>) -> bool
    ensures { IsTrue result ↔ (IsSet (rows_of (found_of matches.now)) (codes "verbose")
        ⊎ IsSet (rows_of (found_of subcommand.now)) (codes "verbose")) }
{
    is_set(matches, "verbose") || is_set(subcommand, "verbose")
}

/// What a parse that failed is told as.
fn told(error: clap::Error) -> WordsError
    ensures usage { IfUsage result (λ told. (told ≡ error)
        × (kind_of error ≢ ErrorKind.OutOfMemory)) }
    ensures value { ¬ IsValue result }
{
    match error.kind() {
        ErrorKind::OutOfMemory => WordsError::Memory,
        _ => WordsError::Usage(error),
    }
}

/// The command of a name and its matches, with whether `-v` was given.
fn asked_of<'a>(
    name: &'a str,
    matches: &ArgMatches<'a>,
    is_verbose: bool,
) -> Result<Arguments<'a>, WordsError>
    ensures ok { IfOk result (λ asked.
        ReadsRows name.entry.now (rows_of (found_of matches.now)) asked.command) }
    ensures verbose { IfOk result (λ asked. asked.is_verbose ≡ is_verbose) }
    ensures lacks { IfErr result (IsLackOf name.entry.now (rows_of (found_of matches.now))) }
{
    let Some(verb) = read_verb(name) else {
        return Err(WordsError::Value(ValueName::Command));
    };
    let command = command_of(verb, matches)?;
    Ok(Arguments {
        command,
        is_verbose,
    })
}
