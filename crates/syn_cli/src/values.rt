//! Reads the values of a command.
ghost use Rattle.std.specs.Prelude.{◌≡◌, ◌≢◌, ◌↔◌, ℕ, IfOk, IfErr, OnErr, Some, None, IsTrue};
ghost use Rattle.std.specs.Prelude.{IfSome, IfNone};
ghost use Rattle.clap.specs.Words.{first_of, found_of, rows_of};
ghost use Rattle.syn_cli.specs.Reads.{HasLocation, IsNumber, IsSet, folder_side_word, kind_word};
ghost use Rattle.syn_cli.specs.Reads.{AreOtherThanTwo, AreServed, MayHaveTwo, left_of, right_of};
ghost use Rattle.syn_cli.specs.Reads.{side_word};
ghost use Rattle.syn_cli.specs.Verbs.{name_of};
ghost use Rattle.syn_cli.specs.declared.error.WordsError.TheVariants.{Value};
ghost use Rattle.syn_cli.specs.declared.command.ImageKind.{ImageKind};
ghost use Rattle.syn_path.specs.declared.side.Side.{Side as Named};
ghost use Rattle.syn_tree.specs.Modes.{mode_digits, mode_of};
ghost use Rattle.syn_tree.specs.declared.mode.Mode.{Mode as Bits};

use crate::command::{Between, ImageKind, ReplicaLocation};
use crate::error::WordsError;
use crate::value::ValueName;
use clap::ArgMatches;
use syn_path::Side;
use syn_tree::Mode;

/// The text that is given for the value.
#[tactic(auto, using(crate::proofs::CommandLemmas::first_value_rows))]
pub(crate) fn text<'a>(matches: &ArgMatches<'a>, value: ValueName) -> Result<&'a str, WordsError>
    ensures ok { IfOk result (λ text. first_of (name_of value) (rows_of (found_of matches.now))
        ≡ Some text.now) }
    ensures value { IfErr result (λ error. error ≡ Value value) }
    ensures nothing { OnErr result
        (first_of (name_of value) (rows_of (found_of matches.now)) ≡ None) }
{
    matches
        .get_str(value.as_str())
        .ok_or(WordsError::Value(value))
}

/// The text that is given for the value, if any is.
#[tactic(auto, using(crate::proofs::CommandLemmas::first_value_rows))]
pub(crate) fn optional_text<'a>(matches: &ArgMatches<'a>, value: ValueName) -> Option<&'a str>
    ensures some { IfSome result (λ text. first_of (name_of value) (rows_of (found_of matches.now))
        ≡ Some text.now) }
    ensures none { IfNone result
        (first_of (name_of value) (rows_of (found_of matches.now)) ≡ None) }
{
    matches.get_str(value.as_str())
}

/// Whether the flag is among the words. `clap` gives a flag that is the text `true`.
#[tactic(auto, using(crate::proofs::CommandLemmas::first_value_rows))]
pub(crate) fn is_set(matches: &ArgMatches<'_>, id: &str) -> bool
    ensures { IsTrue result ↔ IsSet (rows_of (found_of matches.now)) id.now }
{
    matches!(matches.get_str(id), Some("true"))
}

/// The two texts that are given for the value, if any is.
pub(crate) fn two_texts<'a>(
    matches: &ArgMatches<'a>,
    value: ValueName,
) -> Result<Option<(&'a str, &'a str)>, WordsError>
    ensures ok { IfOk result (MayHaveTwo (rows_of (found_of matches.now)) (name_of value)) }
    ensures value { IfErr result (λ error. error ≡ Value value) }
    ensures other { OnErr result (AreOtherThanTwo (rows_of (found_of matches.now))
        (name_of value)) }
{
    let Some(texts) = matches.get_strs(value.as_str()) else {
        return Ok(None);
    };
    if texts.len() != 2 {
        return Err(WordsError::Value(value));
    }
    Ok(Some((texts[0], texts[1])))
}

/// Both as servers where they are asked, and else as files.
pub(crate) fn between<'a>(matches: &ArgMatches<'_>, left: &'a str, right: &'a str) -> Between<'a>
    ensures left { left_of result ≡ left.now }
    ensures right { right_of result ≡ right.now }
    ensures served { AreServed (rows_of (found_of matches.now)) result }
{
    if is_set(matches, "served") {
        Between::Servers { left, right }
    } else {
        Between::Files { left, right }
    }
}

/// The file or the server that is given.
pub(crate) fn location<'a>(matches: &ArgMatches<'a>) -> Result<ReplicaLocation<'a>, WordsError>
    ensures ok { IfOk result (λ location. HasLocation (rows_of (found_of matches.now)) location) }
    ensures value { IfErr result (λ error. error ≡ Value ValueName.File) }
    ensures nothing { OnErr result
        (first_of (name_of ValueName.File) (rows_of (found_of matches.now)) ≡ None) }
{
    let text = text(matches, ValueName::File)?;
    if is_set(matches, "served") {
        Ok(ReplicaLocation::Served(text))
    } else {
        Ok(ReplicaLocation::File(text))
    }
}

/// The decimal number below 2^64 that the text of the value writes, in digits alone.
pub(crate) fn number(text: &str, value: ValueName) -> Result<u64, WordsError>
    ensures ok { IfOk result (λ n. IsNumber 64 text.now n) }
    ensures value { IfErr result (λ error. error ≡ Value value) }
    ensures nothing { OnErr result ((n : ℕ) → ¬ IsNumber 64 text.now n) }
{
    if text.starts_with('+') {
        return Err(WordsError::Value(value));
    }
    text.parse::<u64>().map_err(|_| WordsError::Value(value))
}

/// The decimal number below 2^32 that the text of a user writes, in digits alone.
pub(crate) fn user(text: &str) -> Result<u32, WordsError>
    ensures ok { IfOk result (λ n. IsNumber 32 text.now n) }
    ensures value { IfErr result (λ error. error ≡ Value ValueName.User) }
    ensures nothing { OnErr result ((n : ℕ) → ¬ IsNumber 32 text.now n) }
{
    if text.starts_with('+') {
        return Err(WordsError::Value(ValueName::User));
    }
    text.parse::<u32>()
        .map_err(|_| WordsError::Value(ValueName::User))
}

/// The kind of image that the text names.
pub(crate) fn image_kind(text: &str) -> Result<ImageKind, WordsError>
    ensures ok { IfOk result (λ kind. text.now ≡ kind_word kind) }
    ensures value { IfErr result (λ error. error ≡ Value ValueName.Kind) }
    ensures nothing { OnErr result ((kind : ImageKind) → text.now ≢ kind_word kind) }
{
    match text {
        "replica" => Ok(ImageKind::Replica),
        "archive" => Ok(ImageKind::Archive),
        _ => Err(WordsError::Value(ValueName::Kind)),
    }
}

/// The side that the text names.
pub(crate) fn side(text: &str) -> Result<Side, WordsError>
    ensures ok { IfOk result (λ side. text.now ≡ side_word side) }
    ensures value { IfErr result (λ error. error ≡ Value ValueName.Preference) }
    ensures nothing { OnErr result ((side : Named) → text.now ≢ side_word side) }
{
    match text {
        "left" => Ok(Side::Left),
        "right" => Ok(Side::Right),
        _ => Err(WordsError::Value(ValueName::Preference)),
    }
}

/// The folder, as the left side, or the replica, as the right one, which the text names.
pub(crate) fn folder_side(text: &str) -> Result<Side, WordsError>
    ensures ok { IfOk result (λ side. text.now ≡ folder_side_word side) }
    ensures value { IfErr result (λ error. error ≡ Value ValueName.FolderPreference) }
    ensures nothing { OnErr result ((side : Named) → text.now ≢ folder_side_word side) }
{
    match text {
        "folder" => Ok(Side::Left),
        "replica" => Ok(Side::Right),
        _ => Err(WordsError::Value(ValueName::FolderPreference)),
    }
}

/// The mode that the three octal digits of the text say.
pub(crate) fn mode(text: &str) -> Result<Mode, WordsError>
    ensures ok { IfOk result (λ mode. text.now ≡ mode_digits (mode_of mode)) }
    ensures value { IfErr result (λ error. error ≡ Value ValueName.Mode) }
    ensures nothing { OnErr result ((mode : Bits) → text.now ≢ mode_digits (mode_of mode)) }
{
    Mode::parse(text).ok_or(WordsError::Value(ValueName::Mode))
}
