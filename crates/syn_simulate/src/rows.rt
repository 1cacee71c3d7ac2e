//! The step of each row, by the words after the first.
ghost use Rattle.std.specs.Prelude.{◌≡◌, IfOk, IfErr, IfSome, IfNone, map};
ghost use Rattle.syn_simulate.specs.Words.{Say, SayEdit};
ghost use Rattle.syn_simulate.specs.inner.Rows.{NoEdit, NothingAfter, NothingSaid, SayAfter};
ghost use Rattle.syn_simulate.specs.declared.verb.Verb.TheVariants as verb;

use crate::line::Line;
use crate::parse_error::LineError;
use crate::verb::{Verb, read_verb};
use crate::words::{joined, leaves, machine, number, side, user};
use std::alloc::Global;
use syn_path::Path;
use syn_tree::{Edit, Mode};

/// The step that the words say.
pub(crate) fn read_words(alloc: Global, words: &[&str]) -> Result<Line, LineError>
    ensures ok { IfOk result (λ line. Say (map (λ word. word.now) words.now) line) }
    ensures bad { IfErr result (λ e. e ≡ LineError.Nothing
        → NothingSaid (map (λ word. word.now) words.now)) }
{
    let [first, words @ ..] = words else {
        return Err(LineError::Nothing);
    };
    let Some(verb) = read_verb(first) else {
        return Err(LineError::Nothing);
    };
    read_after_verb(alloc, verb, words)
}

/// The step that the words after the first say.
fn read_after_verb(alloc: Global, verb: Verb, words: &[&str]) -> Result<Line, LineError>
    ensures ok { IfOk result (λ line. SayAfter verb (map (λ word. word.now) words.now) line) }
    ensures bad { IfErr result (λ e. e ≡ LineError.Nothing
        → NothingAfter verb (map (λ word. word.now) words.now)) }
{
    match verb {
        Verb::Edit => edit_line(alloc, words),
        Verb::Start => start(words).ok_or(LineError::Nothing),
        Verb::Tick => tick(words).ok_or(LineError::Nothing),
        Verb::Deliver => deliver(words).ok_or(LineError::Nothing),
        Verb::Drain => drain(words).ok_or(LineError::Nothing),
        Verb::Checkpoint => checkpoint(words).ok_or(LineError::Nothing),
        Verb::Fail => fail(words).ok_or(LineError::Nothing),
        Verb::Stop => stop(words).ok_or(LineError::Nothing),
        Verb::Open => open(words).ok_or(LineError::Nothing),
        Verb::Reopen => reopen(words).ok_or(LineError::Nothing),
    }
}

fn edit_line(alloc: Global, words: &[&str]) -> Result<Line, LineError>
    ensures ok { IfOk result (λ line. SayAfter verb.Edit (map (λ word. word.now) words.now) line) }
    ensures bad { IfErr result (λ e. e ≡ LineError.Nothing
        → NothingAfter verb.Edit (map (λ word. word.now) words.now)) }
{
    let [side_word, user_word, words @ ..] = words else {
        return Err(LineError::Nothing);
    };
    let Some(side) = side(side_word) else {
        return Err(LineError::Nothing);
    };
    let Some(user) = user(user_word) else {
        return Err(LineError::Nothing);
    };
    let edit = edit(alloc, words)?;
    Ok(Line::Edit(side, user, edit))
}

/// The edit that the words say.
fn edit(alloc: Global, words: &[&str]) -> Result<Edit, LineError>
    ensures ok { IfOk result (λ edit. SayEdit (map (λ word. word.now) words.now) edit) }
    ensures bad { IfErr result (λ e. e ≡ LineError.Nothing
        → NoEdit (map (λ word. word.now) words.now)) }
{
    let [kind, path, text @ ..] = words else {
        return Err(LineError::Nothing);
    };
    let path = Path::parse(alloc, path)?;
    match (*kind, text) {
        ("put", _) => Ok(Edit::Put(path, joined(alloc, text)?)),
        ("mkdir", []) => Ok(Edit::MakeDir(path)),
        ("rm", []) => Ok(Edit::Remove(path)),
        ("chmod", [mode]) => match Mode::parse(mode) {
            Some(mode) => Ok(Edit::Chmod(path, mode)),
            None => Err(LineError::Nothing),
        },
        _ => Err(LineError::Nothing),
    }
}

fn start(words: &[&str]) -> Option<Line>
    ensures some { IfSome result (λ line.
        SayAfter verb.Start (map (λ word. word.now) words.now) line) }
    ensures none { IfNone result (NothingAfter verb.Start (map (λ word. word.now) words.now)) }
{
    match words {
        [] => Some(Line::Start(None)),
        ["prefer", name] => Some(Line::Start(Some(side(name)?))),
        _ => None,
    }
}

fn tick(words: &[&str]) -> Option<Line>
    ensures some { IfSome result (λ line.
        SayAfter verb.Tick (map (λ word. word.now) words.now) line) }
    ensures none { IfNone result (NothingAfter verb.Tick (map (λ word. word.now) words.now)) }
{
    match words {
        [] => Some(Line::Tick),
        _ => None,
    }
}

fn drain(words: &[&str]) -> Option<Line>
    ensures some { IfSome result (λ line.
        SayAfter verb.Drain (map (λ word. word.now) words.now) line) }
    ensures none { IfNone result (NothingAfter verb.Drain (map (λ word. word.now) words.now)) }
{
    match words {
        [] => Some(Line::Drain),
        _ => None,
    }
}

fn deliver(words: &[&str]) -> Option<Line>
    ensures some { IfSome result (λ line.
        SayAfter verb.Deliver (map (λ word. word.now) words.now) line) }
    ensures none { IfNone result (NothingAfter verb.Deliver (map (λ word. word.now) words.now)) }
{
    match words {
        [one] => {
            let one = number(one)?;
            Some(Line::Deliver(one, one))
        }
        [first, last] => {
            let first = number(first)?;
            let last = number(last)?;
            Some(Line::Deliver(first, last))
        }
        _ => None,
    }
}

fn checkpoint(words: &[&str]) -> Option<Line>
    ensures some { IfSome result (λ line.
        SayAfter verb.Checkpoint (map (λ word. word.now) words.now) line) }
    ensures none { IfNone result
        (NothingAfter verb.Checkpoint (map (λ word. word.now) words.now)) }
{
    let [word] = words else {
        return None;
    };
    let machine = machine(word)?;
    Some(Line::Checkpoint(machine))
}

fn fail(words: &[&str]) -> Option<Line>
    ensures some { IfSome result (λ line.
        SayAfter verb.Fail (map (λ word. word.now) words.now) line) }
    ensures none { IfNone result (NothingAfter verb.Fail (map (λ word. word.now) words.now)) }
{
    let [machine_word, number_word] = words else {
        return None;
    };
    let machine = machine(machine_word)?;
    let call = number(number_word)?;
    Some(Line::Fail(machine, call))
}

fn stop(words: &[&str]) -> Option<Line>
    ensures some { IfSome result (λ line.
        SayAfter verb.Stop (map (λ word. word.now) words.now) line) }
    ensures none { IfNone result (NothingAfter verb.Stop (map (λ word. word.now) words.now)) }
{
    let [machine_word, number_word, leaves_word] = words else {
        return None;
    };
    let machine = machine(machine_word)?;
    let call = number(number_word)?;
    let leaves = leaves(leaves_word)?;
    Some(Line::Stop(machine, call, leaves))
}

fn open(words: &[&str]) -> Option<Line>
    ensures some { IfSome result (λ line.
        SayAfter verb.Open (map (λ word. word.now) words.now) line) }
    ensures none { IfNone result (NothingAfter verb.Open (map (λ word. word.now) words.now)) }
{
    let [word] = words else {
        return None;
    };
    let machine = machine(word)?;
    Some(Line::Open(machine))
}

fn reopen(words: &[&str]) -> Option<Line>
    ensures some { IfSome result (λ line.
        SayAfter verb.Reopen (map (λ word. word.now) words.now) line) }
    ensures none { IfNone result (NothingAfter verb.Reopen (map (λ word. word.now) words.now)) }
{
    let [word] = words else {
        return None;
    };
    let machine = machine(word)?;
    Some(Line::Reopen(machine))
}
