//! Reads a script.
ghost use Rattle.std.specs.Prelude.{◌≡◌, ◌≢◌, ℕ, [], Err, IfOk, IfErr, map};
ghost use Rattle.syn_simulate.specs.Scripts.{IsFirstFault, IsFit, SaySteps, lines_of as lines_in};
ghost use Rattle.syn_simulate.specs.Words.{Says};
ghost use Rattle.syn_simulate.specs.inner.Rows.{SaysMaybe};

use crate::line::Line;
use crate::parse_error::{LineError, ScriptError};
use crate::rows::read_words;
use crate::words::words_of;
use std::alloc::{AllocError, Global};

/// A text that says what simulated machines do, with one step a line.
pub struct Script;

impl Script {
    /// The steps that the text says, in the order of its lines.
    ///
    /// Refused with the number of the first line that says no step and is not silent, and 11 where
    /// memory is refused.
    pub fn parse(alloc: Global, text: &[u8]) -> Result<Vec<Line>, ScriptError>
        ensures ok { IfOk result (λ steps. SaySteps (lines_in text.now) steps.items) }
        ensures bad { IfErr result (λ e. (number : ℕ) → e ≡ ScriptError.Line number
            → IsFirstFault (lines_in text.now) number) }

        // Where there is no text, no memory is taken.
        ensures memory { result ≡ Err ScriptError.Memory → text.now ≢ [] }
    {
        if text.is_empty() {
            return Ok(Vec::new(alloc));
        }
        let lines = lines_of(alloc, text)?;
        let mut steps = Vec::new(alloc);
        let mut number = 0;
        for line in lines.as_slice() {
            number += 1;
            let Some(step) = read_line(alloc, number, line)? else {
                continue;
            };
            steps.push(step)?;
        }
        Ok(steps)
    }
}

/// The lines of a text.
fn lines_of(alloc: Global, text: &[u8]) -> Result<Vec<&[u8]>, AllocError>
    ensures { IfOk result (λ lines. map (λ line. line.now) lines.items ≡ lines_in text.now) }
{
    text.split(|b| *b == b'\n').collect(alloc)
}

/// The step that the line with this number says, none where it is silent.
fn read_line(alloc: Global, number: u64, line: &[u8]) -> Result<Option<Line>, ScriptError>
    ensures ok { IfOk result (λ step. SaysMaybe line.now step) }
    ensures bad { IfErr result (λ e. (n : ℕ) → e ≡ ScriptError.Line n
        → (n ≡ number) × ¬ IsFit line.now) }
{
    let Ok(text) = str::from_utf8(line) else {
        return Err(ScriptError::Line(number));
    };
    if text.is_empty() || text.starts_with('#') {
        return Ok(None);
    }
    match read_text(alloc, text) {
        Ok(step) => Ok(Some(step)),
        Err(LineError::Nothing) => Err(ScriptError::Line(number)),
        Err(LineError::Memory) => Err(ScriptError::Memory),
    }
}

/// The step that the text of a line says.
fn read_text(alloc: Global, text: &str) -> Result<Line, LineError>
    ensures ok { IfOk result (λ step. Says text.now step) }
    ensures bad { IfErr result (λ e. e ≡ LineError.Nothing → (step : _) → ¬ Says text.now step) }
{
    let words = words_of(alloc, text)?;
    read_words(alloc, words.as_slice())
}
