//! The chart of a run is drawn from what was heard in it.
ghost use Rattle.std.specs.Prelude.{IfErr};
ghost use Rattle.syn_simulate.specs.Simulations.{IsNoRun};

use crate::chart::Chart;
use crate::chart::happened::{Happened, Heard};
use crate::chart::messages::{came_text, ends_of, is_late, sent_text};
use crate::chart::rows::{Row, rows_of};
use crate::error::SimulateError;
use crate::player::Player;
use crate::turn::{Moment, PlayedStep};
use crate::{Line, Script};
use std::alloc::{AllocError, Global};
use std::mem;
use syn_world::SimulatedDisk;

/// The chart of the script that the player played: a column for each machine, and a row for each
/// step, message, record, report, stop and opening, in order of time.
///
/// An arrow leads away from a message that is sent, and to one that comes. After a message that
/// comes stands `again` where it came before, `late` where nobody waits for it any more, and `lost`
/// where the machine is down. At the end the messages that never came are named.
///
/// Refused with the number of the first line that says no step, and 11 where memory is refused.
pub fn draw_chart<D: SimulatedDisk>(
    alloc: Global,
    script: &[u8],
    player: &Player<D>,
) -> Result<String, SimulateError>
    ensures refused { IfErr result (IsNoRun script.now) }
{
    let lines = Script::parse(alloc, script)?;
    let world = player.world();
    let heard = Heard {
        sent: world.sent(),
        acknowledged: world.acknowledged(),
        refusals: world.refusals(),
        reports: world.reports(),
    };
    let last = Moment::of(world);
    Ok(draw(alloc, &lines, player.turns(), heard, &last)?)
}

/// The chart of what happened as the lines were played.
///
/// The turns are those of the lines, and what was heard and the last moment those of the world
/// after them.
fn draw(
    alloc: Global,
    lines: &[Line],
    turns: &[PlayedStep],
    heard: Heard,
    last: &Moment,
) -> Result<String, AllocError> {
    let rows = rows_of(alloc, lines)?;
    let mut rows = rows.iter();
    let mut drawing = Drawing {
        alloc,
        heard,
        has_come: vec![in alloc; false; heard.sent.len()]?,
        chart: Chart::new(alloc)?,
    };
    for (index, turn) in turns.iter().enumerate() {
        let happened = Happened {
            heard,
            before: turn.before,
            after: match turns.get(index + 1) {
                Some(next) => next.before,
                None => *last,
            },
        };
        match turn.delivered {
            Some(number) => drawing.add_coming(&turn.before, number)?,
            None => drawing.add_step(rows.next(), &happened)?,
        }
        happened.add_to(alloc, &mut drawing.chart)?;
    }
    drawing.add_lost()?;
    Ok(drawing.chart.into_text())
}

/// A chart that is drawn of what a world heard.
#[derive(Drop)]
struct Drawing<'a> {
    alloc: Global,
    heard: Heard<'a>,
    /// Whether the message with each number came already.
    has_come: Vec<bool>,
    chart: Chart,
}

impl Drawing<'_> {
    /// Adds the row of a line's step, with what became of it.
    fn add_step(&mut self, row: Option<&Row>, happened: &Happened) -> Result<(), AllocError> {
        let Some(row) = row else {
            return Ok(());
        };
        let outcome = happened.outcome(self.alloc, row.at, row.is_opening)?;
        let text = format!(in self.alloc; "{}{outcome}", row.text)?;
        self.chart.add(row.at, &text)
    }

    /// Adds the row of a message that comes, if it was sent by then.
    fn add_coming(&mut self, before: &Moment, number: usize) -> Result<(), AllocError> {
        let Some(messages) = self.heard.sent.get(..before.sent) else {
            return Ok(());
        };
        let Some(message) = messages.get(number) else {
            return Ok(());
        };
        let (_, to) = ends_of(message);
        let came_before = self.note(number);
        let ending = if !before.is_up(to) {
            " (lost)"
        } else if came_before {
            " (again)"
        } else if is_late(messages, message) {
            " (late)"
        } else {
            ""
        };
        let text = came_text(self.alloc, number, message, ending)?;
        self.chart.add(to, &text)
    }

    /// Notes that the message with the number comes, and tells whether it came before.
    fn note(&mut self, number: usize) -> bool {
        match self.has_come.get_mut(number) {
            Some(flag) => mem::replace(flag, true),
            None => false,
        }
    }

    /// Adds a row for each message that never came.
    fn add_lost(&mut self) -> Result<(), AllocError> {
        for (number, message) in self.heard.sent.iter().enumerate() {
            if self.has_come.get(number) == Some(&false) {
                let (from, _) = ends_of(message);
                let text = sent_text(self.alloc, number, message)?;
                let text = format!(in self.alloc; "{text} never came")?;
                self.chart.add(from, &text)?;
            }
        }
        Ok(())
    }
}
