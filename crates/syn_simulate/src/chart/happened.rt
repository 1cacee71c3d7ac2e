//! What a chart says of what happened in one turn.

use crate::chart::Chart;
use crate::chart::messages::{ends_of, sent_text};
use crate::turn::Moment;
use std::alloc::{AllocError, Global};
use syn_image::Kept;
use syn_path::Side;
use syn_refusal::Refusal;
use syn_session::{End, Report};
use syn_world::{Ack, Machine, Message};

/// What a world heard, each list in order of time, as its readings give it.
#[derive(Clone, Copy)]
pub(crate) struct Heard<'a> {
    pub(crate) sent: &'a [Message],
    pub(crate) acknowledged: &'a [Ack],
    pub(crate) refusals: &'a [Refusal],
    pub(crate) reports: &'a [(Report, usize)],
}

/// What happened in one turn: what was heard from the moment before it to the one after it.
#[derive(Clone, Copy)]
pub(crate) struct Happened<'a> {
    pub(crate) heard: Heard<'a>,
    pub(crate) before: Moment,
    pub(crate) after: Moment,
}

impl Happened<'_> {
    /// What became of a line's step at the machine: what it was refused with, that the machine was
    /// down and is, or that an opening found what was cut off.
    pub(crate) fn outcome(
        &self,
        alloc: Global,
        at: Machine,
        is_opening: bool,
    ) -> Result<String, AllocError> {
        let refusals = self.heard.refusals;
        if let Some(why) = part(refusals, self.before.refusals, self.after.refusals).first() {
            return format!(in alloc; ": refused {}", why.number());
        }
        if !self.before.is_up(at) && !self.after.is_up(at) {
            return format!(in alloc; " (down)");
        }
        if is_opening && self.before.acknowledged < self.after.acknowledged {
            return format!(in alloc; ", with what was cut off");
        }
        Ok(String::new(alloc))
    }

    /// Adds a row for each record, message, report, stop and opening of the turn.
    pub(crate) fn add_to(&self, alloc: Global, chart: &mut Chart) -> Result<(), AllocError> {
        self.add_kept(alloc, chart)?;
        self.add_sent(alloc, chart)?;
        self.add_reports(alloc, chart)?;
        self.add_changes(chart)
    }

    /// Adds what the archive kept.
    fn add_kept(&self, alloc: Global, chart: &mut Chart) -> Result<(), AllocError> {
        let acknowledged = self.heard.acknowledged;
        for ack in part(
            acknowledged,
            self.before.acknowledged,
            self.after.acknowledged,
        ) {
            if let Ack::Kept(kept) = ack {
                chart.add(Machine::Coordinator, &kept_text(alloc, kept)?)?;
            }
        }
        Ok(())
    }

    /// Adds each message that was sent.
    fn add_sent(&self, alloc: Global, chart: &mut Chart) -> Result<(), AllocError> {
        for number in self.before.sent..self.after.sent {
            if let Some(message) = self.heard.sent.get(number) {
                let (from, _) = ends_of(message);
                chart.add(from, &sent_text(alloc, number, message)?)?;
            }
        }
        Ok(())
    }

    /// Adds the report of each session that ended.
    fn add_reports(&self, alloc: Global, chart: &mut Chart) -> Result<(), AllocError> {
        let reports = self.heard.reports;
        for (report, _) in part(reports, self.before.reports, self.after.reports) {
            let end = match report.end {
                End::Complete => "complete",
                End::Incomplete => "incomplete",
            };
            let text = format!(in alloc; "session {} is {end}", report.session)?;
            chart.add(Machine::Coordinator, &text)?;
        }
        Ok(())
    }

    /// Adds each machine that went down or came up.
    fn add_changes(&self, chart: &mut Chart) -> Result<(), AllocError> {
        for at in [
            Machine::Side(Side::Left),
            Machine::Coordinator,
            Machine::Side(Side::Right),
        ] {
            match (self.before.is_up(at), self.after.is_up(at)) {
                (true, false) => chart.add(at, "=== stopped ===")?,
                (false, true) => chart.add(at, "=== up ===")?,
                _ => {}
            }
        }
        Ok(())
    }
}

/// What a list has from one of its lengths to a later one.
fn part<T>(list: &[T], from: usize, to: usize) -> &[T] {
    match list.get(from..to) {
        Some(part) => part,
        None => &[],
    }
}

fn kept_text(alloc: Global, kept: &Kept) -> Result<String, AllocError> {
    match kept {
        Kept::Session(number) => format!(in alloc; "keeps session {number}"),
        Kept::Record(path, Some(_)) => format!(in alloc; "keeps {path}"),
        Kept::Record(path, None) => format!(in alloc; "keeps that {path} is gone"),
        Kept::Dir(path) => format!(in alloc; "keeps directory {path}"),
    }
}
