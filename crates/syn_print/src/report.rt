//! The lines of what a session reports.
ghost use Rattle.std.specs.Prelude.{OnOk, length, map, option_map};
ghost use Rattle.std.specs.Io.KnownBytes.{Appends};
ghost use Rattle.syn_refusal.specs.Refusals.{cause_of};
ghost use Rattle.syn_session.specs.Reports.{end_of, report_model};
ghost use Rattle.syn_print.specs.Reports.{counts_line, ended_line, line_at, lines_of_named};
ghost use Rattle.syn_print.specs.Reports.{report_lines, session_line};
ghost use Rattle.syn_print.specs.inner.Named.{named_of};

use crate::error::PrintError;
use crate::report::named::{Named, items_of};
use std::alloc::Global;
use std::io::Write;
use syn_refusal::Refusal;
use syn_session::{End, Report};

mod named;

/// Prints what a session reports: how it ended, and a line of its numbers. Then each conflict and
/// each refused item has a line, in path order, and last what ended it early, if anything did.
///
/// Only to put conflicts and refused items in order takes memory. Refused 9 where the output cannot
/// be written, and 11 where memory is refused: the first two lines are printed then.
pub fn show_report<W: Write>(
    alloc: Global,
    report: &Report,
    output: &mut W,
) -> Result<(), PrintError>
    ensures { OnOk result (Appends (W.contents output.old) (W.contents output.new)
        (report_lines (report_model report.now))) }
{
    show_end(report.session, report.end, output)?;
    show_counts(report, output)?;
    let items = items_of(alloc, report)?;
    show_named(&items, output)?;
    show_ended(report.ended, output)
}

/// Prints the first line of a report: the session, and how it ended.
fn show_end<W: Write>(session: u64, end: End, output: &mut W) -> Result<(), PrintError>
    ensures { OnOk result (Appends (W.contents output.old) (W.contents output.new)
        (session_line session (end_of end))) }
{
    match end {
        End::Complete => write!(output, "session {session} complete\n")?,
        End::Incomplete => write!(output, "session {session} incomplete\n")?,
    }
    Ok(())
}

/// Prints the line of the numbers of a report.
fn show_counts<W: Write>(report: &Report, output: &mut W) -> Result<(), PrintError>
    ensures { OnOk result (Appends (W.contents output.old) (W.contents output.new)
        (counts_line report.now.done report.now.marked (length report.now.conflicts.items)
        (length report.now.refused.items))) }
{
    let done = report.done;
    let marked = report.marked;
    let conflicts = report.conflicts.len();
    let refused = report.refused.len();
    write!(
        output,
        "done {done} marked {marked} conflicts {conflicts} refused {refused}\n"
    )?;
    Ok(())
}

/// Prints a line for each of the items, in their order.
fn show_named<W: Write>(items: &[Named], output: &mut W) -> Result<(), PrintError>
    ensures { OnOk result (Appends (W.contents output.old) (W.contents output.new)
        (lines_of_named (map named_of items.now))) }
{
    for item in items {
        show_item(item, output)?;
    }
    Ok(())
}

/// Prints the line of an item: its path, and the number of its refusal where it was refused.
fn show_item<W: Write>(item: &Named, output: &mut W) -> Result<(), PrintError>
    ensures { OnOk result (Appends (W.contents output.old) (W.contents output.new)
        (line_at item.now.path.now (option_map cause_of item.now.refused))) }
{
    let path = item.path;
    match item.refused {
        Some(why) => {
            let number = why.number();
            write!(output, "refused {number} {path}\n")?;
        }
        None => write!(output, "conflict {path}\n")?,
    }
    Ok(())
}

/// Prints the line of what ended a session early: the number of the refusal. Nothing where nothing
/// did.
fn show_ended<W: Write>(ended: Option<Refusal>, output: &mut W) -> Result<(), PrintError>
    ensures { OnOk result (Appends (W.contents output.old) (W.contents output.new)
        (ended_line (option_map cause_of ended))) }
{
    if let Some(why) = ended {
        let number = why.number();
        write!(output, "ended {number}\n")?;
    }
    Ok(())
}
