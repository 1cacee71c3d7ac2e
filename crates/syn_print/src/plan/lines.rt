//! The lines of a plan.
ghost use Rattle.std.specs.Prelude.{◌≡◌, ◌++◌, IfOk, OnOk, option_map};
ghost use Rattle.std.specs.FinMap.{get};
ghost use Rattle.std.specs.Io.KnownBytes.{Appends};
ghost use Rattle.std.specs.String.{string_bytes};
ghost use Rattle.syn_mark.specs.Marks.{content_of};
ghost use Rattle.syn_recon.specs.Items.{item_of};
ghost use Rattle.syn_print.specs.Counting.{carried_in, conflicts_in, marked_in};
ghost use Rattle.syn_print.specs.Plans.{had_line, item_lines, items_lines, mark_shown, plan_line};
ghost use Rattle.syn_print.specs.Plans.{word_of};

use crate::error::PrintError;
use crate::plan::counts::{Counts, counts_of};
use std::alloc::{AllocError, Global};
use std::io::Write;
use syn_mark::{Mark, MarkTree};
use syn_recon::Item;

/// Prints the plan: a line of its counts, and for each item a line with its path and one of what
/// each side and the archive have there, in path order.
///
/// Refused 9 where the output cannot be written, and 11 where memory is refused.
pub fn show_plan<W: Write>(
    alloc: Global,
    items: &[Item],
    left: &MarkTree,
    right: &MarkTree,
    archive: &MarkTree,
    output: &mut W,
) -> Result<(), PrintError>
    ensures { OnOk result (Appends (W.contents output.old) (W.contents output.new)
        (plan_line (carried_in items.now) (marked_in items.now) (conflicts_in items.now)
        ++ items_lines left.now right.now archive.now items.now)) }
{
    let first = counts_line(alloc, counts_of(items))?;
    output.write_all(first.as_bytes())?;
    show_items(alloc, items, left, right, archive, output)
}

/// Prints the lines of each item.
fn show_items<W: Write>(
    alloc: Global,
    items: &[Item],
    left: &MarkTree,
    right: &MarkTree,
    archive: &MarkTree,
    output: &mut W,
) -> Result<(), PrintError>
    ensures { OnOk result (Appends (W.contents output.old) (W.contents output.new)
        (items_lines left.now right.now archive.now items.now)) }
{
    for item in items {
        let lines = item_lines(alloc, item, left, right, archive)?;
        output.write_all(lines.as_bytes())?;
    }
    Ok(())
}

/// The line of the counts.
fn counts_line(alloc: Global, counts: Counts) -> Result<String, AllocError>
    ensures { IfOk result (λ line. string_bytes line
        ≡ plan_line counts.carried counts.marked counts.conflicts) }
{
    let carried = counts.carried;
    let marked = counts.marked;
    let conflicts = counts.conflicts;
    format!(in alloc; "plan carry {carried} mark {marked} conflicts {conflicts}\n")
}

/// The lines of an item.
fn item_lines(
    alloc: Global,
    item: &Item,
    left: &MarkTree,
    right: &MarkTree,
    archive: &MarkTree,
) -> Result<String, AllocError>
    ensures { IfOk result (λ lines. string_bytes lines
        ≡ item_lines left.now right.now archive.now (item_of item.now)) }
{
    let path = item.path();
    let word = word_of(item);
    let on_left = had_line(alloc, "left", left.get(path))?;
    let on_right = had_line(alloc, "right", right.get(path))?;
    let in_archive = had_line(alloc, "archive", archive.get(path))?;
    format!(in alloc; "{word} {path}\n{on_left}{on_right}{in_archive}")
}

/// What is done with the item.
fn word_of(item: &Item) -> &'static str
    ensures { result.now ≡ word_of (item_of item.now) }
{
    match item {
        Item::ToLeft(_) => "to left",
        Item::ToRight(_) => "to right",
        Item::MarkSame(_) | Item::MarkDir(_) => "mark",
        Item::Conflict(_) => "conflict",
    }
}

/// The line of what one of the three has.
fn had_line(alloc: Global, who: &str, mark: Option<Mark>) -> Result<String, AllocError>
    ensures { IfOk result (λ line. string_bytes line
        ≡ had_line who.now (option_map content_of mark)) }
{
    let shown = mark_shown(alloc, mark)?;
    format!(in alloc; "  {who} {shown}\n")
}

/// What stands at a path by its mark.
fn mark_shown(alloc: Global, mark: Option<Mark>) -> Result<String, AllocError>
    ensures { IfOk result (λ shown. string_bytes shown
        ≡ mark_shown (option_map content_of mark)) }
{
    match mark {
        None => String::from_str(alloc, "-"),
        Some(Mark::Dir) => String::from_str(alloc, "d"),
        Some(Mark::File(mode, digest)) => {
            let digest = hex::encode(alloc, digest)?;
            format!(in alloc; "f {mode} {digest}")
        }
    }
}
