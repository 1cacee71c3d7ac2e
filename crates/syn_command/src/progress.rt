//! A session that is told line by line.
ghost use Rattle.std.specs.Prelude.{◌≡◌};
ghost use Rattle.syn_command.specs.Progresses.{writer_in};

use crate::session_lines::{carried_line, conflict_line, count_line, marked_line, refused_line};
use crate::teller::CLEARED;
use std::alloc::{AllocError, Global};
use std::io::{self, Write};
use syn_image::Kept;
use syn_message::{Reply, ReplyMessage};
use syn_path::{Path, Side};
use syn_refusal::Refusal;
use syn_session::{Report, SettledItems};
use syn_sync::{SessionWatch, tell_unreached};

/// What was told of a session so far.
#[derive(Clone, Copy, Debug, Default)]
struct Told {
    /// How many items were carried.
    done: u32,
    /// How many items were refused.
    refused: usize,
    /// How many items were settled: carried, marked or refused, and at the end the conflicts.
    settled: u64,
    /// How many items the plan has.
    planned: usize,
    /// How many bytes were fetched.
    fetched: u64,
}

/// Writes a line as each item of a session is settled: `carried PATH`, `marked PATH`, or
/// `refused NUMBER PATH`.
///
/// `carried` is an item whose replacement a side made, once the archive has it. `marked` is one on
/// which both sides agreed already. Conflicts are told once the session has `ended`. A write that
/// fails is left out, and so is what finds no memory.
#[derive(Drop)]
pub struct SessionProgress<W> {
    alloc: Global,
    writer: W,
    /// Whether a line with counts stands below the others.
    counts: bool,
    told: Told,
}

impl<W: Write> SessionProgress<W> {
    /// Nothing was told yet.
    pub fn new(alloc: Global, writer: W) -> SessionProgress<W>
        ensures { writer_in result ≡ writer }
    {
        SessionProgress {
            alloc,
            writer,
            counts: false,
            told: Told::default(),
        }
    }

    /// Nothing was told yet. A last line says how many items of the plan were settled and how many
    /// bytes were fetched. It is written again in its place, so it wants a terminal.
    pub fn with_counts(alloc: Global, writer: W) -> SessionProgress<W>
        ensures { writer_in result ≡ writer }
    {
        let mut progress = SessionProgress::new(alloc, writer);
        progress.counts = true;
        progress
    }

    /// The writer.
    pub fn into_writer(self) -> W
        ensures { result ≡ writer_in self }
    {
        self.writer
    }

    /// Tells the refused items that were not told, as far as they come before the path in the plan,
    /// or all with no path.
    fn tell_refused(&mut self, refused: &[(Refusal, Path)], before: Option<&Path>) {
        for (why, path) in refused.iter().skip(self.told.refused) {
            match before {
                Some(recorded) if *path > *recorded => return,
                _ => {}
            }
            self.told.refused = self.told.refused.saturating_add(1);
            self.settle(refused_line(self.alloc, *why, path));
        }
    }

    /// One more item is settled, which has this line.
    fn settle(&mut self, line: Result<String, AllocError>) {
        self.told.settled = self.told.settled.saturating_add(1);
        self.write_line(line);
    }

    /// Writes the line, in the place of the counts, which follow it.
    fn write_line(&mut self, line: Result<String, AllocError>) {
        let Ok(line) = line else {
            return;
        };
        if self.counts {
            self.write(CLEARED);
        }
        self.write(&line);
        self.write_counts();
    }

    /// Writes the counts in the place of those before.
    fn write_counts(&mut self) {
        if !self.counts {
            return;
        }
        let told = self.told;
        if let Ok(line) = count_line(self.alloc, told.settled, told.planned, told.fetched) {
            self.write("\r");
            self.write(&line);
        }
    }

    fn write(&mut self, text: &str) {
        let _ = self.writer.write_all(text.as_bytes());
        let _ = self.writer.flush();
    }
}

impl<W: Write> SessionWatch for SessionProgress<W> {
    fn unreached(&mut self, side: Side, why: &io::Error) {
        tell_unreached(&mut self.writer, side, why);
    }

    /// Counts the bytes of a piece. A `Driver` asks for each piece once.
    fn heard(&mut self, _from: Side, answered: &ReplyMessage) -> bool {
        if let Reply::Piece { bytes, .. } = &answered.reply {
            self.told.fetched = self.told.fetched.saturating_add(bytes.len() as u64);
            self.write_counts();
        }
        true
    }

    /// Tells what was refused and what was recorded since the last call, in the order of the plan.
    /// Where one item more is done, it is the first that was recorded.
    fn settled(&mut self, settled: &SettledItems<'_>, kept: &[Kept]) {
        self.told.planned = match settled.planned {
            Some(items) => items,
            // The plan is not made yet, or its session has ended, maybe in the reply that made it.
            None => self.told.planned.max(count_of(settled)),
        };
        let mut is_carried = settled.done > self.told.done;
        self.told.done = settled.done;
        for one in kept {
            let path = match one {
                Kept::Record(path, _) => path,
                Kept::Dir(path) => path,
                Kept::Session(_) => continue,
            };
            self.tell_refused(settled.refused, Some(path));
            let line = if is_carried {
                carried_line(self.alloc, path)
            } else {
                marked_line(self.alloc, path)
            };
            is_carried = false;
            self.settle(line);
        }
        self.tell_refused(settled.refused, None);
    }

    /// Tells the conflicts. Then all is as new, for another session.
    fn ended(&mut self, report: &Report) {
        for path in &report.conflicts {
            self.settle(conflict_line(self.alloc, path));
        }
        self.write_counts();
        if self.counts {
            self.write("\n");
        }
        self.told = Told::default();
    }
}

/// How many items these are.
fn count_of(settled: &SettledItems<'_>) -> usize {
    let recorded = (settled.done as usize).saturating_add(settled.marked as usize);
    let others = settled
        .conflicts
        .len()
        .saturating_add(settled.refused.len());
    recorded.saturating_add(others)
}
