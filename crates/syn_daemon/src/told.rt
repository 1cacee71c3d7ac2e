//! What a thread has told of what stays as it is, so that it tells it once.
use log::{Log, warn};
use std::alloc::{AllocError, Global};

/// The lines that were told of the last look, and those of this one.
#[derive(Drop)]
pub(crate) struct ToldLines {
    last: Vec<String>,
    now: Vec<String>,
}

impl ToldLines {
    /// Nothing was told.
    pub(crate) fn new(alloc: Global) -> ToldLines {
        ToldLines {
            last: Vec::new(alloc),
            now: Vec::new(alloc),
        }
    }

    /// Tells the line, unless it was told of the last look or of this one.
    ///
    /// Refused where memory is refused: then it may be told again.
    pub(crate) fn tell<H: Log>(&mut self, rt: &H, line: String) -> Result<(), AllocError> {
        if !has(&self.last, &line) && !has(&self.now, &line) {
            warn!(rt; "{line}");
        }
        self.now.push(line)?;
        Ok(())
    }

    /// Ends the look.
    pub(crate) fn turn(&mut self, alloc: Global) {
        let now = std::mem::replace(&mut self.now, Vec::new(alloc));
        self.last = now;
    }

    /// Ends a look that came to nothing: the one before it stays the last.
    pub(crate) fn turn_back(&mut self, alloc: Global) {
        self.now = Vec::new(alloc);
    }
}

/// The line is among them.
fn has(lines: &[String], line: &String) -> bool {
    lines.iter().any(|other| other.as_str() == line.as_str())
}
