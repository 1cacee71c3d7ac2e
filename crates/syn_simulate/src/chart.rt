//! A chart of what happens at three machines.

use std::alloc::{AllocError, Global};
use syn_path::Side;
use syn_world::Machine;

mod drawing;
mod happened;
mod messages;
mod rows;

pub use drawing::draw_chart;

/// A chart with a column for each machine: left, coordinator, right. What happens is a row, in
/// order of time.
#[derive(Drop)]
pub(crate) struct Chart {
    alloc: Global,
    text: String,
}

impl Chart {
    /// A chart with the names of the columns alone.
    pub(crate) fn new(alloc: Global) -> Result<Chart, AllocError> {
        let mut chart = Chart {
            alloc,
            text: String::new(alloc),
        };
        chart.row("left", "coordinator", "right")?;
        Ok(chart)
    }

    /// Adds a row for what happens at the machine.
    pub(crate) fn add(&mut self, at: Machine, text: &str) -> Result<(), AllocError> {
        match at {
            Machine::Side(Side::Left) => self.row(text, "", ""),
            Machine::Coordinator => self.row("", text, ""),
            Machine::Side(Side::Right) => self.row("", "", text),
        }
    }

    /// The rows so far.
    pub(crate) fn into_text(self) -> String {
        self.text
    }

    fn row(&mut self, left: &str, middle: &str, right: &str) -> Result<(), AllocError> {
        let row = format!(in self.alloc; "{left:<30}|{middle:<30}|{right}")?;
        self.text.push_str(row.trim_end())?;
        self.text.push('\n')
    }
}
