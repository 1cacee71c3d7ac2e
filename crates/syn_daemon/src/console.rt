//! Log lines that are their message alone.
use log::kv::Source;
use log::span::Spans;
use log::{Log, Metadata, Record};
use std::fmt::Display;

/// A sink that writes the message of each record as a line to the standard error of `R`, with
/// nothing in front. A line of up to 1,024 bytes is one write, so the lines of threads do not mix.
#[derive(Clone, Copy, Debug, Drop)]
pub struct Plain<R>(pub R);

impl<R: Eprint> Log for Plain<R> {
    ghost use Rattle.std.specs.Prelude.{[], Some, true};

    ghost enables = { λ _ _ _. Some true };

    ghost target_of = { λ _. Some [] };

    fn enabled(&self, _metadata: &Metadata<'_>) -> bool {
        true
    }

    fn log<D: Display, K: Source, S: Spans>(&self, record: &Record<'_, D, K, S>) {
        let _ = self.0.eprintln(record.args());
    }

    fn flush(&self) {}

    fn target(&self) -> &str {
        ""
    }
}
