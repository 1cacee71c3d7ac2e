//! What is printed of a plan.

mod counts;
mod lines;

pub use counts::{Counts, counts_of};
pub use lines::show_plan;
