//! The refusals of the product: one table of their numbers, their names and what each means.
//!
//! Every layer above has an error enum of its own, which says of each of its cases which refusal it
//! is and prints it through this table.
//!
//! # What it promises
//!
//! - `Refusal` has the 26 refusals, each with a number (`number`), a name and a plain explanation,
//!   in one table. `from_number` gives the refusal of a number, and none exactly where no refusal
//!   has it (`some`, `none`). What `Display` writes is the name.
//! - The error enum of each layer says which refusal each of its cases is (`refusal`) and prints
//!   through the table.
#![tactic(auto)]

mod refusal;

pub use refusal::Refusal;
