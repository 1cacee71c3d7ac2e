//! Disks for tests and for simulated machines: they can be stopped, restarted, and told to fail.
pub mod cut;
pub mod leaves;
pub mod limit;
pub mod memory;
mod part;
pub mod restart;
mod written;
