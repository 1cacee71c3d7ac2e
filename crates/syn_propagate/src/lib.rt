//! How a session carries one item of its plan from one side to the other: piece by piece, and then
//! the replacement.
//!
//! # What it promises
//!
//! A `Transfer` is made of a `TransferSpec`: the item, its path, its source, and the positions from
//! which on no event may have touched the path on either side. Its contract speaks of any exchanges
//! that a session took (`taken`).
//!
//! - What is asked next is a `SideRequest`: the request, and the side that it is for. It is made
//!   here once, and moved on as a whole.
//! - `WaitsFor transfer taken to request`: it has come so far by these exchanges, and waits for the
//!   answer to this request. `IsFresh`: nothing was asked for the item yet.
//! - The first `step` asks for the first piece (`starts`). Each further one takes the answer
//!   (`goes_on`). Either it is a fault by the world's own `fault_of`, and the step is refused with
//!   it. Or what follows is what `Follows` says. It asks for what may be asked then (`MayAsk`), for
//!   nothing that was asked (`IsNew`), and waits for that.
//! - `MayAsk` has the words of the session's definition. It may be a piece from where the staged
//!   ones end, as far as the length is known; or a piece that was fetched, at its place. Once the
//!   whole is staged (`IsWhole`) it is the replacement, with the length that the source said.
//! - `Done` comes only with `WasCarried`: the target answered done to the replacement, whose bytes
//!   were fetched piece by piece and staged at their places (`WasStaged`).
//! - It goes on after no last answer, and is done after that of its replacement alone (`ends`).
//!   What it waits for is for what it carries (`transfer_laws`).
//! - `Refused` is a side's own refusal, and each one is passed on (`refused`). The step's own are
//!   23 and 11 (`TransferError`). After 11 it is as it was, and takes the same answer again
//!   (`unchanged`). After any other it is over (`over`), and each further step is refused 23
//!   (`misfit`).
//! - Memory is refused only for the first request, and after a piece that is staged or that has no
//!   bytes (`memory`). A piece with bytes is handed on, and a refusal and the end are passed on,
//!   without any.
#![tactic(auto)]

mod error;
mod next;
mod transfer;
mod transfer_spec;

pub use error::TransferError;
pub use next::{Next, SideRequest};
pub use transfer::{Transfer, transfer_laws};
pub use transfer_spec::TransferSpec;
