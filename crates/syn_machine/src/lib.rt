//! What one machine does: a side, the coordinator, and the session that it runs.
//!
//! The code of a layer owes that each of its calls is a step of its machine, as it is defined here,
//! and nothing about runs. What a machine does is said over the machine alone, with no world, and
//! once for both kinds of machine (`Kind`, `Does`). `syn_runs` makes a world of three machines and
//! proves its sentences of every run; no crate of the product stands on it.
//!
//! - A **machine** keeps a value in a journal (`Journaled`): a side its history, the coordinator
//!   its archive. What a record makes of the value, and the bytes of records and images, are its
//!   `Layout`. A record is written by four device calls (`Writes`), a checkpoint by six
//!   (`Compacts`), an opening makes at least one where the machine is up (`Opens`). After the call
//!   that a `Stop` names the machine is down, and says what was being written. The next opening
//!   gives the value, with the one record or without it.
//! - A **side** takes a request (`SideTakes`). It answers as `serve` says, or 11 where memory is
//!   refused, and adds nothing. Or it adds the one event that the answer speaks of, and writes it.
//!   A halted side stages, or has no memory to, and refuses all else 10.
//! - A **coordinator** keeps the state of the session that runs (`Running`): the transcript
//!   (`taken`), what waits on each side, its plan, and the item that it has come to. It also keeps
//!   what it recorded and refused so far. The head of `specs/Session.antt` tells what it may ask
//!   next (`MayAsk`), and which answer is taken (`IsExpected`) or ends the session (`fault_of`).
//! - With an answer it goes on through the plan from item to item (`Advances`). It passes a
//!   conflict, refuses an item as its side or the archive refuses it, and keeps a record that is
//!   due (`IsDue`). Due is a replacement that this very answer says is done, marks that both scans
//!   agree on, and a directory of both. For a record that does not fit it makes one checkpoint, and
//!   then does nothing but write that record (`made_room`). Where no checkpoint can be made, at the
//!   greatest generation, the item is refused 7. It stops at an item that carries, or at the end of
//!   the plan, or where its device fails or it is cut off.
//! - A session **ends** where each item is settled, or early (`EndsFor`). It ends with 9 or 10 as
//!   its archive's device failed now or before. It ends with 8 where the checkpoint that was just
//!   made for a record left no room for it, and with 11. A tick ends it with 25 once a request was
//!   resent eight times (`CoordinatorTicks`).
//! - What it **reports** is a function of where it stands (`report_of`). It is Complete exactly
//!   where nothing ended it early, no item was refused and no path was unstable. It has the
//!   conflicts that the session came to, in order, and how many items of each kind it recorded.
//! - The **plan** of two scans and an archive is the plan's definition, item by item, with what the
//!   two scans have at each. A session makes it once, of the archive as it is in that call
//!   (`MakesPlan`), and there the world logs it with its scans. A scan lists what a side held
//!   (`IsScanBy` in `syn_model`): each directory that it shows was listed so at its position, or is
//!   unstable.
//! - A user's edit, a start, a checkpoint and a reopening are lost on a machine that is down. Else
//!   each is made, or is refused with the first of its causes, which the world keeps (`Calls`,
//!   `refusals`). It is 9 where it leaves the machine halted (`refused_by`).
//! - A **server** is a side with a staging for each connection (`Server`). What it does is a list
//!   of holds: for a user's edit, for a request that came over a connection, for one that closed,
//!   or for a call of the machine itself (`Holds`). The coordinator's calls are a list of acts in
//!   the same way (`Acts`).
#![tactic(auto)]
