//! File trees: what stands at each path, and the edits that change it.
//!
//! # What it promises
//!
//! - A `Tree` is one of the model's whose root is a directory, within all limits, by its type
//!   (`Tree::entries`: `tree`, `fits`).
//! - `check` answers the definition's refusal of an edit, or none (`edit_refusal`), and takes no
//!   memory.
//! - `prepare` makes a change ready (`ready`, `gives`), refused as `check` or for lack of memory;
//!   `make` makes it, without memory, and cannot fail. Between the two a replica writes its
//!   journal. `prepare_replace` is the same for the replacement of a part.
//! - `apply` and `replace` do both: what the definition says stands then (`done`), and after a
//!   refusal what stood before (`same`).
//! - `get`, `list`, `subtree` give what stands there. `Entries::from_vec` takes entries in path
//!   order exactly where they are lawful, and so does `Tree::from_entries` where they keep the
//!   limits of a replica.
//! - `Tree::entries`, `Tree::below` and `Entries::iter` give a `Cursor`: an iterator over pairs in
//!   path order, which contracts see as the list of those that are left. A `Pair` is lent: its path
//!   is copied for who needs it, its last name and what stands there are looked at. No call shows
//!   in what form a tree keeps them.
//! - A file has a mode beside its bytes, the nine bits of a `Mode`. `Mode::new` gives the mode of a
//!   number, and none exactly where it has more bits (`some`, `none`). `mode_after_put` of
//!   `checking` is the mode that a put leaves: that of the file there, or a new one's.
//! - `copy` of a `Node`, of `Entries` and of an `Edit` is an equal one of its own, refused 11 where
//!   memory is refused (`ok`, `memory`).
//! - `child_count` is how many names a directory has, and `part_length` how many bytes spell what
//!   is at a path, both without memory.
//! - What serves any form of a tree has modules of its own. `checking::check` answers why an edit
//!   is refused, of a form that is `Limited`: it finds what stands at a path, judges a place, and
//!   says whether a part fits. `measures` counts the bytes of a spelling, `placing` gives the
//!   entries of a part at a path, and `parts` takes a part out and names what is in a directory.
//!
//! # Two forms
//!
//! A tree may be kept in any form. What each form does is stated once, and a run of edits is proved
//! once for each. The program uses `Tree` alone; the other form shows that the statement does not
//! lean on how a `Tree` keeps its entries.
//!
//! - `TreeForm` says what a form of a tree does, over the set of paths that it stands for: `get`,
//!   `list`, `subtree`, `check`, `apply`, `replace`, each by the definitions of `syn_model`, and
//!   `keeps`, that the limits of a replica are kept.
//! - `Tree` is one form, and `PlainTree`, a list of paths in path order, is the other.
//! - `run` makes edits and replacements one after the other, of any form (`goes`): each is answered
//!   none where it is made, and else the definition's refusal or 11 with nothing changed.
//! - Two forms that stand for equal trees, and meet no lack of memory, answer alike and stand for
//!   equal trees after it (`turn_laws`).
#![tactic(auto)]

mod change;
pub mod checking;
mod content;
mod cursor;
mod edit;
mod entries;
mod entry;
mod error;
mod form;
mod lawful;
mod listed;
pub mod measures;
mod mode;
mod node;
mod pair;
pub mod parts;
pub mod placing;
mod plain;
mod tree;
mod turn;

pub use change::Change;
pub use content::{Content, Found};
pub use cursor::Cursor;
pub use edit::Edit;
pub use entries::Entries;
pub use entry::Entry;
pub use error::TreeError;
pub use form::TreeForm;
pub use measures::{LONGEST_FILE, LONGEST_SPELLING, MOST_CHILDREN};
pub use mode::{Mode, is_mode};
pub use node::Node;
pub use pair::Pair;
pub use plain::PlainTree;
pub use tree::Tree;
pub use turn::{Turn, run, turn_laws};
