//! Who is asked before anything is carried out, and who is told how far a reconciliation has come.
ghost use Rattle.std.specs.Prelude.{OnOk};

use crate::report::Settled;
use syn_refusal::Refusal;

/// Is asked before anything is carried out or recorded.
pub trait BeforeItems {
    /// What has to be done before the first item was done.
    ghost has_begun: { Self → Type 0 };

    /// So many items are to be settled, and none was yet. Where this is refused, none is.
    fn begin(&mut self, items: usize) -> Result<(), Refusal>
        ensures { OnOk result (has_begun self.new) };
}

/// Is told what is planned and what came of each item, as it is known. It changes nothing of it. No
/// clause says what it is told.
pub trait ItemWatch {
    /// So many items are to be settled. None was yet.
    fn planned(&mut self, items: usize);

    /// The item is settled. Where it was carried out, it is recorded.
    fn settled(&mut self, one: &Settled);
}
