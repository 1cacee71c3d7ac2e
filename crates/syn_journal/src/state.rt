//! What a machine keeps in memory, and how its disk spells it.
ghost use Rattle.std.specs.Prelude.{◌≡◌, ◌<◌, ◌^◌, ℕ, Some, IfOk, IfErr, IfSome, false};
ghost use Rattle.syn_journal.specs.Refusals.{refusal_of};
ghost use Rattle.syn_journal.specs.Endings.{is_device};
ghost use Rattle.syn_journal.specs.Openings.{bytes_of_each};
ghost use Rattle.syn_model.specs.Refusal.{Memory};
ghost use Rattle.syn_refusal.specs.Refusals.{cause_of};

use crate::JournalError;
use std::alloc::Global;
use syn_refusal::Refusal;

/// What a machine keeps in memory, and how its disk spells it: as an image, and as the payloads of
/// the updates that were made since.
pub trait State {
    ghost use Rattle.std.specs.Prelude.{ℕ, List, Option};
    ghost use Rattle.syn_model.specs.Refusal.{Refusal};
    ghost use Rattle.syn_journal.specs.declared.error.JournalError.{JournalError};
    ghost use Rattle.syn_journal.specs.Machines.{IsLawful, IsReadAs, KeptAs};

    /// A change that is ready to be made, with all memory for it.
    type Update: Drop;

    /// Why a call is refused.
    type Error: Drop;

    /// Which refusal it is.
    ghost why: { Self.Error → Refusal };

    /// How a refusal of the journal is answered.
    ghost of_journal: { JournalError → Self.Error };

    /// The number of the pair.
    ghost pair: { Self → ℕ };

    /// Its image.
    ghost spelling: { Self → List ℕ };

    /// An image and the payloads after it give this state.
    ghost gives: { List ℕ → List (List ℕ) → Self → Type 0 };

    /// Why nothing of the wanted pair is read of an image and the payloads after it.
    ghost unread: { Self.Error → Option ℕ → List ℕ → List (List ℕ) → Type 0 };

    /// An image of an older version and the payloads after it give this state.
    ghost gives_old: { List ℕ → List (List ℕ) → Self → Type 0 };

    /// Why nothing is read of an image of an older version and the payloads after it.
    ghost unread_old: { Self.Error → List ℕ → List (List ℕ) → Type 0 };

    /// The second may be read in the place of the first, where a machine opens its own disk again.
    ghost follows: { Self → Self → Type 0 };

    /// Why nothing is read in the place of the state.
    ghost unread_again: { Self.Error → Self → List ℕ → List (List ℕ) → Type 0 };

    /// What the model's machine keeps of it, and what is added to that.
    ghost Kept: { Type 0 };

    ghost Added: { Type 0 };

    /// How that machine keeps a state of this pair.
    ghost kept_as: { ℕ → KeptAs Self Kept Added };

    /// The update may be made.
    ghost ready: { Self → Self.Update → Type 0 };

    /// And this is what it makes.
    ghost makes: { Self → Self.Update → Self → Type 0 };

    /// Does nothing. It says that the model's machine keeps a state as its image and its payloads
    /// do, and that what is read of a disk is what the machine keeps.
    fn keeping_laws()
        ensures written { (number : ℕ) → IsLawful (kept_as number) spelling }
        ensures read { (number : ℕ) → IsReadAs number (kept_as number) pair gives follows
            unread unread_again of_journal why };

    /// The answer to a refusal of the journal.
    fn refused(error: JournalError) -> Self::Error
        ensures error { result ≡ of_journal error }
        ensures why { why result ≡ refusal_of error };

    /// Which refusal it is.
    fn refusal(error: &Self::Error) -> Refusal
        ensures { cause_of result ≡ why error.now };

    /// Its image; none where memory is refused.
    fn image(&self, alloc: Global) -> Option<Vec<u8>>
        ensures { IfSome result (λ image. image.items ≡ spelling self.now) };

    /// The state that the image and the payloads after it give, of the wanted pair, or of any.
    fn read(
        alloc: Global,
        image: &[u8],
        payloads: &[Vec<u8>],
        wanted: Option<u64>,
    ) -> Result<Self, Self::Error>
        ensures fits { IfOk result (λ read. pair read < 2 ^ 64) }
        ensures gives { IfOk result (gives image.now (bytes_of_each payloads.now)) }
        ensures one { IfOk result (λ read. (other : Self) → pair other < 2 ^ 64
            → gives image.now (bytes_of_each payloads.now) other → other ≡ read) }
        ensures wanted { IfOk result (λ read. (asked : ℕ) → wanted ≡ Some asked
            → asked ≡ pair read) }
        ensures unread { IfErr result (λ e. unread e wanted image.now
            (bytes_of_each payloads.now)) }
        ensures device { IfErr result (λ e. is_device (why e) ≡ false) };

    /// The state that an image of an older version and the payloads after it give.
    fn read_old(alloc: Global, image: &[u8], payloads: &[Vec<u8>]) -> Result<Self, Self::Error>
        ensures fits { IfOk result (λ read. pair read < 2 ^ 64) }
        ensures gives { IfOk result (gives_old image.now (bytes_of_each payloads.now)) }
        ensures one { IfOk result (λ read. (other : Self) → pair other < 2 ^ 64
            → gives_old image.now (bytes_of_each payloads.now) other → other ≡ read) }
        ensures unread { IfErr result (λ e. unread_old e image.now
            (bytes_of_each payloads.now)) }
        ensures device { IfErr result (λ e. is_device (why e) ≡ false) };

    /// The state that the image and the payloads after it give, where it may follow this one.
    fn read_again(
        &self,
        alloc: Global,
        image: &[u8],
        payloads: &[Vec<u8>],
    ) -> Result<Self, Self::Error>
        ensures fits { IfOk result (λ read. pair read < 2 ^ 64) }
        ensures gives { IfOk result (gives image.now (bytes_of_each payloads.now)) }
        ensures one { IfOk result (λ read. (other : Self) → pair other < 2 ^ 64
            → gives image.now (bytes_of_each payloads.now) other → other ≡ read) }
        ensures follows { IfOk result (follows self.now) }
        ensures unread { IfErr result (λ e. unread_again e self.now image.now
            (bytes_of_each payloads.now)) }
        ensures own { gives image.now (bytes_of_each payloads.now) self.now
            → IfErr result (λ e. why e ≡ Memory) }
        ensures device { IfErr result (λ e. is_device (why e) ≡ false) };

    /// Makes an update that was prepared for the state as it is. It takes no memory.
    fn make(&mut self, update: Self::Update)
        requires { ready self.old update }
        ensures { makes self.old update self.new };
}
