//! Why a session ends.
ghost use Rattle.std.specs.Prelude.{◌≡◌};

use std::alloc::AllocError;
use syn_refusal::Refusal;

/// Why a session ends.
#[derive(Clone, Copy, Debug, PartialEq, Eq)]
pub(crate) enum SessionEnd {
    /// It came through its plan.
    PlanDone,
    /// It ends early, for this.
    Early(Refusal),
    /// It ends 9: a device call of the archive failed, or its machine was stopped.
    Failed,
}

/// It ends early for what refuses it.
impl From<Refusal> for SessionEnd {
    ghost use Rattle.syn_coordinator.specs.declared.session_end.SessionEnd.TheVariants.{Early};

    ghost from_gives = { λ why ended. ended ≡ Early why };

    fn from(why: Refusal) -> SessionEnd {
        SessionEnd::Early(why)
    }
}

/// It ends 11 where memory is refused.
impl From<AllocError> for SessionEnd {
    ghost use Rattle.syn_coordinator.specs.declared.session_end.SessionEnd.TheVariants.{Early};
    ghost use Rattle.syn_refusal.specs.declared.refusal.Refusal.TheVariants.{Memory};

    ghost from_gives = { λ _ ended. ended ≡ Early Memory };

    fn from(_error: AllocError) -> SessionEnd {
        SessionEnd::Early(Refusal::Memory)
    }
}
