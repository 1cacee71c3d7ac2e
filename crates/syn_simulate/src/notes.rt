//! Which messages were delivered already.
ghost use Rattle.std.specs.Prelude.{◌≡◌, ◌==◌, ◌||◌, ◌<◌, ◌≤◌, ℕ, false, true, length, None};
ghost use Rattle.std.specs.Prelude.{IfSome, slice_index_or};
ghost use Rattle.syn_simulate.specs.Players.{AreFlags};
ghost use Rattle.syn_simulate.specs.States.{State, noted};
ghost use Rattle.syn_world.specs.Steps.{step_of};

use syn_world::Step;

/// The flags of what is delivered after the step, of a world that sent so many messages. A number
/// that was never sent is not noted: that message may still come. None where memory for it is
/// refused.
pub(crate) fn note_step(sent: usize, delivered: Vec<bool>, step: &Step) -> Option<Vec<bool>>
    ensures { (state : State) → sent ≡ length state.world.sent → AreFlags delivered state.delivered
        → IfSome result (λ flags. AreFlags flags (noted state (step_of step.now))) }
{
    let Step::Deliver(number) = step else {
        return Some(delivered);
    };
    if *number >= sent {
        return Some(delivered);
    }
    note(delivered, *number)
}

/// The flags with that of the number set. None where memory for it is refused.
fn note(delivered: Vec<bool>, number: usize) -> Option<Vec<bool>>
    ensures { IfSome result (λ flags. (other : ℕ) → slice_index_or flags.items other false
        ≡ other == number || slice_index_or delivered.items other false) }
{
    let mut flags = delivered;
    for _ in flags.len()..=number {
        if flags.push(false).is_err() {
            return None;
        }
    }
    *flags.get_mut(number)? = true;
    Some(flags)
}

/// The lowest number from that one on whose flag is not set, if it is below the limit.
pub(crate) fn lowest_unset(flags: &[bool], from: usize, limit: usize) -> Option<usize>
    ensures none { result ≡ None → (other : ℕ) → from ≤ other → other < limit
        → slice_index_or flags.now other false ≡ true }
    ensures below { IfSome result (λ number. number < limit) }
    ensures unset { IfSome result (λ number. slice_index_or flags.now number false ≡ false) }
    ensures set { IfSome result (λ number. (other : ℕ) → from ≤ other → other < number
        → slice_index_or flags.now other false ≡ true) }
{
    let number = next_unset(flags, from);
    if number < limit { Some(number) } else { None }
}

/// The lowest number from that one on whose flag is not set.
fn next_unset(flags: &[bool], from: usize) -> usize
    ensures unset { slice_index_or flags.now result false ≡ false }
    ensures set { (other : ℕ) → from ≤ other → other < result
        → slice_index_or flags.now other false ≡ true }
    ensures onward { from ≤ result }
{
    let mut number = from;
    while let Some(true) = flags.get(number) {
        number += 1;
    }
    number
}
