//! What is promised of the run of a world.
ghost use Rattle.std.specs.Prelude.{◌≡◌, ℕ, List};
ghost use Rattle.syn_promise.specs.Laws.{told_by};
ghost use Rattle.syn_runs.specs.Acknowledged.{Stores};
ghost use Rattle.syn_runs.specs.Runs.{stores_of};
ghost use Rattle.syn_runs.specs.World.{World as ModelWorld, Runs, Step as ModelStep};
ghost use Rattle.syn_world.specs.CrashSafety.{DiskBytes, IsOpenedFrom};

use crate::SimulatedDisk;
use crate::laws::disk_laws;
use crate::world::World;

impl<D: SimulatedDisk> World<D> {
    ghost use Rattle.syn_world.specs.Promises.{KeepsPromise};
    ghost use Rattle.syn_world.specs.Worlds.{IsWorld};

    /// Does nothing. A world that was opened from the disks of a pair, and went by these steps
    /// since, keeps the promise of the run.
    pub fn promise(&self)
        ensures kept { (pair : ℕ) (before : Stores) (bytes : DiskBytes) (old new : ModelWorld)
            (steps : List ModelStep) → IsOpenedFrom pair bytes old → stores_of old ≡ before
            → Runs old steps new → IsWorld self.now new
            → KeepsPromise pair before steps (told_by new) self.now }
    {
        disk_laws();
        syn_promise::promise();
    }
}
