//! Loads that also tell their tasks' names.
ghost use Rattle.std.specs.Prelude.{◌≡◌, ℕ};
ghost use Rattle.model.specs.Asked.{found, name_told};

use crate::load::Load;

/// A load that also tells the name of each task.
pub trait Named: Load {
    /// The name of each task, by its number.
    ghost names: { Self → ℕ → ℕ };

    fn name(&self, task: u64) -> Option<u8>
        ensures { result ≡ name_told (found (Self.Load.tasks self.now) task) (names self.now task) };
}
