//! The questions that every load answers.
ghost use Rattle.std.specs.Prelude.{◌≡◌, List};
ghost use Rattle.model.specs.Asked.{count_told, found, spacing_told, total_told, piece_told, demand_told};
ghost use Rattle.model.specs.Round.{round, round_told};
ghost use Rattle.model.specs.Task.{Task, AllLawful};

/// A load (a task set): it means a list of lawful tasks, numbered from 0, and answers questions about them.
/// Costs and demands above 10^15 are told as 10^15, and nothing is told of a task numbered 32 or more.
pub trait Load {
    /// The tasks that the load means.
    ghost tasks: { Self → List Task };

    ghost lawful: { (l : Self) → AllLawful (tasks l) };

    /// How many tasks there are; 33 stands for 33 or more.
    // A number and no Option: a rule of the project.
    fn count(&self) -> u64
        ensures { result ≡ count_told (tasks self.now) };

    /// The least time between two wakes of a task.
    fn spacing(&self, task: u64) -> Option<u64>
        ensures { result ≡ spacing_told (found (tasks self.now) task) };

    /// The most that a job of a task costs.
    fn total(&self, task: u64) -> Option<u64>
        ensures { result ≡ total_told (found (tasks self.now) task) };

    /// A piece of a task, counted from 1: its ready offset, its cap and its due offset.
    fn piece(&self, task: u64, number: u64) -> Option<(u64, u64, u64)>
        ensures { result ≡ piece_told (found (tasks self.now) task) number };

    /// The demand of a task at a length of at most 1,000,000.
    fn demand(&self, task: u64, length: u64) -> Option<u64>
        ensures { result ≡ demand_told (found (tasks self.now) task) length };

    /// The round (hyperperiod): the least common multiple of the spacings, if it is at most 100,000.
    fn round(&self) -> Option<u64>
        ensures { result ≡ round_told (round (tasks self.now)) };
}
