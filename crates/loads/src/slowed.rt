//! A load on a slower machine: its costs are multiplied.
ghost use Rattle.model.proofs.Demand.Slow.{factor_lawful};
ghost use Rattle.model.specs.Slow.{slowed as slowed_tasks};

use crate::factor::Factor;
use crate::load::Load;
use crate::named::Named;

/// The load's tasks with caps and totals times the factor.
#[derive(Drop)]
pub struct Slowed<L> {
    pub load: L,
    pub factor: Factor,
}

impl<L: Load> Load for Slowed<L> {
    ghost tasks = { λ s. slowed_tasks s.factor.value (L.Load.tasks s.load) };

    ghost lawful = { λ s. factor_lawful s.factor.value s.factor.ok.0 (L.Load.tasks s.load) (L.Load.lawful s.load) };

    fn count(&self) -> u64 {
        self.load.count()
    }

    fn spacing(&self, task: u64) -> Option<u64> {
        self.load.spacing(task)
    }

    fn total(&self, task: u64) -> Option<u64> {
        self.load.total(task).map(|total| self.factor.times(total))
    }

    fn piece(&self, task: u64, number: u64) -> Option<(u64, u64, u64)> {
        let (ready, cost, due) = self.load.piece(task, number)?;
        Some((ready, self.factor.times(cost), due))
    }

    fn demand(&self, task: u64, length: u64) -> Option<u64> {
        self.load
            .demand(task, length)
            .map(|demand| self.factor.times(demand))
    }

    fn round(&self) -> Option<u64> {
        self.load.round()
    }
}

impl<L: Named> Named for Slowed<L> {
    ghost names = { λ s. L.Named.names s.load };

    fn name(&self, task: u64) -> Option<u8> {
        self.load.name(task)
    }
}
