//! A load that is lent is a load: each question goes to the load behind the reference.
use crate::load::Load;
use crate::named::Named;

impl<'a, L: Load> Load for &'a L {
    ghost tasks = { λ r. L.Load.tasks r.now };

    ghost lawful = { λ r. L.Load.lawful r.now };

    fn count(&self) -> u64 {
        (**self).count()
    }

    fn spacing(&self, task: u64) -> Option<u64> {
        (**self).spacing(task)
    }

    fn total(&self, task: u64) -> Option<u64> {
        (**self).total(task)
    }

    fn piece(&self, task: u64, number: u64) -> Option<(u64, u64, u64)> {
        (**self).piece(task, number)
    }

    fn demand(&self, task: u64, length: u64) -> Option<u64> {
        (**self).demand(task, length)
    }

    fn round(&self) -> Option<u64> {
        (**self).round()
    }
}

impl<'a, L: Named> Named for &'a L {
    ghost names = { λ r. L.Named.names r.now };

    fn name(&self, task: u64) -> Option<u8> {
        (**self).name(task)
    }
}
