//! Two loads, one after the other.
ghost use Rattle.std.specs.Prelude.{◌≡◌, ◌++◌, None, MatchOption};
ghost use Rattle.std.proofs.ByRecursion.{All-append};
ghost use Rattle.model.specs.Asked.{found, names_then};
ghost use Rattle.model.specs.Task.{Lawful};
ghost use Rattle.loads.specs.Pair.{Stands};

use crate::load::Load;
use crate::multiple::common_multiple;
use crate::named::Named;

/// The first load's tasks, then the second's.
#[derive(Drop)]
pub struct Pair<A, B> {
    pub first: A,
    pub second: B,
}

/// Where a task stands: in the first load under the same number, or in the second under this one.
#[derive(Clone, Copy)]
enum Side {
    First,
    Second(u64),
}

impl<A: Load, B: Load> Pair<A, B> {
    /// Where a task stands, if one of the loads may have it.
    fn side(&self, task: u64) -> Option<Side>
        ensures { MatchOption result (found (A.Load.tasks self.now.first ++ B.Load.tasks self.now.second) task ≡ None) (Stands (A.Load.tasks self.now.first) (B.Load.tasks self.now.second) task) }
    {
        let before = self.first.count();
        if task < before {
            Some(Side::First)
        } else if task < 32 {
            Some(Side::Second(task - before))
        } else {
            None
        }
    }
}

// Each answer asks another question of the side: a function over the question would be longer than two arms.
// Inlined always: in a pile of loads, a question out of line counts half as many instructions again.
impl<A: Load, B: Load> Load for Pair<A, B> {
    ghost tasks = { λ p. A.Load.tasks p.first ++ B.Load.tasks p.second };

    ghost lawful = { λ p. All-append Lawful _ _ (A.Load.lawful p.first) (B.Load.lawful p.second) };

    fn count(&self) -> u64 {
        // An `if`: so the compiler knows the bound where tasks are counted off.
        let all = self.first.count() + self.second.count();
        if all < 33 { all } else { 33 }
    }

    #[inline(always)]
    fn spacing(&self, task: u64) -> Option<u64> {
        match self.side(task)? {
            Side::First => self.first.spacing(task),
            Side::Second(i) => self.second.spacing(i),
        }
    }

    #[inline(always)]
    fn total(&self, task: u64) -> Option<u64> {
        match self.side(task)? {
            Side::First => self.first.total(task),
            Side::Second(i) => self.second.total(i),
        }
    }

    #[inline(always)]
    fn piece(&self, task: u64, number: u64) -> Option<(u64, u64, u64)> {
        match self.side(task)? {
            Side::First => self.first.piece(task, number),
            Side::Second(i) => self.second.piece(i, number),
        }
    }

    #[inline(always)]
    fn demand(&self, task: u64, length: u64) -> Option<u64> {
        match self.side(task)? {
            Side::First => self.first.demand(task, length),
            Side::Second(i) => self.second.demand(i, length),
        }
    }

    fn round(&self) -> Option<u64> {
        let first = self.first.round()?;
        let second = self.second.round()?;
        common_multiple(first, second)
    }
}

impl<A: Named, B: Named> Named for Pair<A, B> {
    ghost names = { λ p. names_then (A.Load.tasks p.first) (A.Named.names p.first) (B.Named.names p.second) };

    fn name(&self, task: u64) -> Option<u8> {
        match self.side(task)? {
            Side::First => self.first.name(task),
            Side::Second(i) => self.second.name(i),
        }
    }
}
