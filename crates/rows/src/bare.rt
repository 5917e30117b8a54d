//! Bare rows: any numbers and a name, as tables and places hold them.
ghost use Rattle.std.specs.Prelude.{◌≡◌, Some, None, MatchResult};
ghost use Rattle.model.proofs.Rules.Keeps.{plain_task_lawful, settled_task_lawful, bounded_task_lawful};
ghost use Rattle.rows.specs.Bare.{plain_breaks, plain_own, plain_means, open_breaks, settled_breaks, settled_own, settled_means, bounded_breaks, bounded_own, bounded_means};

use crate::bounded::Bounded;
use crate::kind::{Bare, Kind};
use crate::open::Open;
use crate::plain::Plain;
use crate::settled::Settled;
use model::refusal::Refusal;

/// One piece: a spacing, a due offset and a cost.
#[derive(Clone, Copy, Debug, Default, PartialEq, Eq)]
pub struct PlainRow {
    pub name: u8,
    pub spacing: u64,
    pub due: u64,
    pub cost: u64,
}

// Each kind names its made row in `test` and `made`: a method for all would need a law that is longer than these lines.
impl Kind for PlainRow {
    const TAG: u8 = 0x01;

    ghost TAG = { 1 };

    const FIELDS: usize = 3;

    ghost FIELDS = { 3 };

    ghost fault = { λ r. plain_breaks r };

    ghost title = { λ r. r.name };

    fn name(&self) -> u8 {
        self.name
    }

    fn test(&self) -> Result<(), Refusal> {
        Plain::try_from(*self)?;
        Ok(())
    }
}

impl Bare for PlainRow {
    type Made = Plain;

    ghost own = { λ r. plain_own r };

    ghost task = { λ r. plain_means r };

    ghost lawful = { λ r. plain_task_lawful r.spacing r.due r.cost };

    fn made(&self) -> Result<Plain, Refusal> {
        Plain::try_from(*self)
    }

    fn kept(&self) -> Plain {
        match self.made() {
            Ok(row) => row,
            Err(_) => Plain::least(self.name),
        }
    }
}

/// Two costs with a wait between them.
#[derive(Clone, Copy, Debug, Default, PartialEq, Eq)]
pub struct OpenRow {
    pub name: u8,
    pub spacing: u64,
    pub first: u64,
    pub wait: u64,
    pub second: u64,
}

impl Kind for OpenRow {
    const TAG: u8 = 0x02;

    ghost TAG = { 2 };

    const FIELDS: usize = 4;

    ghost FIELDS = { 4 };

    ghost fault = { λ r. open_breaks r };

    ghost title = { λ r. r.name };

    fn name(&self) -> u8 {
        self.name
    }

    fn test(&self) -> Result<(), Refusal> {
        Open::try_from(*self)?;
        Ok(())
    }
}

/// An open row with a split.
#[derive(Clone, Copy, Debug, Default, PartialEq, Eq)]
pub struct SettledRow {
    pub name: u8,
    pub spacing: u64,
    pub first: u64,
    pub wait: u64,
    pub second: u64,
    pub split: u64,
}

impl Kind for SettledRow {
    const TAG: u8 = 0x12;

    ghost TAG = { 18 };

    const FIELDS: usize = 5;

    ghost FIELDS = { 5 };

    ghost fault = { λ r. settled_breaks r };

    ghost title = { λ r. r.name };

    fn name(&self) -> u8 {
        self.name
    }

    fn test(&self) -> Result<(), Refusal> {
        Settled::try_from(*self)?;
        Ok(())
    }
}

impl Bare for SettledRow {
    type Made = Settled;

    ghost own = { λ r. settled_own r };

    ghost task = { λ r. settled_means r };

    ghost lawful = { λ r. settled_task_lawful r.spacing r.first r.wait r.second r.split };

    fn made(&self) -> Result<Settled, Refusal> {
        Settled::try_from(*self)
    }

    fn kept(&self) -> Settled {
        match self.made() {
            Ok(row) => row,
            Err(_) => Settled::least(self.name),
        }
    }
}

/// Two caps with a wait between them, a total and a split.
#[derive(Clone, Copy, Debug, Default, PartialEq, Eq)]
pub struct BoundedRow {
    pub name: u8,
    pub spacing: u64,
    pub first: u64,
    pub second: u64,
    pub total: u64,
    pub wait: u64,
    pub split: u64,
}

impl Kind for BoundedRow {
    const TAG: u8 = 0x03;

    ghost TAG = { 3 };

    const FIELDS: usize = 6;

    ghost FIELDS = { 6 };

    ghost fault = { λ r. bounded_breaks r };

    ghost title = { λ r. r.name };

    fn name(&self) -> u8 {
        self.name
    }

    fn test(&self) -> Result<(), Refusal> {
        Bounded::try_from(*self)?;
        Ok(())
    }
}

impl Bare for BoundedRow {
    type Made = Bounded;

    ghost own = { λ r. bounded_own r };

    ghost task = { λ r. bounded_means r };

    ghost lawful = { λ r. bounded_task_lawful r.spacing r.first r.second r.total r.wait r.split };

    fn made(&self) -> Result<Bounded, Refusal> {
        Bounded::try_from(*self)
    }

    fn kept(&self) -> Bounded {
        match self.made() {
            Ok(row) => row,
            Err(_) => Bounded::least(self.name),
        }
    }
}
