//! The four splitters. Each says what the short piece has: the one that costs less, the first on a tie.
ghost use Rattle.std.specs.Prelude.{◌≡◌, ◌-◌};
ghost use Rattle.model.specs.Splits.{short_has, half, equal_offers, proportional_offers, falling_offers, rising_offers};
ghost use Rattle.model.proofs.Splits.{equal_lawful, proportional_lawful, falling_lawful, rising_lawful};

use crate::splitter::Splitter;
use rows::open::Open;

// Four types with a test and a call each: they differ in just these.

/// The room for both pieces: the spacing less the wait.
fn room(row: &Open) -> u64
    ensures { result ≡ row.now.row.spacing - row.now.row.wait }
{
    row.spacing() - row.wait()
}

/// Half of the room, rounded down.
fn half_room(row: &Open) -> u64
    ensures { result ≡ half row.now.row.spacing row.now.row.wait }
{
    room(row) / 2
}

/// The split at which the short piece has `ticks`.
fn giving_short(row: &Open, ticks: u64) -> u64
    ensures { result ≡ short_has row.now.row.spacing row.now.row.first row.now.row.wait row.now.row.second ticks }
{
    if row.first() <= row.second() {
        ticks
    } else {
        room(row).saturating_sub(ticks)
    }
}

/// The short piece has half.
#[derive(Clone, Copy)]
pub struct Equal;

impl Splitter for Equal {
    ghost offers = { λ _. equal_offers };

    ghost lawful = { λ _. equal_lawful };

    fn candidate(&self, row: &Open, k: u64) -> Option<u64> {
        (k == 0).then(|| giving_short(row, half_room(row)))
    }
}

/// The short piece has its share of both costs.
#[derive(Clone, Copy)]
pub struct Proportional;

impl Splitter for Proportional {
    ghost offers = { λ _. proportional_offers };

    ghost lawful = { λ _. proportional_lawful };

    fn candidate(&self, row: &Open, k: u64) -> Option<u64> {
        let first = row.first();
        let second = row.second();
        let share = room(row) * first.min(second) / (first + second);
        (k == 0).then(|| giving_short(row, share))
    }
}

/// The short piece has half, and then ever less.
#[derive(Clone, Copy)]
pub struct Falling;

impl Splitter for Falling {
    ghost offers = { λ _. falling_offers };

    ghost lawful = { λ _. falling_lawful };

    fn candidate(&self, row: &Open, k: u64) -> Option<u64> {
        let half = half_room(row);
        (k < half).then(|| giving_short(row, half - k))
    }
}

/// The short piece has 1, and then ever more up to half.
#[derive(Clone, Copy)]
pub struct Rising;

impl Splitter for Rising {
    ghost offers = { λ _. rising_offers };

    ghost lawful = { λ _. rising_lawful };

    fn candidate(&self, row: &Open, k: u64) -> Option<u64> {
        (k < half_room(row)).then(|| giving_short(row, 1 + k))
    }
}
