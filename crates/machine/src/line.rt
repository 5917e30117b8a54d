//! A line of pieces: a queue in 32 places, the piece whose instant comes first at its front.
ghost use Rattle.std.specs.Prelude.{◌≡◌, ℕ, ◌+◌, ◌<◌, ◌≤◌, length, refl, sum_by};
ghost use Rattle.machine.specs.Lines.{held_pick, pick_before, picks, ready_pick, Fronts, Takes};
ghost use Rattle.model.specs.Machine.{Pick};
ghost use Rattle.queue.specs.Held.{Heaped};
ghost use Rattle.std.specs.Option.{option_map};

use queue::order::Ranked;
use queue::queue::{front_of, put_beside, take_first};
use queue::records::{HeldPiece, ReadyPiece};

/// Records of a task and an instant, ranked by the instant, then by the task.
pub(crate) trait Picked: Ranked {
    /// The task and the instant.
    ghost pick: { Self → Pick };

    ghost ranks: { (x y : Self) → pick_before (pick x) (pick y) ≡ Self.earlier x y };
}

impl Picked for ReadyPiece {
    ghost pick = { ready_pick };

    ghost ranks = { λ x y. refl };
}

impl Picked for HeldPiece {
    ghost pick = { held_pick };

    ghost ranks = { λ x y. refl };
}

/// A queue of pieces, in the first `len` places.
// An array with a length beside it: memory is fixed.
// It is no `Queue` over the array: where the record is a type parameter, the check learns nothing of an array that it lent to a struct.
#[derive(Drop)]
pub struct Line<R: Ranked> {
    pub(crate) items: [R; 32],
    pub(crate) len: usize,
    ghost long: { length items ≡ 32 },
    ghost fits: { len ≤ 32 },
    ghost heap: { Heaped R.earlier items len },
}

impl<R: Picked + Copy + Default> Line<R> {
    pub(crate) fn new() -> Line<R>
        ensures { result.len ≡ 0 }
    {
        Line {
            items: [R::default(); 32],
            len: 0,
        }
    }

    pub(crate) fn put(&mut self, x: R)
        requires { self.old.len < 32 }
        ensures len { self.new.len ≡ self.old.len + 1 }
        ensures sums { (f : Pick → ℕ) → sum_by f (picks R.pick self.new.len self.new.items) ≡ f (R.pick x) + sum_by f (picks R.pick self.old.len self.old.items) }
    {
        put_beside(&mut self.items, self.len, x).unwrap();
        self.len += 1;
    }

    pub(crate) fn take(&mut self) -> Option<R>
        ensures len { 0 < self.old.len → self.new.len + 1 ≡ self.old.len }
        ensures held { Takes (picks R.pick self.old.len self.old.items) (option_map R.pick result) (picks R.pick self.new.len self.new.items) }
    {
        let first = take_first(&mut self.items, self.len)?;
        self.len -= 1;
        Some(first)
    }

    pub(crate) fn front(&self) -> Option<R>
        ensures { Fronts (picks R.pick self.now.len self.now.items) (option_map R.pick result) }
    {
        front_of(&self.items, self.len)
    }
}
