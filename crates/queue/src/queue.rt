//! A queue over lent places.
ghost use Rattle.std.specs.Prelude.{◌≡◌, ◌+◌, ◌-◌, ◌<◌, min, length, take, OnErr, OnOk, OnSome};
ghost use Rattle.queue.specs.Held.{GivesFirst, Heaped, Peeked, Put, Taken};

use crate::order::Ranked;
use crate::sift::{put_into, take_from};
use model::refusal::Refusal;

/// The record at the front of the queue that a queue left in the first `len` of these places.
// Places and length are two parameters: whoever keeps them has them in a struct.
pub fn front_of<R: Ranked + Copy>(items: &[R], len: usize) -> Option<R>
    ensures held { Peeked (take len items.now) result }
    ensures first { Heaped R.Ranked.earlier items.now len → GivesFirst R.Ranked.earlier (take len items.now) result }
{
    let n = len.min(items.len());
    items[..n].first().copied()
}

/// Puts a record beside those that a queue left in the first `len` of these places, if there is a free place.
pub fn put_beside<R: Ranked + Copy>(items: &mut [R], len: usize, x: R) -> Result<(), Refusal>
    ensures held { Put (length items.old) (take len items.old) x result (take (len + 1) items.new) }
    ensures sound { OnOk result (Heaped R.Ranked.earlier items.old len → Heaped R.Ranked.earlier items.new (len + 1)) }
    ensures kept { OnErr result (items.new ≡ items.old) }
    ensures places { length items.new ≡ length items.old }
{
    if len >= items.len() {
        return Err(Refusal::NoPlace);
    }
    put_into(items, len, x);
    Ok(())
}

/// Takes the record at the front of the queue that a queue left in the first `len` of these places; the others stay in one place less.
pub fn take_first<R: Ranked + Copy>(items: &mut [R], len: usize) -> Option<R>
    ensures held { Taken (take len items.old) result (take (min len (length items.old) - 1) items.new) }
    ensures some { OnSome result (0 < min len (length items.old)) }
    ensures first { Heaped R.Ranked.earlier items.old len → GivesFirst R.Ranked.earlier (take len items.old) result }
    ensures sound { Heaped R.Ranked.earlier items.old len → Heaped R.Ranked.earlier items.new (min len (length items.old) - 1) }
    ensures places { length items.new ≡ length items.old }
{
    let n = len.min(items.len());
    if n == 0 {
        return None;
    }
    Some(take_from(items, n))
}

/// A queue over lent places, of which the first `len` hold its records (all of them, where `len` is more).
///
/// What it gives out is before all different ones if the records are heaped, as they are in a new queue and after each call.
// The places are lent, so the length stands beside them. `over` takes any length: no invariant ties the two.
// That the lender and the places stay is a fact of two states, which each call says.
#[derive(Drop)]
pub struct Queue<'a, R> {
    items: &'a mut [R],
    len: usize,
}

impl<'a, R: Ranked + Copy> Queue<'a, R> {
    /// An empty queue.
    // `new` and not `From`: lent places are no other form of a queue.
    pub fn new(items: &'a mut [R]) -> Queue<'a, R>
        ensures places { result.items.now ≡ items.old }
        ensures lender { result.items.ghost_name ≡ items.entry.ghost_name }
        ensures empty { result.len ≡ 0 }
        ensures sound { Heaped R.Ranked.earlier result.items.now result.len }
    {
        Queue { items, len: 0 }
    }

    /// The queue that a queue left in the first `len` of its places.
    pub fn over(items: &'a mut [R], len: usize) -> Queue<'a, R>
        ensures places { result.items.now ≡ items.old }
        ensures lender { result.items.ghost_name ≡ items.entry.ghost_name }
        ensures len { result.len ≡ len }
    {
        Queue { items, len }
    }

    /// How many records the queue holds.
    pub fn len(&self) -> usize
        ensures { result ≡ min self.now.len (length self.now.items.now) }
    {
        self.len.min(self.items.len())
    }

    /// The record that `take` would give.
    pub fn peek(&self) -> Option<R>
        ensures held { Peeked (take self.now.len self.now.items.now) result }
        ensures first { Heaped R.Ranked.earlier self.now.items.now self.now.len → GivesFirst R.Ranked.earlier (take self.now.len self.now.items.now) result }
    {
        front_of(self.items, self.len)
    }

    /// Puts a record in, if there is a free place.
    pub fn put(&mut self, x: R) -> Result<(), Refusal>
        ensures held { Put (length self.old.items.now) (take self.old.len self.old.items.now) x result (take self.new.len self.new.items.now) }
        ensures sound { Heaped R.Ranked.earlier self.old.items.now self.old.len → Heaped R.Ranked.earlier self.new.items.now self.new.len }
        ensures lender { self.new.items.ghost_name ≡ self.old.items.ghost_name }
        ensures places { length self.new.items.now ≡ length self.old.items.now }
    {
        put_beside(self.items, self.len, x)?;
        self.len += 1;
        Ok(())
    }

    /// Takes out a record before all different ones.
    pub fn take(&mut self) -> Option<R>
        ensures held { Taken (take self.old.len self.old.items.now) result (take self.new.len self.new.items.now) }
        ensures first { Heaped R.Ranked.earlier self.old.items.now self.old.len → GivesFirst R.Ranked.earlier (take self.old.len self.old.items.now) result }
        ensures sound { Heaped R.Ranked.earlier self.old.items.now self.old.len → Heaped R.Ranked.earlier self.new.items.now self.new.len }
        ensures lender { self.new.items.ghost_name ≡ self.old.items.ghost_name }
        ensures places { length self.new.items.now ≡ length self.old.items.now }
    {
        let n = self.len();
        let first = take_first(self.items, n)?;
        self.len = n - 1;
        Some(first)
    }
}
