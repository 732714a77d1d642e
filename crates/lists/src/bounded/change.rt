// The calls that change a list. A refused one leaves it as it was.
ghost use Rattle.std.specs.Borrow.{sem};
ghost use Rattle.std.specs.Prelude.{◌≡◌, ◌<◌, ◌↔◌, [], ◌∷◌, length, IsSome, IfSome, Some, slice_get};
ghost use Rattle.lists.specs.Calls.{Appends, Removes, Replaces};
ghost use Rattle.lists.specs.Held.{list_of};
ghost use Rattle.lists.specs.Lends.{LendsItem};

use crate::bounded::Bounded;
use crate::full::Full;
use std::mem;

impl<T: Copy, const N: usize> Bounded<T, N> {
    // One item more, at the end.
    pub fn push(&mut self, item: T) -> Result<(), Full>
        ensures { Appends (item ∷ []) self.old self.new result }
    {
        if self.length == N {
            return Err(Full);
        }
        self.items[self.length] = item;
        self.length += 1;
        Ok(())
    }

    // Those items after what the list has, in order: all of them or none.
    pub fn extend_from_slice(&mut self, list: &[T]) -> Result<(), Full>
        ensures { Appends list.now self.old self.new result }
    {
        if list.len() > N - self.length {
            return Err(Full);
        }
        let end = self.length + list.len();
        let room = &mut self.items[..];
        room[self.length..end].copy_from_slice(list);
        self.length = end;
        Ok(())
    }

    // Takes out the item at a place, counted from 0. Those behind it move up.
    pub fn remove(&mut self, place: usize) -> Option<T>
        ensures { Removes place self.old self.new result }
    {
        let item = self.get(place)?;
        self.items.copy_within(place + 1..self.length, place);
        self.length -= 1;
        Some(item)
    }

    // Puts the item in the place of another, which is handed back.
    pub fn replace(&mut self, place: usize, item: T) -> Option<T>
        ensures { Replaces place item self.old self.new result }
    {
        Some(mem::replace(self.get_mut(place)?, item))
    }

    // Lends the item at a place, to be changed there.
    pub fn get_mut(&mut self, place: usize) -> Option<&mut T>
        ensures* writes_back { sem 𝓛 (LendsItem T.row N.row self.entry place result) }
        ensures variant { IsSome result ↔ (place < length (list_of self.old)) }
        ensures value { IfSome result (λ x. slice_get (list_of self.old) place ≡ Some x.now) }
    {
        if place < self.length {
            Some(&mut self.items[place])
        } else {
            None
        }
    }

    // Takes all items out.
    pub fn clear(&mut self)
        ensures { list_of self.new ≡ [] }
    {
        self.length = 0;
    }
}
