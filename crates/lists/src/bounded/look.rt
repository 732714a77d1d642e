// What a list tells of the items that it holds.
ghost use Rattle.std.specs.Prelude.{◌≡◌, ◌≤◌, ◌↔◌, IsTrue, [], length, slice_get};
ghost use Rattle.lists.specs.Held.{list_of};

use crate::bounded::Bounded;

impl<T: Copy, const N: usize> Bounded<T, N> {
    // No items. The filler stands in the unused places.
    pub fn new(filler: T) -> Self
        ensures { list_of result ≡ [] }
    {
        Bounded {
            items: [filler; N],
            length: 0,
        }
    }

    // How many items the list has.
    pub fn len(&self) -> usize
        ensures counts { result ≡ length (list_of self.now) }
        ensures most { result ≤ N }
    {
        self.length
    }

    // Whether the list has no items.
    pub fn is_empty(&self) -> bool
        ensures { IsTrue result ↔ (list_of self.now ≡ []) }
    {
        self.as_slice().is_empty()
    }

    // The items, in order.
    pub fn as_slice(&self) -> &[T]
        ensures { result.now ≡ list_of self.now }
    {
        &self.items[..self.length]
    }

    // The item at a place, counted from 0.
    pub fn get(&self, place: usize) -> Option<T>
        ensures { result ≡ slice_get (list_of self.now) place }
    {
        self.as_slice().get(place).copied()
    }
}
