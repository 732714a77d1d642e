// A list as it is held: an array with room for `N` items, and how many of them are in use.
ghost use Rattle.std.specs.Prelude.{◌≡◌, ◌≤◌, ⊤};

mod change;
mod look;

use std::alloc::AllocError;

// The items from `length` on are not in use, whatever they are.
pub struct Bounded<T, const N: usize> {
    items: [T; N],
    length: usize,
    ghost fits: { length ≤ N },
}

// By hand: no derive makes a generic type with a ghost field `Clone`.
impl<T: Copy, const N: usize> Clone for Bounded<T, N> {
    ghost is_clone = { λ before after. after ≡ before };

    ghost is_infallible = { λ _. ⊤ };

    fn clone(&self) -> Result<Bounded<T, N>, AllocError> {
        Ok(*self)
    }
}

impl<T: Copy, const N: usize> Copy for Bounded<T, N> {}
