// Lists of numbers: which of them fill a table, and the two arrays that such a list makes.
ghost use Rattle.std.specs.Prelude.{◌≡◌, ℕ, ◌<◌, ◌≤◌, T, ◌↔◌, length, slice_index};
ghost use Rattle.layers.specs.Once.{times as times_of, OnceEach, Fills};

use std::array;

// The places of a table: as many as a feeder may have poses.
// A table knows no feeder: the limit of its places is its own.
const PLACES: usize = 32;

// How many times the number stands in the list.
// A sum of tests: counting what a filter lets through would branch at each entry.
fn times(list: &[u8], number: usize) -> usize
    ensures { result ≡ times_of number list.now }
{
    list.iter()
        .map(|entry| usize::from(usize::from(*entry) == number))
        .sum()
}

// Whether each number below the list's length stands in it exactly once.
fn once_each(list: &[u8]) -> bool
    ensures { T result ↔ OnceEach list.now }
{
    (0..list.len()).all(|number| times(list, number) == 1)
}

// Whether the list fills a table: up to 32 numbers, each number below their count once.
pub(crate) fn fills(list: &[u8]) -> bool
    ensures { T result ↔ Fills list.now }
{
    list.len() <= PLACES && once_each(list)
}

// Each place with its own number.
pub(crate) fn own_numbers() -> [u8; 32]
    ensures { (p : ℕ) → p < 32 → slice_index result p ≡ p }
{
    array::from_fn(|place| place as u8)
}

// The list, followed by own numbers.
pub(crate) fn numbers_of(list: &[u8]) -> [u8; 32]
    requires { length list.now ≤ 32 }
    ensures front { (p : ℕ) → p < length list.now → slice_index result p ≡ slice_index list.now p }
    ensures own { (p : ℕ) → length list.now ≤ p → p < 32 → slice_index result p ≡ p }
{
    let mut number = own_numbers();
    number[..list.len()].copy_from_slice(list);
    number
}

// The place of each number of the list, followed by own numbers.
pub(crate) fn places_of(list: &[u8]) -> [u8; 32]
    requires { Fills list.now }
    ensures front { (p : ℕ) → p < length list.now → slice_index result (slice_index list.now p) ≡ p }
    ensures own { (q : ℕ) → length list.now ≤ q → q < 32 → slice_index result q ≡ q }
{
    let mut place = own_numbers();
    for (at, number) in list.iter().enumerate() {
        place[usize::from(*number)] = at as u8;
    }
    place
}
