// A list of at most so many items, held in place: it never allocates.
#![tactic(auto)]

mod bounded;
mod full;

pub use bounded::Bounded;
pub use full::Full;

#[cfg(test)]
mod tests;
