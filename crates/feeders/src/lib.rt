// The meaning of a feeder, and what can be asked of any feeder.
#![tactic(auto)]

mod bits;
mod carry;
mod feeder;
mod same;

pub use bits::{all_below, every, has, is_within};
pub use carry::image;
pub use feeder::Feeder;
pub use same::{same_feeder, same_list};
