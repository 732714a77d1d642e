// The pair rule: plans that bring a set of poses to one; and the way from one pose to another.
#![tactic(auto)]

mod aim;
mod every;
mod nearest;
mod rule;
mod way;

pub use aim::append_way_to;
pub use every::plan_every;
pub use rule::plan_pairs;
