// Grounds: nodes, labels and goals, and the search for the nearest goal.
#![tactic(auto)]

mod distance_table;
mod distances;
mod entries;
mod ground;
mod levels;
mod pair_ground;
mod pose_ground;
mod reach;
mod starts;
mod steps;

pub use distance_table::{DistanceTable, first_label, measure};
pub use distances::Distances;
pub use ground::Ground;
pub use pair_ground::PairGround;
pub use pose_ground::PoseGround;
pub use reach::{Reach, search};
