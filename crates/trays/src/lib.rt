// Tilting trays: the part slides to the last free cell before a wall or the rim.
#![tactic(auto)]

mod cell;
mod direction;
mod feeding;
mod filling;
mod moves;
mod reading;
mod tray;

pub use direction::Direction;
pub use filling::KIND;
pub use tray::Tray;

#[cfg(test)]
mod tests;
