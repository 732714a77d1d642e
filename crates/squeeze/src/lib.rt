// Squeeze tables: two jaws close on the part, which turns to the rest of the step that its angle lies in.
#![tactic(auto)]

mod filling;
mod motion;
mod reading;
mod step;
mod table;
#[cfg(test)]
mod tests;

pub use filling::KIND;
pub use step::Step;
pub use table::SqueezeTable;
