// Layers: feeders over any feeder.
#![tactic(auto)]

mod numbering;
mod renumbering;
mod series;
mod series_table;

pub use numbering::RenumberTable;
pub use renumbering::Renumbering;
pub use series::Series;
pub use series_table::SeriesTable;
