// A table of series: at most sixteen rows, each of at most eight actions of the feeder below.
ghost use Rattle.std.specs.Prelude.{map};
ghost use Rattle.lists.specs.Held.{list_of};
ghost use Rattle.layers.specs.Series.{Keeps};

use lists::Bounded;

mod calls;

#[derive(Clone, Copy)]
pub struct SeriesTable {
    rows: Bounded<Bounded<u8, 8>, 16>,
    ghost keeps: { Keeps (map list_of (list_of rows)) },
}
