// What layers make of a feeder: a tray of three free cells in a row, under a series, renumbered, and in two piles.
#![tactic(auto)]

ghost use Rattle.std.specs.Prelude.{◌≡◌, true, [], ◌∷◌};
ghost use Rattle.layers.specs.Held.{series_of};
ghost use Rattle.layers.specs.Numbered.{numbering_of, Filled};
ghost use Rattle.trays.specs.Held.{grid_of};

use feeders::{Feeder, same_feeder};
use layers::{RenumberTable, Renumbering, Series, SeriesTable};
use std::io;
use trays::Tray;

// Three free cells in a row.
fn three_cells() -> Tray
    ensures { grid_of result ≡ record { rows = 1; columns = 3; cells = true ∷ true ∷ true ∷ [] } }
{
    let mut tray = Tray::new();
    tray.fill(&[2, 1, 3, b'.', b'.', b'.']).unwrap();
    tray
}

// One series: east, then north.
fn east_north() -> SeriesTable
    ensures { series_of result ≡ (1 ∷ 0 ∷ []) ∷ [] }
{
    let mut table = SeriesTable::new();
    table.lengthen(0, 1).unwrap();
    table.lengthen(0, 0).unwrap();
    table
}

// The three poses the other way round.
fn turned() -> RenumberTable
    ensures { Filled (2 ∷ 1 ∷ 0 ∷ []) (numbering_of result) }
{
    let mut table = RenumberTable::new();
    table.fill(&[2, 1, 0]).unwrap();
    table
}

// Prints where each action leads from each pose.
fn show<F: Feeder>(rt: &impl Print, title: &str, feeder: &F) -> io::Result<()> {
    println!(rt; "{title}")?;
    for pose in 0..feeder.poses() {
        for action in 0..feeder.actions() {
            if let Ok(next) = feeder.follow(pose, action) {
                println!(rt; "  pose {pose}, action {action}: pose {next}")?;
            }
        }
    }
    Ok(())
}

// Prints the tray plain, under each layer and under both, in either order.
fn main(rt: HostRuntime) -> io::Result<()> {
    let (tray, series, numbers) = (three_cells(), east_north(), turned());
    show(&rt, "three cells in a row", &tray)?;
    show(&rt, "a series over the tray", &Series::new(tray, series))?;
    show(&rt, "the tray renumbered", &Renumbering::new(tray, numbers))?;
    let upper = Series::new(Renumbering::new(tray, numbers), series);
    show(&rt, "a series over the tray renumbered", &upper)?;
    let lower = Renumbering::new(Series::new(tray, series), numbers);
    let same = same_feeder(&upper, &lower);
    println!(rt; "the same as the series renumbered: {same}")
}
