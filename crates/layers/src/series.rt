// A series layer: each of its actions performs a series of actions on the feeder below.
ghost use Rattle.std.specs.Prelude.{◌≡◌, ◌<◌};
ghost use Rattle.feeders.specs.Motion.{brings};
ghost use Rattle.layers.specs.Held.{series_of};
ghost use Rattle.layers.specs.Series.{present, series_motion, SeriesLaws};
ghost use Rattle.layers.specs.SeriesFacts.{series_valid};

use crate::series_table::SeriesTable;
use feeders::Feeder;
use refusals::Refusal;

#[derive(Drop)]
pub struct Series<F: Feeder> {
    pub below: F,
    pub table: SeriesTable,
}

impl<F: Feeder> Series<F> {
    // The layer over `below` whose action i performs series i of the table.
    pub fn new(below: F, table: SeriesTable) -> Series<F>
        ensures below { result.below ≡ below }
        ensures table { result.table ≡ table }
        ensures laws { SeriesLaws (F.Feeder.motion below) (series_of table) }
    {
        Series { below, table }
    }
}

impl<F: Feeder> Feeder for Series<F> {
    ghost motion = { λ s. series_motion (F.Feeder.motion s.below) (series_of s.table) };

    ghost valid = { λ s. series_valid (F.Feeder.motion s.below) (series_of s.table) (F.Feeder.valid s.below) s.table.keeps };

    fn poses(&self) -> u32 {
        self.below.poses()
    }

    fn actions(&self) -> u32 {
        self.table.count()
    }

    fn follow(&self, pose: u32, action: u32) -> Result<u32, Refusal> {
        // Tested by hand: one question in two lines, which a shared function would only name again.
        if pose >= self.below.poses() {
            return Err(Refusal::NoPose);
        }
        let series = self.table.series(action).map_err(|_| Refusal::NoAction)?;
        Ok(perform(&self.below, pose, series))
    }
}

// Where the entries of the series bring the pose; one that the feeder does not have is passed over.
// A loop and no fold: the pose that is reached has a name of its own.
fn perform<F: Feeder>(feeder: &F, pose: u32, series: &[u8]) -> u32
    requires { pose < (F.Feeder.motion feeder.now).poses }
    ensures { result ≡ brings (F.Feeder.motion feeder.now) pose (present (F.Feeder.motion feeder.now).actions series.now) }
{
    let actions = feeder.actions();
    let mut here = pose;
    for entry in series {
        let action = u32::from(*entry);
        if action < actions {
            here = feeder.follow(here, action).unwrap();
        }
    }
    here
}
