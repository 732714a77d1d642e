// A renumbering layer: the poses of the feeder below under other numbers.
ghost use Rattle.std.specs.Prelude.{◌≡◌};
ghost use Rattle.feeders.specs.Motion.{Same};
ghost use Rattle.layers.specs.Numbered.{numbering_of};
ghost use Rattle.layers.specs.Renumbering.{above as above_of, renumbered_motion, Renames};
ghost use Rattle.layers.specs.RenumberingFacts.{renumbered_valid};

use crate::numbering::RenumberTable;
use feeders::Feeder;
use refusals::Refusal;

// A table that counts more poses than the feeder below has renumbers nothing.
#[derive(Drop)]
pub struct Renumbering<F: Feeder> {
    pub below: F,
    pub table: RenumberTable,
}

impl<F: Feeder> Renumbering<F> {
    // The layer over `below` whose pose `number p` is pose p below.
    pub fn new(below: F, table: RenumberTable) -> Renumbering<F>
        ensures below { result.below ≡ below }
        ensures table { result.table ≡ table }
        ensures renames { Renames (above_of (numbering_of table) (F.Feeder.motion below).poses) (F.Feeder.motion below) (renumbered_motion (F.Feeder.motion below) (numbering_of table)) }
        ensures empty { (numbering_of table).count ≡ 0 → Same (renumbered_motion (F.Feeder.motion below) (numbering_of table)) (F.Feeder.motion below) }
    {
        Renumbering { below, table }
    }
}

impl<F: Feeder> Feeder for Renumbering<F> {
    ghost motion = { λ s. renumbered_motion (F.Feeder.motion s.below) (numbering_of s.table) };

    ghost valid = { λ s. renumbered_valid (F.Feeder.motion s.below) (numbering_of s.table) (F.Feeder.valid s.below) s.table.keeps };

    fn poses(&self) -> u32 {
        self.below.poses()
    }

    fn actions(&self) -> u32 {
        self.below.actions()
    }

    fn follow(&self, pose: u32, action: u32) -> Result<u32, Refusal> {
        let poses = self.below.poses();
        // Tested by hand: one question in two lines, which a shared function would only name again.
        if pose >= poses {
            return Err(Refusal::NoPose);
        }
        let from = self.table.below(poses, pose);
        let to = self.below.follow(from, action)?;
        Ok(self.table.above(poses, to))
    }
}
