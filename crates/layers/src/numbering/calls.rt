// The calls of a renumbering table.
ghost use Rattle.std.specs.Prelude.{◌≡◌, ◌<◌, ◌≤◌, MatchResult, cond, nat_le, slice_index};
ghost use Rattle.refusals.specs.declared.Refusal.TheVariants.{OutsideLimit};
ghost use Rattle.layers.specs.Numbered.{numbering_of, Unchanged, Filled};
ghost use Rattle.layers.specs.Once.{Fills};
ghost use Rattle.layers.specs.Renumbering.{above as above_of, below as below_of};

use crate::numbering::RenumberTable;
use crate::numbering::filling::{fills, numbers_of, own_numbers, places_of};
use refusals::Refusal;

impl RenumberTable {
    // The table that renumbers nothing.
    // No Default beside it: it would be a second name for this, and nothing asks for it.
    pub fn new() -> RenumberTable
        ensures { Unchanged (numbering_of result) }
    {
        let own = own_numbers();
        RenumberTable {
            number: own,
            place: own,
            count: 0,
        }
    }

    // How many poses the table renumbers.
    pub fn count(&self) -> u32
        ensures { result ≡ (numbering_of self.now).count }
    {
        self.count
    }

    // The number at a place below 32.
    pub fn number(&self, place: u32) -> Result<u32, Refusal>
        ensures { MatchResult result (λ q. (place < 32) × (q ≡ slice_index (numbering_of self.now).number place)) (λ e. (32 ≤ place) × (e ≡ OutsideLimit)) }
    {
        let number = self
            .number
            .get(place as usize)
            .ok_or(Refusal::OutsideLimit)?;
        Ok(u32::from(*number))
    }

    // Fills the table with the list: up to 32 numbers, each number below their count once. Any other list is refused.
    pub fn fill(&mut self, list: &[u8]) -> Result<(), Refusal>
        ensures { MatchResult result (λ _. Filled list.now (numbering_of self.new)) (λ e. (e ≡ OutsideLimit) × (Fills list.now → ⊥) × (self.new ≡ self.old)) }
    {
        if !fills(list) {
            return Err(Refusal::OutsideLimit);
        }
        *self = RenumberTable {
            number: numbers_of(list),
            place: places_of(list),
            count: list.len() as u32,
        };
        Ok(())
    }

    // The number above of a pose below, in a feeder of `poses` poses.
    pub(crate) fn above(&self, poses: u32, pose: u32) -> u32
        requires { pose < 32 }
        ensures { result ≡ above_of (numbering_of self.now) poses pose }
    {
        self.renamed(&self.number, poses, pose)
    }

    // The pose below of a number above, in a feeder of `poses` poses.
    pub(crate) fn below(&self, poses: u32, pose: u32) -> u32
        requires { pose < 32 }
        ensures { result ≡ below_of (numbering_of self.now) poses pose }
    {
        self.renamed(&self.place, poses, pose)
    }

    // What the array has for the pose; a table that counts more than `poses` poses renumbers nothing.
    fn renamed(&self, names: &[u8; 32], poses: u32, pose: u32) -> u32
        requires { pose < 32 }
        ensures { result ≡ cond (nat_le (numbering_of self.now).count poses) (slice_index names.now pose) pose }
    {
        if poses >= self.count {
            u32::from(names[pose as usize])
        } else {
            pose
        }
    }
}
