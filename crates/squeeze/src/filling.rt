// Squeeze tables made: the smallest, and those read from a sheet. A refused sheet leaves a table as it was.
ghost use Rattle.std.specs.Prelude.{◌≡◌, [], ◌∷◌};
ghost use Rattle.numbers.specs.Field.{rest_of, whole_of};
ghost use Rattle.numbers.specs.Format.{OneSheet};
ghost use Rattle.refusals.specs.Outcomes.{Gives, Leaves};
ghost use Rattle.squeeze.specs.Held.{squeeze_of};
ghost use Rattle.squeeze.specs.Sheet.{spell_squeeze, squeeze_fields, squeeze_sheet};
ghost use Rattle.squeeze.specs.Squeeze.{Keeps};

use crate::reading::{read_steps, read_turns};
use crate::step::Step;
use crate::table::SqueezeTable;
use lists::Bounded;
use numbers::Fields;
use refusals::Fault;

// The first byte of a squeeze sheet.
pub const KIND: u8 = 1;

// The fewest and the most ticks of a half turn.
const FEWEST_TICKS: u32 = 2;

const MOST_TICKS: u32 = 36_000;

// The most steps, and the most turns: what the lists of a table hold.
// Each sheet names its own limits: that all of them are 32 follows from no rule of formats.
const MOST: u32 = 32;

impl SqueezeTable {
    // The smallest table: one step and one turn, which moves nothing.
    // No Default beside it: it would be a second name for this, and nothing asks for it.
    pub fn new() -> SqueezeTable
        ensures { squeeze_of result ≡ record { ticks = 2; steps = (record { begin = 0; rest = 0 }) ∷ []; turns = 0 ∷ [] } }
    {
        let step = Step { begin: 0, rest: 0 };
        let mut steps = Bounded::new(step);
        steps.push(step).unwrap();
        let mut turns = Bounded::new(0);
        turns.push(0).unwrap();
        SqueezeTable {
            ticks: FEWEST_TICKS,
            steps,
            turns,
        }
    }

    // The table that the fields of a sheet describe.
    pub fn read(mut fields: Fields) -> Result<SqueezeTable, Fault>
        ensures { Gives squeeze_of (squeeze_fields (whole_of fields.entry) (rest_of fields.entry)) result }
    {
        let ticks = fields.limited(FEWEST_TICKS, MOST_TICKS)?;
        let step_count = fields.limited(1, MOST)?;
        let turn_count = fields.limited(1, MOST)?;
        let steps = read_steps(&mut fields, ticks, step_count)?;
        let turns = read_turns(&mut fields, ticks, turn_count)?;
        fields.ended()?;
        Ok(SqueezeTable {
            ticks,
            steps,
            turns,
        })
    }

    // Takes the table that the sheet describes. Each table has one sheet, and all other bytes are refused.
    // Written for each kind of table: a trait would have to name the format in its clauses, and each kind has its own.
    pub fn fill(&mut self, sheet: &[u8]) -> Result<(), Fault>
        ensures reads { Leaves squeeze_of (squeeze_sheet sheet.now) self.old self.new result }
        ensures format { OneSheet Keeps spell_squeeze squeeze_sheet }
    {
        self.fill_fields(Fields::of_kind(sheet, KIND)?)
    }

    // The same for the fields after the kind byte.
    pub fn fill_fields(&mut self, fields: Fields) -> Result<(), Fault>
        ensures { Leaves squeeze_of (squeeze_fields (whole_of fields.entry) (rest_of fields.entry)) self.old self.new result }
    {
        *self = SqueezeTable::read(fields)?;
        Ok(())
    }
}
