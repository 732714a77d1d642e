// A gate row, filled from its sheet.
ghost use Rattle.std.specs.Prelude.{◌≡◌, [], ◌∷◌};
ghost use Rattle.gates.specs.Gates.{Keeps, idle};
ghost use Rattle.gates.specs.Held.{gates_of};
ghost use Rattle.gates.specs.Sheet.{gate_fields, gate_sheet, spell_row};
ghost use Rattle.numbers.specs.Field.{rest_of, whole_of};
ghost use Rattle.numbers.specs.Format.{OneSheet};
ghost use Rattle.refusals.specs.Outcomes.{Gives, Leaves};

use crate::fields::{IDLE, read_gates};
use crate::row::GateRow;
use lists::Bounded;
use numbers::Fields;
use refusals::Fault;

// The byte in front of a gate row's fields.
pub const KIND: u8 = 3;

// The most poses, and the most gates, that a row has.
// Each sheet names its own limits: that all of them are 32 follows from no rule of formats.
const MOST: u32 = 32;

impl GateRow {
    // One pose, and one gate that turns nothing.
    // No Default beside it: it would be a second name for this, and nothing asks for it.
    pub fn new() -> GateRow
        ensures { gates_of result ≡ record { poses = 1; gates = idle ∷ [] } }
    {
        let mut gates = Bounded::new(IDLE);
        gates.push(IDLE).unwrap();
        GateRow { poses: 1, gates }
    }

    // The row that the fields after the kind byte describe.
    pub fn read(fields: Fields) -> Result<GateRow, Fault>
        ensures { Gives gates_of (gate_fields (whole_of fields.entry) (rest_of fields.entry)) result }
    {
        let mut fields = fields;
        let poses = fields.limited(1, MOST)?;
        let count = fields.limited(1, MOST)?;
        let gates = read_gates(&mut fields, poses, count)?;
        fields.ended()?;
        Ok(GateRow { poses, gates })
    }

    // Takes the row that a sheet describes; a refused sheet leaves the row as it was.
    // Written for each kind of table: a trait would have to name the format in its clauses, and each kind has its own.
    pub fn fill(&mut self, sheet: &[u8]) -> Result<(), Fault>
        ensures reads { Leaves gates_of (gate_sheet sheet.now) self.old self.new result }
        ensures format { OneSheet Keeps spell_row gate_sheet }
    {
        self.fill_fields(Fields::of_kind(sheet, KIND)?)
    }

    // The same for the fields after the kind byte.
    pub fn fill_fields(&mut self, fields: Fields) -> Result<(), Fault>
        ensures { Leaves gates_of (gate_fields (whole_of fields.entry) (rest_of fields.entry)) self.old self.new result }
    {
        *self = GateRow::read(fields)?;
        Ok(())
    }
}
