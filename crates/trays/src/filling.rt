// Filling a tray from its sheet.
ghost use Rattle.std.specs.Prelude.{◌≡◌, true, [], ◌∷◌};
ghost use Rattle.numbers.specs.Field.{rest_of, whole_of};
ghost use Rattle.numbers.specs.Format.{OneSheet};
ghost use Rattle.refusals.specs.Outcomes.{Leaves};
ghost use Rattle.trays.specs.Held.{grid_of};
ghost use Rattle.trays.specs.Sheet.{spell_tray, tray_fields, tray_sheet};
ghost use Rattle.trays.specs.Tray.{Keeps};

use crate::tray::Tray;
use numbers::Fields;
use refusals::Fault;

// The kind byte of a tray's sheet.
pub const KIND: u8 = 2;

impl Tray {
    // The smallest tray: one free cell.
    // No Default beside it: it would be a second name for this, and nothing asks for it.
    pub fn new() -> Tray
        ensures { grid_of result ≡ record { rows = 1; columns = 1; cells = true ∷ [] } }
    {
        Tray {
            rows: 1,
            columns: 1,
            cells: [true; 256],
            free: 1,
        }
    }

    // Makes this the tray that the sheet describes; a sheet that is refused changes nothing.
    // Written for each kind of table: a trait would have to name the format in its clauses, and each kind has its own.
    pub fn fill(&mut self, sheet: &[u8]) -> Result<(), Fault>
        ensures reads { Leaves grid_of (tray_sheet sheet.now) self.old self.new result }
        ensures format { OneSheet Keeps spell_tray tray_sheet }
    {
        self.fill_fields(Fields::of_kind(sheet, KIND)?)
    }

    // The same from the fields behind the kind byte.
    pub fn fill_fields(&mut self, fields: Fields) -> Result<(), Fault>
        ensures { Leaves grid_of (tray_fields (whole_of fields.entry) (rest_of fields.entry)) self.old self.new result }
    {
        *self = Tray::read(fields)?;
        Ok(())
    }
}
