// Sheets of any kind: the kind byte chooses the reader of the fields.
#![tactic(auto)]

ghost use Rattle.numbers.specs.Format.{OneSheet};
ghost use Rattle.refusals.specs.Outcomes.{Gives};
ghost use Rattle.sheets.specs.Described.{Keeps, described, motion_of, spelled};
ghost use Rattle.sheets.specs.Held.{described_by};
ghost use Rattle.sheets.specs.Valid.{sheet_valid};

use feeders::Feeder;
use gates::GateRow;
use numbers::Fields;
use refusals::{Fault, Refusal};
use squeeze::SqueezeTable;
use trays::Tray;

mod feeder;

pub use feeder::SheetFeeder;

// The feeder that a sheet describes, or the sheet's fault.
pub fn read(sheet: &[u8]) -> Result<SheetFeeder, Fault>
    ensures reads { Gives described_by (described sheet.now) result }
    ensures format { OneSheet Keeps spelled described }
{
    read_kind(sheet)
}

// The kind byte chooses the reader of the fields.
fn read_kind(sheet: &[u8]) -> Result<SheetFeeder, Fault>
    ensures { Gives described_by (described sheet.now) result }
{
    let [kind, fields @ ..] = sheet else {
        return Err(Fields::new(sheet, sheet).cut_short());
    };
    let fields = Fields::new(sheet, fields);
    match *kind {
        squeeze::KIND => SqueezeTable::read(fields).map(SheetFeeder::Squeeze),
        trays::KIND => Tray::read(fields).map(SheetFeeder::Tray),
        gates::KIND => GateRow::read(fields).map(SheetFeeder::Gates),
        _ => Err(Fields::new(sheet, sheet).fault(Refusal::WrongKind)),
    }
}

impl Feeder for SheetFeeder {
    ghost motion = { λ f. motion_of (described_by f) };

    ghost valid = { sheet_valid };

    // Three matches: no function hands out a dyn Feeder, by which one match would do.
    fn poses(&self) -> u32 {
        match self {
            SheetFeeder::Squeeze(table) => table.poses(),
            SheetFeeder::Tray(tray) => tray.poses(),
            SheetFeeder::Gates(row) => row.poses(),
        }
    }

    fn actions(&self) -> u32 {
        match self {
            SheetFeeder::Squeeze(table) => table.actions(),
            SheetFeeder::Tray(tray) => tray.actions(),
            SheetFeeder::Gates(row) => row.actions(),
        }
    }

    fn follow(&self, pose: u32, action: u32) -> Result<u32, Refusal> {
        match self {
            SheetFeeder::Squeeze(table) => table.follow(pose, action),
            SheetFeeder::Tray(tray) => tray.follow(pose, action),
            SheetFeeder::Gates(row) => row.follow(pose, action),
        }
    }
}
