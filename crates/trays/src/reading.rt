// Reading a tray from the fields of its sheet. Nothing is written before all is read.
ghost use Rattle.std.specs.Prelude.{◌≡◌, ◌*◌, ◌≤◌, []};
ghost use Rattle.numbers.specs.Field.{rest_of, whole_of};
ghost use Rattle.refusals.specs.Outcomes.{Gives};
ghost use Rattle.trays.specs.Held.{grid_of};
ghost use Rattle.trays.specs.Reads.{TakesCell};
ghost use Rattle.trays.specs.Sheet.{cells_left, tray_fields};

use crate::tray::{LONGEST_SIDE, Tray};
use numbers::Fields;
use refusals::{Fault, Refusal};

// The most free cells: each is a pose.
// Each sheet names its own limits: that all of them are 32 follows from no rule of formats.
const MOST_FREE: u32 = 32;

// The byte of a free cell, a dot.
const FREE: u8 = b'.';

// The byte of a wall, a hash.
const WALL: u8 = b'#';

impl Tray {
    // The tray that a sheet's fields describe.
    pub fn read(mut fields: Fields) -> Result<Tray, Fault>
        ensures { Gives grid_of (tray_fields (whole_of fields.entry) (rest_of fields.entry)) result }
    {
        let rows = fields.limited(1, LONGEST_SIDE)?;
        let columns = fields.limited(1, LONGEST_SIDE)?;
        read_cells(fields, rows, columns)
    }
}

// The tray of so many rows and columns whose cells are the fields that are left.
fn read_cells(mut fields: Fields, rows: u32, columns: u32) -> Result<Tray, Fault>
    requires { (1 ≤ rows) × ((rows ≤ 16) × ((1 ≤ columns) × (columns ≤ 16))) }
    ensures { Gives grid_of (cells_left (whole_of fields.entry) rows columns (rows * columns) [] (rest_of fields.entry)) result }
{
    let mut cells = [false; 256];
    let mut free = 0;
    for cell in &mut cells[..(rows * columns) as usize] {
        *cell = read_cell(&mut fields, free)?;
        free += u32::from(*cell);
    }
    // At least one: that there are not too many is tested at each cell.
    if free < 1 {
        return Err(fields.fault(Refusal::OutsideLimit));
    }
    fields.ended()?;
    Ok(Tray {
        rows,
        columns,
        cells,
        free,
    })
}

// Whether the next cell is free, where `free` cells are free before it.
fn read_cell(fields: &mut Fields, free: u32) -> Result<bool, Fault>
    ensures { TakesCell free fields.old fields.new result }
{
    let here = *fields;
    match fields.byte()? {
        FREE if free < MOST_FREE => Ok(true),
        WALL => Ok(false),
        _ => Err(here.fault(Refusal::OutsideLimit)),
    }
}
