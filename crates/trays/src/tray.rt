// A tray as it is held: its cells in front of a fixed array, and how many of them are free.
ghost use Rattle.std.specs.Prelude.{◌≡◌, ◌*◌, ◌≤◌, length, take};
ghost use Rattle.trays.specs.Tray.{frees};

// The most rows, and the most columns; no slide is longer.
pub(crate) const LONGEST_SIDE: u32 = 16;

// Rows and columns are 1 to 16. The cells stand row by row, true for a free one; those behind the last row mean nothing.
// An array with the sizes beside it, and no list: rows times columns says how many cells count.
#[derive(Clone, Copy)]
pub struct Tray {
    pub(crate) rows: u32,
    pub(crate) columns: u32,
    pub(crate) cells: [bool; 256],
    pub(crate) free: u32,
    ghost some_row: { 1 ≤ rows },
    ghost few_rows: { rows ≤ 16 },
    ghost some_column: { 1 ≤ columns },
    ghost few_columns: { columns ≤ 16 },
    ghost long: { length cells ≡ 256 },
    ghost counted: { free ≡ frees (take (rows * columns) cells) },
    ghost some_free: { 1 ≤ free },
    ghost few_free: { free ≤ 32 },
}
