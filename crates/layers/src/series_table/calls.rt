// The calls of a series table, each told by the list of series that it holds.
ghost use Rattle.std.specs.Prelude.{◌≡◌, ◌<◌, ◌≤◌, [], ◌∷◌, length, replicate, MatchResult, slice_index_or};
ghost use Rattle.refusals.specs.Outcomes.{Leaves};
ghost use Rattle.refusals.specs.declared.Refusal.TheVariants.{OutsideLimit};
ghost use Rattle.layers.specs.Held.{series_of, resized, lengthened};

use crate::series_table::SeriesTable;
use lists::Bounded;
use refusals::Refusal;

// The most series of a table.
const MOST_SERIES: u32 = 16;

// The most entries of one series.
const MOST_ENTRIES: usize = 8;

// The most actions of a feeder: no entry can name another.
// A table knows no feeder: the limit of its entries is its own.
const MOST_ACTIONS: u32 = 32;

impl SeriesTable {
    // One series without actions.
    // No Default beside it: it would be a second name for this, and nothing asks for it.
    pub fn new() -> SeriesTable
        ensures { series_of result ≡ [] ∷ [] }
    {
        SeriesTable::of(1)
    }

    // `count` series without actions.
    fn of(count: u32) -> SeriesTable
        requires { (1 ≤ count) × (count ≤ 16) }
        ensures { series_of result ≡ replicate count [] }
    {
        let mut rows = Bounded::new(Bounded::new(0));
        for _ in 0..count {
            rows.push(Bounded::new(0)).unwrap();
        }
        SeriesTable { rows }
    }

    // How many series the table holds.
    pub fn count(&self) -> u32
        ensures { result ≡ length (series_of self.now) }
    {
        self.rows.len() as u32
    }

    // The actions of one series, in order.
    pub fn series(&self, series: u32) -> Result<&[u8], Refusal>
        ensures { MatchResult result (λ w. (series < length (series_of self.now)) × (w.now ≡ slice_index_or (series_of self.now) series [])) (λ e. (length (series_of self.now) ≤ series) × (e ≡ OutsideLimit)) }
    {
        let row = self
            .rows
            .as_slice()
            .get(series as usize)
            .ok_or(Refusal::OutsideLimit)?;
        Ok(row.as_slice())
    }

    // Makes it `count` series without actions, whatever it held.
    pub fn resize(&mut self, count: u32) -> Result<(), Refusal>
        ensures { Leaves series_of (resized count) self.old self.new result }
    {
        if !(1..=MOST_SERIES).contains(&count) {
            return Err(Refusal::OutsideLimit);
        }
        *self = SeriesTable::of(count);
        Ok(())
    }

    // Puts the action at the end of one series. The row is lent, and all other rows stay as they are.
    pub fn lengthen(&mut self, series: u32, action: u32) -> Result<(), Refusal>
        ensures { Leaves series_of (lengthened (series_of self.old) series action) self.old self.new result }
    {
        if action >= MOST_ACTIONS || self.series(series)?.len() >= MOST_ENTRIES {
            return Err(Refusal::OutsideLimit);
        }
        let row = self.rows.get_mut(series as usize).unwrap();
        row.push(action as u8).unwrap();
        Ok(())
    }
}
