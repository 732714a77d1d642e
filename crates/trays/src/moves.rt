// Tilting a tray: where a pose goes.
ghost use Rattle.std.specs.Prelude.{◌≡◌, ℕ, ◌/◌, ◌%◌, ◌≤◌, true, MatchOption, MatchResult};
ghost use Rattle.feeders.specs.Motion.{follows};
ghost use Rattle.refusals.specs.declared.Refusal.TheVariants.{NoPose};
ghost use Rattle.trays.specs.Cell.{HasPose, IsFreeAhead, IsInside, SlidesTo, index_of};
ghost use Rattle.trays.specs.Directions.{tilt_of};
ghost use Rattle.trays.specs.Held.{grid_of};
ghost use Rattle.trays.specs.Tray.{free, pose_at, tray_motion, Tilts};

use crate::cell::Cell;
use crate::direction::Direction;
use crate::tray::{LONGEST_SIDE, Tray};
use refusals::Refusal;

impl Tray {
    // Which pose follows `pose` when the tray is tilted that way; refuses an absent pose.
    pub fn tilt(&self, pose: u32, direction: Direction) -> Result<u32, Refusal>
        ensures slides { MatchResult result (λ q. Tilts (grid_of self.now) (tilt_of direction) pose q) (λ e. e ≡ NoPose) }
        ensures moves { result ≡ follows (tray_motion (grid_of self.now)) pose (tilt_of direction) }
        ensures only { (p q q₁ : ℕ) → Tilts (grid_of self.now) (tilt_of direction) p q → Tilts (grid_of self.now) (tilt_of direction) p q₁ → q ≡ q₁ }
    {
        let start = self.cell_of(pose).ok_or(Refusal::NoPose)?;
        Ok(self.pose_at(self.slide(start, direction)))
    }

    // The cell of a pose: the free cell that `pose` free cells precede; none if the tray has no such pose.
    fn cell_of(&self, pose: u32) -> Option<Cell>
        ensures { MatchOption result (self.now.free ≤ pose) (λ cell. HasPose (grid_of self.now) cell pose) }
    {
        // Tested first, so that no cell is looked at for an absent pose.
        if pose >= self.free {
            return None;
        }
        let cells = &self.cells[..(self.rows * self.columns) as usize];
        // No `filter(..).nth(pose)`: it took eight instructions a cell, and this takes five.
        let mut left = pose;
        for (index, free) in cells.iter().enumerate() {
            if *free {
                if left == 0 {
                    return Some(self.cell_at(index as u32));
                }
                left -= 1;
            }
        }
        None
    }

    // The pose at a cell: how many free cells precede it.
    fn pose_at(&self, cell: Cell) -> u32
        requires { IsInside (grid_of self.now) cell }
        ensures { result ≡ pose_at (grid_of self.now).cells (index_of (grid_of self.now) cell) }
    {
        let before = &self.cells[..self.index_of(cell)];
        // Added up and not `filter(..).count()`, whose branch kept it from taking eight cells at a time.
        before.iter().map(|free| u32::from(*free)).sum()
    }

    // The cell where a part that slides from there stops: before a wall or the rim.
    fn slide(&self, start: Cell, direction: Direction) -> Cell
        requires { free (grid_of self.now) start.row start.column ≡ true }
        ensures { SlidesTo (grid_of self.now) (tilt_of direction) start result }
    {
        // Half open: over `1..=LONGEST_SIDE` each cell took about twice the instructions.
        (0..LONGEST_SIDE)
            .map_while(|far| self.free_ahead(start, direction, far + 1))
            .last()
            .unwrap_or(start)
    }

    // The cell that is `far` cells on, if the tray has it and it is free.
    fn free_ahead(&self, start: Cell, direction: Direction, far: u32) -> Option<Cell>
        ensures { IsFreeAhead (grid_of self.now) (tilt_of direction) start far result }
    {
        start
            .ahead(direction, far)
            .filter(|cell| self.is_free(*cell))
    }

    // Whether the tray has that cell, and it is free.
    fn is_free(&self, cell: Cell) -> bool
        ensures { result ≡ free (grid_of self.now) cell.row cell.column }
    {
        cell.row < self.rows && cell.column < self.columns && self.cells[self.index_of(cell)]
    }

    // The cell that stands at an index of the array.
    fn cell_at(&self, index: u32) -> Cell
        ensures { result ≡ record { row = index / self.now.columns; column = index % self.now.columns } }
    {
        Cell {
            row: index / self.columns,
            column: index % self.columns,
        }
    }

    // Where a cell of the tray stands in the array.
    fn index_of(&self, cell: Cell) -> usize
        requires { IsInside (grid_of self.now) cell }
        ensures { result ≡ index_of (grid_of self.now) cell }
    {
        (cell.row * self.columns + cell.column) as usize
    }
}
