// A table: a base store in memory that is obtained when it opens.
ghost use Rattle.std.specs.Prelude.{◌≤◌, vec_len, vec_capacity};
ghost use Rattle.bases.specs.Bases.{most_cells};

use cells::Cell;

// What the calls promise names the struct, so they stand in a file of their own.
pub mod calls;

// Its cells, and how many it was opened for: memory for all of them is reserved.
#[derive(Drop)]
pub struct Table {
    cells: Vec<Cell>,
    capacity: u32,
    ghost within: { vec_len cells ≤ capacity },
    ghost reserved: { capacity ≤ vec_capacity cells },
    ghost small: { capacity ≤ most_cells },
}
