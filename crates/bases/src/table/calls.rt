// The calls of a table.
ghost use Rattle.std.specs.Prelude.{◌≡◌, min, [], IfOk};
ghost use Rattle.bases.specs.Bases.{base, most_cells};
ghost use Rattle.bases.specs.Tables.{table_meaning, table_buffer};
ghost use Rattle.std.proofs.Common.{rules, arith};

use super::Table;
use crate::claims;
use crate::claims::MOST_CELLS;
use cells::Cell;
use std::alloc::{AllocError, Global};
use store::{Fault, Store};

impl Table {
    // An empty table for so many cells, at most `MOST_CELLS`.
    pub fn open(heap: Global, capacity: u32) -> Result<Table, AllocError>
        ensures meaning { IfOk result (λ t. table_meaning t ≡ base [] (min capacity most_cells)) }
        ensures buffer { IfOk result (λ t. table_buffer t ≡ []) }
    {
        let capacity = capacity.min(MOST_CELLS);
        let cells = Vec::with_capacity(heap, capacity as usize)?;
        Ok(Table { cells, capacity })
    }
}

impl Store for Table {
    ghost meaning = { table_meaning };

    ghost buffer = { table_buffer };

    ghost bounded = { first_of (Prim.search rules, Prim.grind (arith, Self.row.coded.inj)) };

    fn len(&self) -> u32 {
        self.cells.len() as u32
    }

    fn claim(&self, n: u32) -> Result<(), Fault> {
        claims::claim(self.len(), self.capacity, n)
    }

    fn put(&mut self, cell: Cell) -> Result<u32, Fault> {
        self.claim(1)?;
        let number = self.len() + 1;
        self.cells.push_reserved(cell);
        Ok(number)
    }

    fn get(&mut self, k: u32) -> Result<Cell, Fault> {
        if k == 0 || k > self.len() {
            return Err(Fault::NoCell(k));
        }
        Ok(self.cells[k as usize - 1])
    }
}
