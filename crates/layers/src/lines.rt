// The sixteen lines of a cache.
ghost use Rattle.std.specs.Prelude.{◌≡◌};
ghost use Rattle.layers.specs.Lines.{no_lines, held, with_line};

use cells::Cell;

// The cell of a number, or none in an empty line. A struct in every line, and no Option of one: the form that was asked for.
#[derive(Clone, Copy)]
pub struct Line {
    pub number: u32,
    pub cell: Option<Cell>,
}

const EMPTY: Line = Line {
    number: 0,
    cell: None,
};

// Cell number k has the line numbered k modulo 16.
#[derive(Clone, Copy)]
pub struct Lines {
    pub table: [Line; 16],
}

impl Lines {
    // Lines that are all empty.
    pub fn empty() -> Lines
        ensures { result.table ≡ no_lines }
    {
        Lines { table: [EMPTY; 16] }
    }

    // The cell number k, where its line holds it.
    pub fn find(&self, k: u32) -> Option<Cell>
        ensures { result ≡ held self.now.table k }
    {
        let line = self.table[k as usize % 16];
        if line.number == k { line.cell } else { None }
    }

    // Writes cell number k into its line, and leaves every other line as it is.
    pub fn fill(&mut self, k: u32, cell: Cell)
        ensures { self.new.table ≡ with_line self.old.table k cell }
    {
        self.table[k as usize % 16] = Line {
            number: k,
            cell: Some(cell),
        };
    }
}
