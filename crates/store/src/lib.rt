// Stores of cells, known by their meaning alone.
#![tactic(auto)]

ghost use Rattle.std.specs.Prelude.{◌≡◌, ℕ, ◌+◌, ◌≤◌, true, List, length, is_err};
ghost use Rattle.store.specs.Meaning.{Meaning, claimed, put_answer, after_put, got};

pub mod fault;

use cells::Cell;
pub use fault::Fault;

// A list of cells that grows at its end. What is true of a store since it was opened is an invariant of its type, so
// that no call requires anything.
pub trait Store {
    // its cells, and how many more it may and can take
    ghost meaning: { Self → Meaning };

    // the bytes of the buffer that was handed in, none where there is none
    ghost buffer: { Self → List ℕ };

    // The number of cells.
    fn len(&self) -> u32
        ensures { result ≡ length (meaning self.now).cells };

    // Whether n more cells may be put and find room.
    fn claim(&self, n: u32) -> Result<(), Fault>
        ensures { result ≡ claimed (meaning self.now) n };

    // Appends the cell and answers its number.
    fn put(&mut self, cell: Cell) -> Result<u32, Fault>
        ensures answer { result ≡ put_answer (meaning self.old) }
        ensures after { meaning self.new ≡ after_put (meaning self.old) cell }
        ensures untouched { is_err result ≡ true → buffer self.new ≡ buffer self.old };

    // The k-th cell, counted from 1.
    fn get(&mut self, k: u32) -> Result<Cell, Fault>
        ensures answer { result ≡ got (meaning self.old) k }
        ensures same { meaning self.new ≡ meaning self.old }
        ensures untouched { buffer self.new ≡ buffer self.old };

    // cells are numbered by `u32`, from 1 on
    ghost bounded: { (s : Self) → length (meaning s).cells + (meaning s).allowance ≤ 4294967295 };
}
