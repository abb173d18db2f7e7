// A cache: has some cells of the store below at hand.
ghost use Rattle.std.specs.Prelude.{◌≡◌, true, is_some, is_err};
ghost use Rattle.store.specs.Meaning.{put_answer, after_put, got};
ghost use Rattle.layers.specs.Lines.{Faithful, no_lines, held};
ghost use Rattle.std.proofs.Common.{rules};

use crate::lines::Lines;
use cells::Cell;
use store::{Fault, Store};

// A store, and the lines that hold some of its cells: each line has its cell as the store below has it.
#[derive(Drop)]
pub struct Cache<S: Store> {
    below: S,
    lines: Lines,
    ghost faithful: { Faithful (S.Store.meaning below).cells lines.table },
}

impl<S: Store> Cache<S> {
    ghost use Rattle.layers.specs.Caches.{cache_meaning, cache_buffer};

    // A cache over a store, with every line empty.
    pub fn open(below: S) -> Cache<S>
        ensures meaning { cache_meaning S.Store result ≡ S.Store.meaning below }
        ensures buffer { cache_buffer S.Store result ≡ S.Store.buffer below }
        ensures below { result.below ≡ below }
        ensures lines { result.lines.table ≡ no_lines }
    {
        Cache {
            below,
            lines: Lines::empty(),
        }
    }

    // The store below, without the lines.
    pub fn into_below(self) -> S
        ensures { result ≡ self.below }
    {
        let Cache { below, lines: _ } = self;
        below
    }
}

impl<S: Store> Store for Cache<S> {
    ghost use Rattle.layers.specs.Caches.{cache_meaning, cache_buffer, lines_after_get};

    ghost meaning = { cache_meaning S.Store };

    ghost buffer = { cache_buffer S.Store };

    ghost bounded = { Prim.search rules };

    fn len(&self) -> u32 {
        self.below.len()
    }

    fn claim(&self, n: u32) -> Result<(), Fault> {
        self.below.claim(n)
    }

    fn put(&mut self, cell: Cell) -> Result<u32, Fault>
        ensures answer { result ≡ put_answer (cache_meaning S.Store self.old) }
        ensures after { cache_meaning S.Store self.new ≡ after_put (cache_meaning S.Store self.old) cell }
        ensures untouched { is_err result ≡ true → cache_buffer S.Store self.new ≡ cache_buffer S.Store self.old }
        ensures lines { self.new.lines ≡ self.old.lines }
    {
        self.below.put(cell)
    }

    fn get(&mut self, k: u32) -> Result<Cell, Fault>
        ensures answer { result ≡ got (cache_meaning S.Store self.old) k }
        ensures same { cache_meaning S.Store self.new ≡ cache_meaning S.Store self.old }
        ensures untouched { cache_buffer S.Store self.new ≡ cache_buffer S.Store self.old }
        ensures lines { self.new.lines.table ≡ lines_after_get S.Store self.old k }
        ensures hit { is_some (held self.old.lines.table k) ≡ true → self.new.below ≡ self.old.below }
    {
        if let Some(cell) = self.lines.find(k) {
            return Ok(cell);
        }
        let cell = self.below.get(k)?;
        self.lines.fill(k, cell);
        Ok(cell)
    }
}
