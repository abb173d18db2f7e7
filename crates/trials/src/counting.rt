// A layer over any store that counts the gets and the puts that pass through it.
ghost use Rattle.std.specs.Prelude.{◌≡◌};
ghost use Rattle.trials.specs.Stores.{counting_meaning, counting_buffer};
ghost use Rattle.std.proofs.Common.{rules};

use cells::Cell;
use store::{Fault, Store};

// How many gets and puts there were.
#[derive(Clone, Copy)]
pub struct Calls {
    pub gets: u32,
    pub puts: u32,
}

impl Calls {
    // Those that came after the first of them.
    pub(crate) fn since(self, before: Calls) -> Calls {
        Calls {
            gets: self.gets.saturating_sub(before.gets),
            puts: self.puts.saturating_sub(before.puts),
        }
    }
}

// A store that knows what calls it had.
pub trait Counts: Store {
    fn calls(&self) -> Calls;
}

#[derive(Drop)]
pub struct Counting<S: Store> {
    below: S,
    calls: Calls,
}

impl<S: Store> Counting<S> {
    pub(crate) fn open(below: S) -> Counting<S>
        ensures { counting_meaning S.Store result ≡ S.Store.meaning below }
    {
        let calls = Calls { gets: 0, puts: 0 };
        Counting { below, calls }
    }
}

impl<S: Store> Store for Counting<S> {
    ghost meaning = { counting_meaning S.Store };

    ghost buffer = { counting_buffer S.Store };

    ghost bounded = { Prim.search rules };

    fn len(&self) -> u32 {
        self.below.len()
    }

    fn claim(&self, n: u32) -> Result<(), Fault> {
        self.below.claim(n)
    }

    fn put(&mut self, cell: Cell) -> Result<u32, Fault> {
        self.calls.puts = self.calls.puts.saturating_add(1);
        self.below.put(cell)
    }

    fn get(&mut self, k: u32) -> Result<Cell, Fault> {
        self.calls.gets = self.calls.gets.saturating_add(1);
        self.below.get(k)
    }
}

impl<S: Store> Counts for Counting<S> {
    fn calls(&self) -> Calls {
        self.calls
    }
}
