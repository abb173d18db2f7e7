// A quota: lets no more than a number of cells into the store below.
ghost use Rattle.std.specs.Prelude.{◌≡◌, ◌-◌, true, is_ok, is_err, if◌then◌else◌};
ghost use Rattle.store.specs.Meaning.{put_answer, after_put, put_unless, fault_of, got};
ghost use Rattle.layers.specs.Quotas.{quota_meaning, quota_buffer, limited};
ghost use Rattle.std.proofs.Common.{rules};

use cells::Cell;
use store::{Fault, Store};

// A store, and how many cells more are let into it.
#[derive(Drop)]
pub struct Quota<S: Store> {
    below: S,
    left: u32,
}

impl<S: Store> Quota<S> {
    // A quota of so many cells over a store.
    pub fn open(below: S, number: u32) -> Quota<S>
        ensures meaning { quota_meaning S.Store result ≡ limited (S.Store.meaning below) number }
        ensures buffer { quota_buffer S.Store result ≡ S.Store.buffer below }
        ensures below { result.below ≡ below }
        ensures left { result.left ≡ number }
    {
        Quota {
            below,
            left: number,
        }
    }

    // The store below, without the quota.
    pub fn into_below(self) -> S
        ensures { result ≡ self.below }
    {
        let Quota { below, left: _ } = self;
        below
    }
}

impl<S: Store> Store for Quota<S> {
    ghost meaning = { quota_meaning S.Store };

    ghost buffer = { quota_buffer S.Store };

    ghost bounded = { Prim.search rules };

    fn len(&self) -> u32 {
        self.below.len()
    }

    fn claim(&self, n: u32) -> Result<(), Fault> {
        // Where the quota is too small, a claim of all of it tells whether the allowance below is smaller still.
        match self.below.claim(n.min(self.left)) {
            Err(Fault::Allowance(allowance)) => Err(Fault::Allowance(allowance)),
            _ if n > self.left => Err(Fault::Allowance(self.left)),
            answer => answer,
        }
    }

    fn put(&mut self, cell: Cell) -> Result<u32, Fault>
        ensures answer { result ≡ put_answer (quota_meaning S.Store self.old) }
        ensures after { quota_meaning S.Store self.new ≡ after_put (quota_meaning S.Store self.old) cell }
        ensures untouched { is_err result ≡ true → quota_buffer S.Store self.new ≡ quota_buffer S.Store self.old }
        ensures below { S.Store.meaning self.new.below ≡ put_unless (fault_of (quota_meaning S.Store self.old) 1) (S.Store.meaning self.old.below) cell }
        ensures left { self.new.left ≡ (if is_ok result then self.old.left - 1 else self.old.left) }
    {
        if self.left == 0 {
            return Err(Fault::Allowance(0));
        }
        let number = self.below.put(cell)?;
        self.left -= 1;
        Ok(number)
    }

    fn get(&mut self, k: u32) -> Result<Cell, Fault>
        ensures answer { result ≡ got (quota_meaning S.Store self.old) k }
        ensures same { quota_meaning S.Store self.new ≡ quota_meaning S.Store self.old }
        ensures untouched { quota_buffer S.Store self.new ≡ quota_buffer S.Store self.old }
        ensures below { S.Store.meaning self.new.below ≡ S.Store.meaning self.old.below }
        ensures left { self.new.left ≡ self.old.left }
    {
        self.below.get(k)
    }
}
