// Opening a ledger over a store, and taking it apart.
ghost use Rattle.std.specs.Prelude.{◌≡◌};
ghost use Rattle.law.specs.Runs.{opened};
ghost use Rattle.ledger.specs.Shown.{shown, Stands};

use crate::{Ledger, Row};
use effects::Effect;
use std::marker::PhantomData;
use store::Store;
use times::Time;

impl<E: Effect, T: Time, S: Store> Ledger<E, T, S> {
    // A ledger over a store, with belief 0 alone. The store may have cells.
    pub fn open(store: S) -> Self
        ensures stands { Stands E.Effect T.Time S.Store result }
        ensures shown { shown E.Effect T.Time S.Store result ≡ opened (S.Store.meaning store) }
        ensures store { result.store ≡ store }
    {
        Ledger {
            store,
            rows: [Row {
                root: 0,
                entered: None,
                count: 0,
            }; 1024],
            latest: 0,
            effects: PhantomData,
        }
    }

    // The store, with all its cells.
    pub fn close(self) -> S
        ensures meaning { S.Store.meaning result ≡ (shown E.Effect T.Time S.Store self).store }
        ensures store { result ≡ self.store }
    {
        let Ledger {
            store,
            rows: _,
            latest: _,
            effects: _,
        } = self;
        store
    }
}
