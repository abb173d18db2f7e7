// The three questions.
ghost use Rattle.std.specs.Prelude.{◌≡◌, Ok, MatchResult};
ghost use Rattle.reference.specs.Beliefs.{kinds, state, latest};
ghost use Rattle.calls.specs.Verdict.{state_of, latest_of, count_of};
ghost use Rattle.ledger.specs.Shown.{shown, Stands};
ghost use Rattle.ledger.specs.Asking.{RowOf, NoRow};

use crate::rows::row_at;
use crate::{Ledger, Row};
use calls::Refusal;
use effects::Effect;
use questions::{latest_at, state_at};
use store::Store;
use times::Time;

impl<E: Effect, T: Time, S: Store> Ledger<E, T, S> {
    // The row of a belief, if there is that belief.
    fn row_of(&self, belief: u32) -> Result<Row<T>, Refusal>
        ensures stands { Stands E.Effect T.Time S.Store self.now }
        ensures row { MatchResult result (RowOf E.Effect T.Time (shown E.Effect T.Time S.Store self.now) belief) (NoRow E.Effect T.Time (shown E.Effect T.Time S.Store self.now) belief) }
    {
        if self.latest < belief {
            return Err(Refusal::NoBelief(belief));
        }
        Ok(row_at(&self.rows, belief))
    }

    // The state at a time, as believed at a belief.
    pub fn state(&mut self, belief: u32, time: T) -> Result<E::State, Refusal>
        ensures stands { Stands E.Effect T.Time S.Store self.new }
        ensures answer { result ≡ state_of (kinds E.Effect T.Time) (shown E.Effect T.Time S.Store self.old).beliefs belief time }
        ensures same { shown E.Effect T.Time S.Store self.new ≡ shown E.Effect T.Time S.Store self.old }
        ensures rows { self.new.rows ≡ self.old.rows }
        ensures buffer { S.Store.buffer self.new.store ≡ S.Store.buffer self.old.store }
    {
        let row = self.row_of(belief)?;
        Ok(state_at::<E, T, S>(&mut self.store, row.root, time)?)
    }

    // Number and time of the last operation not after a time, as believed at a belief, or none.
    pub fn latest(&mut self, belief: u32, time: T) -> Result<Option<(u32, T)>, Refusal>
        ensures stands { Stands E.Effect T.Time S.Store self.new }
        ensures answer { result ≡ latest_of (kinds E.Effect T.Time) (shown E.Effect T.Time S.Store self.old).beliefs belief time }
        ensures same { shown E.Effect T.Time S.Store self.new ≡ shown E.Effect T.Time S.Store self.old }
        ensures rows { self.new.rows ≡ self.old.rows }
        ensures buffer { S.Store.buffer self.new.store ≡ S.Store.buffer self.old.store }
    {
        let row = self.row_of(belief)?;
        Ok(latest_at::<E, T, S>(&mut self.store, row.root, time)?)
    }

    // How many operations a belief has.
    pub fn count(&self, belief: u32) -> Result<u32, Refusal>
        ensures stands { Stands E.Effect T.Time S.Store self.now }
        ensures answer { result ≡ count_of (shown E.Effect T.Time S.Store self.now).beliefs belief }
    {
        let row = self.row_of(belief)?;
        Ok(row.count)
    }
}
