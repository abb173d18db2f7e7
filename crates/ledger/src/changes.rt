// What both changes are made of. That a ledger is not full stays a premise of each part: a guard that knows it would borrow
// the ledger and hand its calls on, one by one, and is no plainer.
ghost use Rattle.std.specs.Prelude.{◌≡◌, ℕ, ◌+◌, ◌<◌, ◌≤◌, true, [], ◌∷◌, ◌++◌, length, take, IfErr, Ok, Err, OnOk};
ghost use Rattle.store.specs.Meaning.{claimed};
ghost use Rattle.reference.specs.Beliefs.{kinds, count};
ghost use Rattle.calls.specs.declared.call.Call.TheVariants.{Enter, Withdraw};
ghost use Rattle.calls.specs.declared.refusal.Refusal.TheVariants.{Full, Store};
ghost use Rattle.calls.specs.Verdict.{has, latest_belief};
ghost use Rattle.law.specs.Runs.{Step};
ghost use Rattle.tree.specs.Reading.{read_from};
ghost use Rattle.ledger.specs.Shown.{shown, Stands};
ghost use Rattle.ledger.specs.Changing.{Newest, Next};

use crate::rows::{row_at, set_row};
use crate::{Ledger, Row};
use effects::Effect;
use store::{Fault, Store};
use times::Time;

impl<E: Effect, T: Time, S: Store> Ledger<E, T, S> {
    // The number of the latest belief. Where it is 1,023, every change is refused.
    pub(crate) fn newest(&self) -> u32
        ensures stands { Stands E.Effect T.Time S.Store self.now }
        ensures number { result ≡ self.now.latest }
        ensures entry { (time : _) (effect : _) → 1023 ≤ result → Step (kinds E.Effect T.Time) (Enter time effect) (Err Full) (shown E.Effect T.Time S.Store self.now) (shown E.Effect T.Time S.Store self.now) }
        ensures withdrawal { (operation : ℕ) → 1023 ≤ result → Step (kinds E.Effect T.Time) (Withdraw operation) (Err Full) (shown E.Effect T.Time S.Store self.now) (shown E.Effect T.Time S.Store self.now) }
    {
        self.latest
    }

    // The row of the latest belief.
    pub(crate) fn newest_row(&self) -> Row<T>
        ensures { Newest E.Effect T.Time (shown E.Effect T.Time S.Store self.now) result }
    {
        row_at(&self.rows, self.latest)
    }

    // How many cells the store has.
    pub(crate) fn cells(&self) -> u32
        ensures { result ≡ length (shown E.Effect T.Time S.Store self.now).store.cells }
    {
        self.store.len()
    }

    // Claims the cells of a change that only the store can refuse.
    pub(crate) fn claim(&self, cells: u32) -> Result<(), Fault>
        requires { self.now.latest < 1023 }
        ensures stands { Stands E.Effect T.Time S.Store self.now }
        ensures granted { OnOk result (claimed (S.Store.meaning self.now.store) cells ≡ Ok tt) }
        ensures entry { IfErr result (λ fault. (time : _) (effect : _) → cells ≡ 42 → Step (kinds E.Effect T.Time) (Enter time effect) (Err (Store fault)) (shown E.Effect T.Time S.Store self.now) (shown E.Effect T.Time S.Store self.now)) }
        ensures withdrawal { IfErr result (λ fault. (operation : ℕ) → has operation (latest_belief (shown E.Effect T.Time S.Store self.now).beliefs) ≡ true → cells ≡ 42 → Step (kinds E.Effect T.Time) (Withdraw operation) (Err (Store fault)) (shown E.Effect T.Time S.Store self.now) (shown E.Effect T.Time S.Store self.now)) }
    {
        self.store.claim(cells)
    }

    // Makes the next belief, of this row, and answers its number.
    pub(crate) fn believe(&mut self, row: Row<T>) -> u32
        requires room { self.old.latest < 1023 }
        requires next { Next E.Effect T.Time S.Store self.old row.root row.entered }
        requires counted { row.count ≡ count (read_from E.Effect T.Time (S.Store.meaning self.old.store).cells row.root) }
        ensures stands { Stands E.Effect T.Time S.Store self.new }
        ensures number { result ≡ self.old.latest + 1 }
        ensures beliefs { (shown E.Effect T.Time S.Store self.new).beliefs ≡ (shown E.Effect T.Time S.Store self.old).beliefs ++ (read_from E.Effect T.Time (S.Store.meaning self.old.store).cells row.root ∷ []) }
        ensures earlier { take (self.old.latest + 1) self.new.rows ≡ take (self.old.latest + 1) self.old.rows }
        ensures store { self.new.store ≡ self.old.store }
    {
        self.latest += 1;
        set_row(&mut self.rows, self.latest, row);
        self.latest
    }
}
