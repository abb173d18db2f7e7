// Withdrawing an operation.
ghost use Rattle.std.specs.Prelude.{◌≡◌, ◌+◌, ◌<◌, true, take, IfSome, is_err, None, Ok, Err, MatchOption, MatchResult};
ghost use Rattle.store.specs.Meaning.{claimed};
ghost use Rattle.reference.specs.Beliefs.{kinds, count};
ghost use Rattle.calls.specs.declared.call.Call.TheVariants.{Withdraw};
ghost use Rattle.calls.specs.declared.answer.Answer.TheVariants.{Changed};
ghost use Rattle.calls.specs.declared.refusal.Refusal.TheVariants.{NoOperation};
ghost use Rattle.calls.specs.Verdict.{told, has, latest_belief, claim_of};
ghost use Rattle.law.specs.Runs.{Step};
ghost use Rattle.order.specs.Order.{Timed};
ghost use Rattle.questions.specs.Standing.{Standing};
ghost use Rattle.tree.specs.Reading.{read_from};
ghost use Rattle.ledger.specs.Shown.{shown, Stands};
ghost use Rattle.ledger.specs.Changing.{Ready, Put};

use crate::rows::row_at;
use crate::{Ledger, Row};
use calls::Refusal;
use calls::call::{CELLS_TO_WITHDRAW, LAST_BELIEF};
use effects::Effect;
use questions::find;
use removal::remove;
use store::Store;
use times::Time;

impl<E: Effect, T: Time, S: Store> Ledger<E, T, S> {
    // Puts the cells of a withdrawal, which is ready for them, from the latest belief, whose row is given, and answers the root of the next.
    fn uproot(&mut self, row: Row<T>, operation: u32, time: T) -> Result<u32, Refusal>
        requires ready { Ready E.Effect T.Time S.Store self.old (Withdraw operation) row }
        requires there { has operation (latest_belief (shown E.Effect T.Time S.Store self.old).beliefs) ≡ true }
        requires timed { Timed operation time (latest_belief (shown E.Effect T.Time S.Store self.old).beliefs) }
        ensures stands { Stands E.Effect T.Time S.Store self.new }
        ensures latest { self.new.latest ≡ self.old.latest }
        ensures rows { self.new.rows ≡ self.old.rows }
        ensures put { MatchResult result (λ new. Put E.Effect T.Time S.Store (shown E.Effect T.Time S.Store self.old) (Withdraw operation) self.new new None) (λ _. ⊥) }
        ensures counted { MatchResult result (λ new. count (read_from E.Effect T.Time (S.Store.meaning self.new.store).cells new) + 1 ≡ count (latest_belief (shown E.Effect T.Time S.Store self.old).beliefs)) (λ _. ⊥) }
    {
        let removed = remove::<E, T, S>(&mut self.store, row.root, operation, time)?;
        let Some(new) = removed else {
            return Err(Refusal::NoOperation(operation));
        };
        Ok(new)
    }

    // The time of an operation of the latest belief, if it is there.
    fn sought(&mut self, operation: u32) -> Result<Option<T>, Refusal>
        requires { self.old.latest < 1023 }
        ensures stands { Stands E.Effect T.Time S.Store self.new }
        ensures rows { self.new.rows ≡ self.old.rows }
        ensures latest { self.new.latest ≡ self.old.latest }
        ensures buffer { S.Store.buffer self.new.store ≡ S.Store.buffer self.old.store }
        ensures onward { (a : _) (w : _) → Step (kinds E.Effect T.Time) (Withdraw operation) a (shown E.Effect T.Time S.Store self.new) w → Step (kinds E.Effect T.Time) (Withdraw operation) a (shown E.Effect T.Time S.Store self.old) w }
        ensures there { MatchResult result (λ found. MatchOption found (Step (kinds E.Effect T.Time) (Withdraw operation) (Err (NoOperation operation)) (shown E.Effect T.Time S.Store self.old) (shown E.Effect T.Time S.Store self.new)) (λ _. has operation (latest_belief (shown E.Effect T.Time S.Store self.new).beliefs) ≡ true)) (λ _. ⊥) }
        ensures timed { MatchResult result (λ found. IfSome found (λ time. Timed operation time (latest_belief (shown E.Effect T.Time S.Store self.new).beliefs))) (λ _. ⊥) }
    {
        if self.latest < operation {
            return Ok(None);
        }
        let Some(time) = row_at(&self.rows, operation).entered else {
            return Ok(None);
        };
        let root = row_at(&self.rows, self.latest).root;
        let there = find::<E, T, S>(&mut self.store, root, operation, time)?;
        Ok(there.then_some(time))
    }

    // Withdraws an operation of the latest belief, whose time is given, unless the store refuses the claim.
    fn strike(&mut self, operation: u32, time: T) -> Result<(u32, u32), Refusal>
        requires room { self.old.latest < 1023 }
        requires there { has operation (latest_belief (shown E.Effect T.Time S.Store self.old).beliefs) ≡ true }
        requires timed { Timed operation time (latest_belief (shown E.Effect T.Time S.Store self.old).beliefs) }
        ensures stands { Stands E.Effect T.Time S.Store self.new }
        ensures step { Step (kinds E.Effect T.Time) (Withdraw operation) (told Changed result) (shown E.Effect T.Time S.Store self.old) (shown E.Effect T.Time S.Store self.new) }
        ensures earlier { take (self.old.latest + 1) self.new.rows ≡ take (self.old.latest + 1) self.old.rows }
        ensures refused { is_err result ≡ true → self.new ≡ self.old }
    {
        self.claim(CELLS_TO_WITHDRAW)?;
        let before = self.cells();
        let row = self.newest_row();
        let root = self.uproot(row, operation, time)?;
        let cells = self.cells() - before;
        let belief = self.believe(Row {
            root,
            entered: None,
            count: row.count - 1,
        });
        Ok((belief, cells))
    }

    // Withdraws an operation of the latest belief.
    pub fn withdraw(&mut self, operation: u32) -> Result<(u32, u32), Refusal>
        ensures stands { Stands E.Effect T.Time S.Store self.new }
        ensures step { Step (kinds E.Effect T.Time) (Withdraw operation) (told Changed result) (shown E.Effect T.Time S.Store self.old) (shown E.Effect T.Time S.Store self.new) }
        ensures earlier { take (self.old.latest + 1) self.new.rows ≡ take (self.old.latest + 1) self.old.rows }
        ensures rows { is_err result ≡ true → self.new.rows ≡ self.old.rows }
        ensures buffer { is_err result ≡ true → S.Store.buffer self.new.store ≡ S.Store.buffer self.old.store }
    {
        if self.newest() >= LAST_BELIEF {
            return Err(Refusal::Full);
        }
        let Some(time) = self.sought(operation)? else {
            return Err(Refusal::NoOperation(operation));
        };
        self.strike(operation, time)
    }
}
