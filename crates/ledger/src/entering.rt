// Entering an operation.
ghost use Rattle.std.specs.Prelude.{◌≡◌, ◌+◌, ◌<◌, true, take, is_err, Some, Ok, MatchResult};
ghost use Rattle.store.specs.Meaning.{claimed};
ghost use Rattle.reference.specs.Beliefs.{kinds, count};
ghost use Rattle.calls.specs.declared.call.Call.TheVariants.{Enter};
ghost use Rattle.calls.specs.declared.answer.Answer.TheVariants.{Changed};
ghost use Rattle.calls.specs.Verdict.{told, latest_belief, claim_of};
ghost use Rattle.law.specs.Runs.{Step};
ghost use Rattle.questions.specs.Standing.{Standing};
ghost use Rattle.tree.specs.Reading.{read_from};
ghost use Rattle.ledger.specs.Shown.{shown, Stands};
ghost use Rattle.ledger.specs.Changing.{Ready, Put};

use crate::{Ledger, Row};
use calls::Refusal;
use calls::call::{CELLS_TO_ENTER, LAST_BELIEF};
use effects::Effect;
use insertion::insert;
use reference::Operation;
use store::Store;
use times::Time;

impl<E: Effect, T: Time, S: Store> Ledger<E, T, S> {
    // Puts the cells of an entry, which is ready for them, into the latest belief, whose row is given, and answers the root of the next.
    fn plant(&mut self, row: Row<T>, time: T, effect: E) -> Result<u32, Refusal>
        requires { Ready E.Effect T.Time S.Store self.old (Enter time effect) row }
        ensures stands { Stands E.Effect T.Time S.Store self.new }
        ensures latest { self.new.latest ≡ self.old.latest }
        ensures rows { self.new.rows ≡ self.old.rows }
        ensures put { MatchResult result (λ new. Put E.Effect T.Time S.Store (shown E.Effect T.Time S.Store self.old) (Enter time effect) self.new new (Some time)) (λ _. ⊥) }
        ensures counted { MatchResult result (λ new. count (read_from E.Effect T.Time (S.Store.meaning self.new.store).cells new) ≡ count (latest_belief (shown E.Effect T.Time S.Store self.old).beliefs) + 1) (λ _. ⊥) }
    {
        let operation = Operation {
            number: self.latest + 1,
            time,
            effect,
        };
        Ok(insert::<E, T, S>(&mut self.store, row.root, operation)?)
    }

    // Enters an effect at a time, late or not.
    pub fn enter(&mut self, time: T, effect: E) -> Result<(u32, u32), Refusal>
        ensures stands { Stands E.Effect T.Time S.Store self.new }
        ensures step { Step (kinds E.Effect T.Time) (Enter time effect) (told Changed result) (shown E.Effect T.Time S.Store self.old) (shown E.Effect T.Time S.Store self.new) }
        ensures earlier { take (self.old.latest + 1) self.new.rows ≡ take (self.old.latest + 1) self.old.rows }
        ensures refused { is_err result ≡ true → self.new ≡ self.old }
    {
        if self.newest() >= LAST_BELIEF {
            return Err(Refusal::Full);
        }
        self.claim(CELLS_TO_ENTER)?;
        let before = self.cells();
        let row = self.newest_row();
        let root = self.plant(row, time, effect)?;
        let cells = self.cells() - before;
        let belief = self.believe(Row {
            root,
            entered: Some(time),
            count: row.count + 1,
        });
        Ok((belief, cells))
    }
}
