// Runs of a ledger: calls carried out one by one and in lists, with the law over runs as their contract.
#![tactic(auto)]

ghost use Rattle.std.specs.Prelude.{◌≡◌, ◌≤◌, true, [], ◌∷◌, length, is_err, IfOk, vec_len, vec_capacity};
ghost use Rattle.reference.specs.Beliefs.{kinds};
ghost use Rattle.law.specs.Runs.{Step, Run};
ghost use Rattle.law.specs.Law.{Promise, Continues};
ghost use Rattle.law.specs.Theorems.{Throughout, Seconds};
ghost use Rattle.ledger.specs.Shown.{shown, Stands};

use calls::{Answer, Call, Refusal};
use effects::Effect;
use ledger::Ledger;
use std::alloc::{AllocError, Global};
use store::Store;
use times::Time;

// Hands a call to the function that it is for.
fn dispatch<E: Effect, T: Time, S: Store>(
    ledger: &mut Ledger<E, T, S>,
    call: Call<E, T>,
) -> Result<Answer<E::State, T>, Refusal>
    ensures stands { Stands E.Effect T.Time S.Store ledger.new }
    ensures step { Step (kinds E.Effect T.Time) call result (shown E.Effect T.Time S.Store ledger.old) (shown E.Effect T.Time S.Store ledger.new) }
    ensures rows { is_err result ≡ true → ledger.new.rows ≡ ledger.old.rows }
    ensures buffer { is_err result ≡ true → S.Store.buffer ledger.new.store ≡ S.Store.buffer ledger.old.store }
{
    match call {
        Call::Enter { time, effect } => Ok(Answer::Changed(ledger.enter(time, effect)?)),
        Call::Withdraw { operation } => Ok(Answer::Changed(ledger.withdraw(operation)?)),
        Call::State { belief, time } => Ok(Answer::InState(ledger.state(belief, time)?)),
        Call::Latest { belief, time } => Ok(Answer::Newest(ledger.latest(belief, time)?)),
        Call::Count { belief } => Ok(Answer::Counted(ledger.count(belief)?)),
    }
}

// Carries out one call. Whatever calls the ledger had since it was opened, it keeps the promise with this one more.
pub fn carry_out<E: Effect, T: Time, S: Store>(
    ledger: &mut Ledger<E, T, S>,
    call: Call<E, T>,
) -> Result<Answer<E::State, T>, Refusal>
    ensures stands { Stands E.Effect T.Time S.Store ledger.new }
    ensures step { Step (kinds E.Effect T.Time) call result (shown E.Effect T.Time S.Store ledger.old) (shown E.Effect T.Time S.Store ledger.new) }
    ensures lawful { Continues (kinds E.Effect T.Time) (shown E.Effect T.Time S.Store ledger.old) (call ∷ []) (result ∷ []) (shown E.Effect T.Time S.Store ledger.new) }
    ensures rows { is_err result ≡ true → ledger.new.rows ≡ ledger.old.rows }
    ensures buffer { is_err result ≡ true → S.Store.buffer ledger.new.store ≡ S.Store.buffer ledger.old.store }
{
    dispatch(ledger, call)
}

// Carries out calls in order and notes the answer to each, for which there is memory.
fn carry_out_all<E: Effect, T: Time, S: Store>(
    ledger: &mut Ledger<E, T, S>,
    calls: &[Call<E, T>],
    answers: &mut Vec<Result<Answer<E::State, T>, Refusal>>,
)
    requires empty { (answers.old.items ≡ []) × (vec_len answers.old ≡ 0) }
    requires room { length calls.now ≤ vec_capacity answers.old }
    ensures stands { Stands E.Effect T.Time S.Store ledger.old → Stands E.Effect T.Time S.Store ledger.new }
    ensures run { Run (kinds E.Effect T.Time) calls.now answers.new.items (shown E.Effect T.Time S.Store ledger.old) (shown E.Effect T.Time S.Store ledger.new) }
{
    for call in calls {
        let answer = carry_out(ledger, *call);
        answers.push_reserved(answer);
    }
}

// The ledger that is opened over a store and carries out calls, and the answers, for which there is memory.
fn run_into<E: Effect, T: Time, S: Store>(
    store: S,
    calls: &[Call<E, T>],
    mut answers: Vec<Result<Answer<E::State, T>, Refusal>>,
) -> (Ledger<E, T, S>, Vec<Result<Answer<E::State, T>, Refusal>>)
    requires empty { (answers.items ≡ []) × (vec_len answers ≡ 0) }
    requires room { length calls.now ≤ vec_capacity answers }
    ensures promise { Promise (kinds E.Effect T.Time) (S.Store.meaning store) calls.now result.1.items (shown E.Effect T.Time S.Store result.0) }
    ensures throughout { Throughout (kinds E.Effect T.Time) (S.Store.meaning store) calls.now result.1.items (shown E.Effect T.Time S.Store result.0) }
    ensures seconds { Seconds (kinds E.Effect T.Time) (S.Store.meaning store) calls.now result.1.items (shown E.Effect T.Time S.Store result.0) }
    ensures stands { Stands E.Effect T.Time S.Store result.0 }
{
    let mut ledger = Ledger::<E, T, S>::open(store);
    carry_out_all(&mut ledger, calls, &mut answers);
    (ledger, answers)
}

// Opens a ledger over a store, carries out calls, and gives back the ledger and the answers. The promise holds of it,
// whole, and held after each call; and each belief has its second ledger. Memory for the answers is obtained first: where
// it is wanting, no ledger is opened.
pub fn run<E: Effect, T: Time, S: Store + Drop>(
    heap: Global,
    store: S,
    calls: &[Call<E, T>],
) -> Result<(Ledger<E, T, S>, Vec<Result<Answer<E::State, T>, Refusal>>), AllocError>
    ensures promise { IfOk result (λ x. Promise (kinds E.Effect T.Time) (S.Store.meaning store) calls.now x.1.items (shown E.Effect T.Time S.Store x.0)) }
    ensures throughout { IfOk result (λ x. Throughout (kinds E.Effect T.Time) (S.Store.meaning store) calls.now x.1.items (shown E.Effect T.Time S.Store x.0)) }
    ensures seconds { IfOk result (λ x. Seconds (kinds E.Effect T.Time) (S.Store.meaning store) calls.now x.1.items (shown E.Effect T.Time S.Store x.0)) }
    ensures stands { IfOk result (λ x. Stands E.Effect T.Time S.Store x.0) }
{
    let answers = Vec::with_capacity(heap, calls.len())?;
    Ok(run_into(store, calls, answers))
}
