// Questions to a tree of operations, each by one descent from its root. A root and its store stay two arguments, with what
// is required of both: a type of the two would borrow the store anew at each call, and its constructor would require the same.
#![tactic(auto)]

ghost use Rattle.std.specs.Prelude.{◌≡◌, Ok};
ghost use Rattle.reference.specs.Beliefs.{kinds, state, latest};
ghost use Rattle.order.specs.Order.{has};
ghost use Rattle.tree.specs.Trees.{Held};
ghost use Rattle.tree.specs.Reading.{read_from};
ghost use Rattle.tree.specs.Making.{Unchanged};
ghost use Rattle.questions.specs.Standing.{Standing};
ghost use Rattle.questions.specs.Asking.{acted, Carries, Lasts, Finds};

use effects::Effect;
use order::comes_before;
use reference::Operation;
use store::{Fault, Store};
use times::Time;
use tree::{Node, read, side_at};

// A state as the total of a side leaves it.
fn act_side<E: Effect>(total: Option<E>, from: E::State) -> E::State
    ensures { result ≡ acted E.Effect.acts total from }
{
    match total {
        Some(effect) => effect.act(from),
        None => from,
    }
}

// Carries a state through the operations of a tree that are not after a time. The left side of an operation that is
// not after it is taken by its total.
fn carry_from<E: Effect, T: Time, S: Store>(
    store: &mut S,
    k: u32,
    until: T,
    from: E::State,
) -> Result<E::State, Fault>
    requires { Held E.Effect T.Time (S.Store.meaning store.old).cells k }
    ensures same { Unchanged S.Store store.old store.new }
    ensures carries { Carries E.Effect T.Time (S.Store.meaning store.old) k until from result }
{
    if k == 0 {
        return Ok(from);
    }
    let Node {
        op,
        left,
        right,
        ..
    } = read::<E, T, S>(store, k)?;
    if op.time.not_after(until) {
        let side = side_at::<E, T, S>(store, left)?;
        let before = act_side(side.total, from);
        carry_from::<E, T, S>(store, right, until, op.effect.act(before))
    } else {
        carry_from::<E, T, S>(store, left, until, from)
    }
}

// The last operation of a tree that is not after a time, passed up from where the descent ends.
fn last_from<E: Effect, T: Time, S: Store>(
    store: &mut S,
    k: u32,
    at: T,
) -> Result<Option<(u32, T)>, Fault>
    requires { Held E.Effect T.Time (S.Store.meaning store.old).cells k }
    ensures same { Unchanged S.Store store.old store.new }
    ensures lasts { Lasts E.Effect T.Time (S.Store.meaning store.old) k at result }
{
    if k == 0 {
        return Ok(None);
    }
    let Node {
        op,
        left,
        right,
        ..
    } = read::<E, T, S>(store, k)?;
    if op.time.not_after(at) {
        let later = last_from::<E, T, S>(store, right, at)?;
        Ok(later.or(Some((op.number, op.time))))
    } else {
        last_from::<E, T, S>(store, left, at)
    }
}

// Whether a tree has an operation of the number and the time of `sought`.
fn find_from<E: Effect, T: Time, S: Store>(
    store: &mut S,
    k: u32,
    sought: Operation<E, T>,
) -> Result<bool, Fault>
    requires { Held E.Effect T.Time (S.Store.meaning store.old).cells k }
    ensures same { Unchanged S.Store store.old store.new }
    ensures finds { Finds E.Effect T.Time (S.Store.meaning store.old) k sought result }
{
    if k == 0 {
        return Ok(false);
    }
    let Node {
        op,
        left,
        right,
        ..
    } = read::<E, T, S>(store, k)?;
    if comes_before(&op, &sought) {
        find_from(store, right, sought)
    } else if comes_before(&sought, &op) {
        find_from(store, left, sought)
    } else {
        Ok(true)
    }
}

// The start state, carried through the operations that are not after a time.
pub fn state_at<E: Effect, T: Time, S: Store>(
    store: &mut S,
    root: u32,
    at: T,
) -> Result<E::State, Fault>
    requires { Standing E.Effect T.Time (S.Store.meaning store.old).cells root }
    ensures same { Unchanged S.Store store.old store.new }
    ensures state { result ≡ Ok (state (kinds E.Effect T.Time) (read_from E.Effect T.Time (S.Store.meaning store.old).cells root) at) }
{
    carry_from::<E, T, S>(store, root, at, E::start_state())
}

// Number and time of the last operation that is not after a time, if there is one.
pub fn latest_at<E: Effect, T: Time, S: Store>(
    store: &mut S,
    root: u32,
    at: T,
) -> Result<Option<(u32, T)>, Fault>
    requires { Standing E.Effect T.Time (S.Store.meaning store.old).cells root }
    ensures same { Unchanged S.Store store.old store.new }
    ensures latest { result ≡ Ok (latest (kinds E.Effect T.Time) (read_from E.Effect T.Time (S.Store.meaning store.old).cells root) at) }
{
    last_from::<E, T, S>(store, root, at)
}

// Whether an operation of this number and this time is in the tree.
pub fn find<E: Effect, T: Time, S: Store>(
    store: &mut S,
    root: u32,
    number: u32,
    time: T,
) -> Result<bool, Fault>
    requires { Standing E.Effect T.Time (S.Store.meaning store.old).cells root }
    ensures same { Unchanged S.Store store.old store.new }
    ensures found { result ≡ Ok (has (kinds E.Effect T.Time) number time (read_from E.Effect T.Time (S.Store.meaning store.old).cells root)) }
{
    let sought: Operation<E, T> = Operation {
        number,
        time,
        effect: E::no_change(),
    };
    find_from(store, root, sought)
}
