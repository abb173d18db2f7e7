// Removing an operation: one path of the tree is copied, and every older root reads as before.
#![tactic(auto)]

ghost use Rattle.std.specs.Prelude.{◌≡◌, ◌<◌, ◌≤◌, true, false, length, None, Ok};
ghost use Rattle.reference.specs.Beliefs.{kinds, without};
ghost use Rattle.store.specs.Meaning.{fault_of};
ghost use Rattle.order.specs.Order.{Timed, has, struck};
ghost use Rattle.tree.specs.Trees.{Held};
ghost use Rattle.tree.specs.Reading.{read_from, height_at};
ghost use Rattle.tree.specs.Making.{Unchanged, Grew};
ghost use Rattle.questions.specs.Standing.{Standing};
ghost use Rattle.removal.specs.Removing.{remove_cost, TakesFirst, Closes, TakesOut, Removed};

use balance::balanced;
use effects::Effect;
use order::comes_before;
use questions::find;
use reference::Operation;
use store::{Fault, Store};
use times::Time;
use tree::{Parts, Side, open};

// The first operation of a tree, and the tree of the others.
struct Taken<E, T> {
    first: Operation<E, T>,
    rest: Side<E>,
}

// Parts the first operation of a tree from the others.
fn take_first<E: Effect, T: Time, S: Store>(store: &mut S, k: u32) -> Result<Taken<E, T>, Fault>
    requires held { Held E.Effect T.Time (S.Store.meaning store.old).cells k }
    requires some { 0 < k }
    ensures grew { Grew S.Store store.old store.new }
    ensures takes { TakesFirst E.Effect T.Time (S.Store.meaning store.old) (S.Store.meaning store.new) k result }
{
    let Parts { left, op, right } = open::<E, T, S>(store, k)?;
    if left.number == 0 {
        return Ok(Taken {
            first: op,
            rest: right,
        });
    }
    let Taken { first, rest } = take_first::<E, T, S>(store, left.number)?;
    let joined = balanced(
        store,
        Parts {
            left: rest,
            op,
            right,
        },
    )?;
    Ok(Taken {
        first,
        rest: joined,
    })
}

// Joins two sides without the operation that was between them: the first of the right side takes its place.
fn close<E: Effect, T: Time, S: Store>(
    store: &mut S,
    left: Side<E>,
    right: Side<E>,
) -> Result<Side<E>, Fault>
    requires { Held E.Effect T.Time (S.Store.meaning store.old).cells right.number }
    ensures grew { Grew S.Store store.old store.new }
    ensures closes { Closes E.Effect T.Time (S.Store.meaning store.old) (S.Store.meaning store.new) left right result }
{
    if right.number == 0 {
        return Ok(left);
    }
    let Taken { first, rest } = take_first::<E, T, S>(store, right.number)?;
    balanced(
        store,
        Parts {
            left,
            op: first,
            right: rest,
        },
    )
}

// Takes the operation of the number and the time of `sought` out of the tree at a root.
fn take_out<E: Effect, T: Time, S: Store>(
    store: &mut S,
    k: u32,
    sought: Operation<E, T>,
) -> Result<Side<E>, Fault>
    requires { Held E.Effect T.Time (S.Store.meaning store.old).cells k }
    ensures grew { Grew S.Store store.old store.new }
    ensures takes { TakesOut E.Effect T.Time (S.Store.meaning store.old) (S.Store.meaning store.new) k sought result }
{
    if k == 0 {
        return Ok(Side::none());
    }
    let Parts { left, op, right } = open::<E, T, S>(store, k)?;
    if comes_before(&op, &sought) {
        let smaller = take_out(store, right.number, sought)?;
        balanced(
            store,
            Parts {
                left,
                op,
                right: smaller,
            },
        )
    } else if comes_before(&sought, &op) {
        let smaller = take_out(store, left.number, sought)?;
        balanced(
            store,
            Parts {
                left: smaller,
                op,
                right,
            },
        )
    } else {
        close::<E, T, S>(store, left, right)
    }
}

// Removes the operation of a number and a time and answers the new root, or `None` where it is not there: then nothing
// has changed. With at most 1,023 operations in the tree a claim of 42 cells makes room for it. Where what has the number
// has the time, the new root reads as the operations without that of the number. Where no cell is put, the buffer is as
// it was.
pub fn remove<E: Effect, T: Time, S: Store>(
    store: &mut S,
    root: u32,
    number: u32,
    time: T,
) -> Result<Option<u32>, Fault>
    requires { Standing E.Effect T.Time (S.Store.meaning store.old).cells root }
    ensures grew { Grew S.Store store.old store.new }
    ensures absent { has (kinds E.Effect T.Time) number time (read_from E.Effect T.Time (S.Store.meaning store.old).cells root) ≡ false → (result ≡ Ok None) × Unchanged S.Store store.old store.new }
    ensures removed { has (kinds E.Effect T.Time) number time (read_from E.Effect T.Time (S.Store.meaning store.old).cells root) ≡ true → fault_of (S.Store.meaning store.old) (remove_cost (height_at (S.Store.meaning store.old).cells root)) ≡ None → Removed E.Effect T.Time (S.Store.meaning store.old) (S.Store.meaning store.new) root number time result (remove_cost (height_at (S.Store.meaning store.old).cells root)) }
    ensures claimed { has (kinds E.Effect T.Time) number time (read_from E.Effect T.Time (S.Store.meaning store.old).cells root) ≡ true → fault_of (S.Store.meaning store.old) 42 ≡ None → length (read_from E.Effect T.Time (S.Store.meaning store.old).cells root) ≤ 1023 → Removed E.Effect T.Time (S.Store.meaning store.old) (S.Store.meaning store.new) root number time result 42 }
    ensures named { Timed number time (read_from E.Effect T.Time (S.Store.meaning store.old).cells root) → struck (kinds E.Effect T.Time) number time (read_from E.Effect T.Time (S.Store.meaning store.old).cells root) ≡ without number (read_from E.Effect T.Time (S.Store.meaning store.old).cells root) }
{
    if !find::<E, T, S>(store, root, number, time)? {
        return Ok(None);
    }
    let sought: Operation<E, T> = Operation {
        number,
        time,
        effect: E::no_change(),
    };
    let side = take_out(store, root, sought)?;
    Ok(Some(side.number))
}
