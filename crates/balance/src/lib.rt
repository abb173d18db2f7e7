// Keeping a tree balanced: joins of sides whose heights differ by at most two. Nothing here looks at an effect or a time.
#![tactic(auto)]

ghost use Rattle.tree.specs.Making.{Grew, Joins};
ghost use Rattle.balance.specs.Turning.{NestsRight, NestsLeft, PartsMiddle, LeansLeft, LeansRight};

use effects::Effect;
use reference::Operation;
use store::{Fault, Store};
use times::Time;
use tree::{Parts, Side, join, open};

// Joins the last two of three sides, and then the first with that.
fn nest_right<E: Effect, T: Time, S: Store>(
    store: &mut S,
    left: Side<E>,
    op: Operation<E, T>,
    last: Parts<E, T>,
) -> Result<Side<E>, Fault>
    ensures grew { Grew S.Store store.old store.new }
    ensures nests { NestsRight E.Effect T.Time (S.Store.meaning store.old) (S.Store.meaning store.new) left op last.left last.op last.right result }
{
    let right = join(store, last)?;
    join(store, Parts { left, op, right })
}

// Joins the first two of three sides, and then that with the last. These two, and the leaning ones below, are mirror images:
// a parameter for the hand would turn sides over and back, in the code and in the proofs.
fn nest_left<E: Effect, T: Time, S: Store>(
    store: &mut S,
    first: Parts<E, T>,
    op: Operation<E, T>,
    right: Side<E>,
) -> Result<Side<E>, Fault>
    ensures grew { Grew S.Store store.old store.new }
    ensures nests { NestsLeft E.Effect T.Time (S.Store.meaning store.old) (S.Store.meaning store.new) first.left first.op first.right op right result }
{
    let left = join(store, first)?;
    join(store, Parts { left, op, right })
}

// Parts the middle of three sides, the double rotation: its root becomes the root of all.
fn part_middle<E: Effect, T: Time, S: Store>(
    store: &mut S,
    a: Side<E>,
    p: Operation<E, T>,
    middle: u32,
    q: Operation<E, T>,
    d: Side<E>,
) -> Result<Side<E>, Fault>
    ensures grew { Grew S.Store store.old store.new }
    ensures parts { PartsMiddle E.Effect T.Time (S.Store.meaning store.old) (S.Store.meaning store.new) a p middle q d result }
{
    let Parts { left, op, right } = open::<E, T, S>(store, middle)?;
    let low = join(
        store,
        Parts {
            left: a,
            op: p,
            right: left,
        },
    )?;
    let high = join(
        store,
        Parts {
            left: right,
            op: q,
            right: d,
        },
    )?;
    join(
        store,
        Parts {
            left: low,
            op,
            right: high,
        },
    )
}

// Joins two sides of which the left is higher by two.
fn lean_left<E: Effect, T: Time, S: Store>(
    store: &mut S,
    parts: Parts<E, T>,
) -> Result<Side<E>, Fault>
    ensures grew { Grew S.Store store.old store.new }
    ensures leans { LeansLeft E.Effect T.Time (S.Store.meaning store.old) (S.Store.meaning store.new) parts.left parts.op parts.right result }
{
    let high = open::<E, T, S>(store, parts.left.number)?;
    if high.left.height < high.right.height {
        let Parts { op, right, .. } = parts;
        part_middle(store, high.left, high.op, high.right.number, op, right)
    } else {
        let last = Parts {
            left: high.right,
            ..parts
        };
        nest_right(store, high.left, high.op, last)
    }
}

// Joins two sides of which the right is higher by two.
fn lean_right<E: Effect, T: Time, S: Store>(
    store: &mut S,
    parts: Parts<E, T>,
) -> Result<Side<E>, Fault>
    ensures grew { Grew S.Store store.old store.new }
    ensures leans { LeansRight E.Effect T.Time (S.Store.meaning store.old) (S.Store.meaning store.new) parts.left parts.op parts.right result }
{
    let high = open::<E, T, S>(store, parts.right.number)?;
    if high.right.height < high.left.height {
        let Parts { left, op, .. } = parts;
        part_middle(store, left, op, high.left.number, high.op, high.right)
    } else {
        let first = Parts {
            right: high.left,
            ..parts
        };
        nest_left(store, first, high.op, high.right)
    }
}

// Joins two sides whose heights differ by at most two: by one new cell where they differ by at most one, else by at most three.
pub fn balanced<E: Effect, T: Time, S: Store>(
    store: &mut S,
    parts: Parts<E, T>,
) -> Result<Side<E>, Fault>
    ensures grew { Grew S.Store store.old store.new }
    ensures near { Joins E.Effect T.Time (S.Store.meaning store.old) (S.Store.meaning store.new) parts.left parts.op parts.right result }
    ensures higher { LeansLeft E.Effect T.Time (S.Store.meaning store.old) (S.Store.meaning store.new) parts.left parts.op parts.right result }
    ensures lower { LeansRight E.Effect T.Time (S.Store.meaning store.old) (S.Store.meaning store.new) parts.left parts.op parts.right result }
{
    if parts.left.height.saturating_sub(parts.right.height) > 1 {
        lean_left(store, parts)
    } else if parts.right.height.saturating_sub(parts.left.height) > 1 {
        lean_right(store, parts)
    } else {
        join(store, parts)
    }
}
