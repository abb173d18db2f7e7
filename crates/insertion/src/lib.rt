// Inserting an operation: one path of the tree is copied, and every older root reads as before.
#![tactic(auto)]

ghost use Rattle.std.specs.Prelude.{◌≡◌, ◌≤◌, length, None};
ghost use Rattle.store.specs.Meaning.{fault_of};
ghost use Rattle.order.specs.Order.{Below};
ghost use Rattle.tree.specs.Trees.{Held};
ghost use Rattle.tree.specs.Reading.{read_from, height_at};
ghost use Rattle.tree.specs.Making.{Grew};
ghost use Rattle.questions.specs.Standing.{Standing};
ghost use Rattle.insertion.specs.Inserting.{insert_cost, Inserts, Inserted};

use balance::balanced;
use effects::Effect;
use order::comes_before;
use reference::Operation;
use store::{Fault, Store};
use times::Time;
use tree::{Parts, Side, join, open};

// Inserts an operation at its place in the tree at a root.
fn insert_from<E: Effect, T: Time, S: Store>(
    store: &mut S,
    k: u32,
    op: Operation<E, T>,
) -> Result<Side<E>, Fault>
    requires { Held E.Effect T.Time (S.Store.meaning store.old).cells k }
    ensures grew { Grew S.Store store.old store.new }
    ensures inserts { Inserts E.Effect T.Time (S.Store.meaning store.old) (S.Store.meaning store.new) k op result }
{
    if k == 0 {
        return join(
            store,
            Parts {
                left: Side::none(),
                op,
                right: Side::none(),
            },
        );
    }
    let parts = open::<E, T, S>(store, k)?;
    if comes_before(&op, &parts.op) {
        let left = insert_from(store, parts.left.number, op)?;
        balanced(store, Parts { left, ..parts })
    } else {
        let right = insert_from(store, parts.right.number, op)?;
        balanced(store, Parts { right, ..parts })
    }
}

// Inserts an operation, whose number is above all in the tree, and answers the new root. With at most 1,023 operations
// in the tree a claim of 42 cells makes room for it.
pub fn insert<E: Effect, T: Time, S: Store>(
    store: &mut S,
    root: u32,
    op: Operation<E, T>,
) -> Result<u32, Fault>
    requires stands { Standing E.Effect T.Time (S.Store.meaning store.old).cells root }
    requires newest { Below op.number (read_from E.Effect T.Time (S.Store.meaning store.old).cells root) }
    ensures grew { Grew S.Store store.old store.new }
    ensures inserted { fault_of (S.Store.meaning store.old) (insert_cost (height_at (S.Store.meaning store.old).cells root)) ≡ None → Inserted E.Effect T.Time (S.Store.meaning store.old) (S.Store.meaning store.new) root op result (insert_cost (height_at (S.Store.meaning store.old).cells root)) }
    ensures claimed { fault_of (S.Store.meaning store.old) 42 ≡ None → length (read_from E.Effect T.Time (S.Store.meaning store.old).cells root) ≤ 1023 → Inserted E.Effect T.Time (S.Store.meaning store.old) (S.Store.meaning store.new) root op result 42 }
{
    let side = insert_from(store, root, op)?;
    Ok(side.number)
}
