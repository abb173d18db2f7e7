// Compares the tree at a root with a plain list: its operations in order, every height and every total.
ghost use Rattle.std.specs.Prelude.{◌≤◌, length, IfOk};
ghost use Rattle.tree.specs.Making.{Unchanged};

use super::plain::replay;
use super::trouble::{Trouble, same};
use counter::Counter;
use effects::Effect;
use reference::Operation;
use store::Store;
use times::Clock;
use tree::{Node, read};

// How many operations a tree has, and its height.
#[derive(Drop)]
pub struct Seen {
    pub count: usize,
    pub height: u32,
}

// Whether a total makes of the start state what the operations make of it.
fn acts_alike(plain: &[Operation<Counter, Clock>], total: Counter) -> bool {
    replay(plain).hundredths() == total.act(Counter::start_state()).hundredths()
}

// The tree at cell k, at most so deep, against the list that begins with its operations.
pub(crate) fn compare<S: Store>(
    store: &mut S,
    k: u32,
    depth: u32,
    plain: &[Operation<Counter, Clock>],
) -> Result<Seen, Trouble>
    ensures same { Unchanged S.Store store.old store.new }
    ensures within { IfOk result (λ seen. seen.count ≤ length plain.now) }
{
    if k == 0 {
        return Ok(Seen {
            count: 0,
            height: 0,
        });
    }
    if depth == 0 {
        return Err(Trouble::Differs);
    }
    let Node {
        op,
        left,
        right,
        height,
        total,
    } = read::<Counter, Clock, S>(store, k)?;
    let before = compare(store, left, depth - 1, plain)?;
    let (own, rest) = plain[before.count..].split_first().ok_or(Trouble::Differs)?;
    let after = compare(store, right, depth - 1, rest)?;
    let count = before.count + 1 + after.count;
    same(own.number == op.number && own.time == op.time)?;
    same(own.effect.amount() == op.effect.amount())?;
    same(height == before.height.max(after.height).saturating_add(1))?;
    same(before.height.abs_diff(after.height) <= 1)?;
    same(acts_alike(&plain[..count], total))?;
    Ok(Seen { count, height })
}
