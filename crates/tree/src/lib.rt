// The tree in the cells: reading its nodes, and joining an operation and two sides by one new cell.
#![tactic(auto)]

ghost use Rattle.std.specs.Prelude.{◌≡◌, ◌+◌, ◌<◌, max, Some, Ok};
ghost use Rattle.tree.specs.Trees.{Tree, root, no_side, joined, side, cell_of, node_of, Kept};
ghost use Rattle.tree.specs.Making.{Unchanged, Grew, Says, Reads, Opens, Joins};

use cells::Cell;
use effects::Effect;
use reference::Operation;
use store::{Fault, Store};
use times::Time;

// What is known of a tree without reading its operations: the number of its root's cell, 0 for no tree,
// its height, and all its effects composed. No Option around it: a cell writes 0 for an absent side, so that each cell
// that is read or put would turn the one into the other.
#[derive(Clone, Copy)]
pub struct Side<E> {
    pub number: u32,
    pub height: u32,
    pub total: Option<E>,
}

// A cell as it is read.
#[derive(Clone, Copy)]
pub struct Node<E, T> {
    pub op: Operation<E, T>,
    pub left: u32,
    pub right: u32,
    pub height: u32,
    pub total: E,
}

// A root with its two sides.
#[derive(Clone, Copy)]
pub struct Parts<E, T> {
    pub left: Side<E>,
    pub op: Operation<E, T>,
    pub right: Side<E>,
}

impl<E> Side<E> {
    // The side where there is no tree.
    pub fn none() -> Self
        ensures { result ≡ no_side }
    {
        Side {
            number: 0,
            height: 0,
            total: None,
        }
    }
}

fn compose_sides<E: Effect>(left: Option<E>, own: E, right: Option<E>) -> E
    ensures { result ≡ joined E.Effect.composed left own right }
{
    let first = match left {
        Some(total) => total.compose(own),
        None => own,
    };
    match right {
        Some(total) => first.compose(total),
        None => first,
    }
}

// The node that a cell says, if its words can be read.
fn decode<E: Effect, T: Time>(cell: Cell) -> Option<Node<E, T>>
    ensures node { (left : Side E) (o : Operation E T) (right : Side E) → cell ≡ cell_of E.Effect T.Time left o right → result ≡ Some (node_of E.Effect T.Time left o right) }
    ensures says { Says E.Effect T.Time cell result }
{
    let time = T::from_word(cell.time)?;
    let effect = E::from_words(cell.own)?;
    let total = E::from_words(cell.total)?;
    Some(Node {
        op: Operation {
            number: cell.number,
            time,
            effect,
        },
        left: cell.left,
        right: cell.right,
        height: cell.height,
        total,
    })
}

// The node of a cell, by one get.
pub fn read<E: Effect, T: Time, S: Store>(store: &mut S, k: u32) -> Result<Node<E, T>, Fault>
    ensures same { Unchanged S.Store store.old store.new }
    ensures node { Reads E.Effect T.Time (S.Store.meaning store.old) k result }
{
    let cell = store.get(k)?;
    decode(cell).ok_or(Fault::NoCell(k))
}

// What is known of the tree at a root, by one get or, where there is no tree, by none.
pub fn side_at<E: Effect, T: Time, S: Store>(store: &mut S, k: u32) -> Result<Side<E>, Fault>
    ensures same { Unchanged S.Store store.old store.new }
    ensures side { (s : Tree E T) → root s ≡ k → Kept E.Effect T.Time (S.Store.meaning store.old).cells s → result ≡ Ok (side E.Effect T.Time s) }
{
    if k == 0 {
        return Ok(Side::none());
    }
    let node = read::<E, T, S>(store, k)?;
    Ok(Side {
        number: k,
        height: node.height,
        total: Some(node.total),
    })
}

// A root with its two sides, by at most three gets.
pub fn open<E: Effect, T: Time, S: Store>(store: &mut S, k: u32) -> Result<Parts<E, T>, Fault>
    ensures same { Unchanged S.Store store.old store.new }
    ensures parts { Opens E.Effect T.Time (S.Store.meaning store.old) k result }
{
    let node = read::<E, T, S>(store, k)?;
    let left = side_at::<E, T, S>(store, node.left)?;
    let right = side_at::<E, T, S>(store, node.right)?;
    Ok(Parts {
        left,
        op: node.op,
        right,
    })
}

// The height over two sides. None comes near the limit of `u32`: cells are numbered by it, and sides have lower numbers.
fn height_over(left: u32, right: u32) -> u32
    ensures { max left right < 4294967295 → result ≡ max left right + 1 }
{
    left.max(right).saturating_add(1)
}

// Puts the cell of an operation over two sides: the only place where a cell is made.
fn put_over<E: Effect, T: Time, S: Store>(
    store: &mut S,
    parts: Parts<E, T>,
    height: u32,
    total: E,
) -> Result<Side<E>, Fault>
    requires over { max parts.left.height parts.right.height < 4294967295 → height ≡ max parts.left.height parts.right.height + 1 }
    requires composed { total ≡ joined E.Effect.composed parts.left.total parts.op.effect parts.right.total }
    ensures grew { Grew S.Store store.old store.new }
    ensures joined { Joins E.Effect T.Time (S.Store.meaning store.old) (S.Store.meaning store.new) parts.left parts.op parts.right result }
{
    let Parts { left, op, right } = parts;
    let cell = Cell {
        time: op.time.to_word(),
        number: op.number,
        left: left.number,
        right: right.number,
        height,
        own: op.effect.to_words(),
        total: total.to_words(),
    };
    let number = store.put(cell)?;
    Ok(Side {
        number,
        height,
        total: Some(total),
    })
}

// Joins an operation and two sides by one new cell.
pub fn join<E: Effect, T: Time, S: Store>(
    store: &mut S,
    parts: Parts<E, T>,
) -> Result<Side<E>, Fault>
    ensures grew { Grew S.Store store.old store.new }
    ensures joined { Joins E.Effect T.Time (S.Store.meaning store.old) (S.Store.meaning store.new) parts.left parts.op parts.right result }
{
    let Parts { left, op, right } = parts;
    let height = height_over(left.height, right.height);
    let total = compose_sides(left.total, op.effect, right.total);
    put_over(store, Parts { left, op, right }, height, total)
}
