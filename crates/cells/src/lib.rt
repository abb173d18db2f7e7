// The cell: one node of a tree of operations, as a store keeps it, and its layout in bytes.
#![tactic(auto)]

pub mod codec;

pub use codec::{CELL_BYTES, decode, encode};
use words::EffectWords;

// An operation with the two sides of its tree. A side is the number of its root's cell, 0 where it is absent;
// `height` and `total` are those of the tree whose root this cell is. Sides are numbers, and no boxes: cells lie in fixed memory.
#[derive(Clone, Copy)]
pub struct Cell {
    pub time: u64,
    pub number: u32,
    pub left: u32,
    pub right: u32,
    pub height: u32,
    pub own: EffectWords,
    pub total: EffectWords,
}
