// A plain list of operations, which the trials compare a tree with.
ghost use Rattle.std.specs.Prelude.{◌≤◌, length, vec_len};

use counter::{Counter, Level};
use effects::Effect;
use reference::Operation;
use std::alloc::{AllocError, Global};
use times::Clock;

// Operations in the order of their times. A sorted Vec, since a map would be no plainer than the tree that it is to check.
#[derive(Drop)]
pub struct Plain {
    ops: Vec<Operation<Counter, Clock>>,
}

impl Plain {
    pub(crate) fn new(heap: Global) -> Plain {
        Plain {
            ops: Vec::new(heap),
        }
    }

    pub(crate) fn ops(&self) -> &[Operation<Counter, Clock>] {
        self.ops.as_slice()
    }

    // The operations that are not after a time: those before the first of a later one.
    pub(crate) fn until(&self, at: Clock) -> &[Operation<Counter, Clock>]
        ensures { length result.now ≤ vec_len self.now.ops }
    {
        let later = self.ops.iter().position(|op| at < op.time);
        let end = later.unwrap_or(self.ops.len());
        &self.ops.as_slice()[..end]
    }

    // Puts an operation before the first of a later time.
    pub(crate) fn enter(&mut self, op: Operation<Counter, Clock>) -> Result<(), AllocError> {
        let place = self.until(op.time).len();
        self.ops.insert(place, op)?;
        Ok(())
    }

    // Takes out the operation of a number.
    pub(crate) fn withdraw(&mut self, number: u32) -> Option<Operation<Counter, Clock>> {
        let place = self.ops.iter().position(|op| op.number == number)?;
        Some(self.ops.remove(place))
    }

    pub(crate) fn has(&self, number: u32) -> bool {
        self.ops.iter().any(|op| op.number == number)
    }
}

// The start state carried through the operations.
pub(crate) fn replay(ops: &[Operation<Counter, Clock>]) -> Level {
    ops.iter()
        .fold(Counter::start_state(), |state, op| op.effect.act(state))
}
