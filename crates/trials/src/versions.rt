// Entering and withdrawing operations, version after version, for at most 1,023 operations.
ghost use Rattle.std.specs.Prelude.{◌+◌, ◌≤◌, IfOk};
ghost use Rattle.trials.specs.Versions.{Version};

use effects::Effect;
use insertion::insert;
use reference::Operation;
use removal::remove;
use store::{Fault, Store};
use times::Time;

// The most cells that a change takes.
const CLAIM: u32 = 42;

pub(crate) fn enter<E: Effect, T: Time, S: Store>(
    store: &mut S,
    root: u32,
    op: Operation<E, T>,
) -> Result<u32, Fault>
    requires version { Version E.Effect T.Time S.Store store.old root op.number }
    requires room { op.number ≤ 1023 }
    ensures { IfOk result (λ k. Version E.Effect T.Time S.Store store.new k (op.number + 1)) }
{
    store.claim(CLAIM)?;
    insert(store, root, op)
}

// The new root, or the old one where there was nothing to withdraw. Numbers so far are below `next`.
pub(crate) fn withdraw<E: Effect, T: Time, S: Store>(
    store: &mut S,
    root: u32,
    next: u32,
    number: u32,
    time: T,
) -> Result<u32, Fault>
    requires version { Version E.Effect T.Time S.Store store.old root next }
    requires room { next ≤ 1023 }
    ensures { IfOk result (λ k. Version E.Effect T.Time S.Store store.new k next) }
{
    store.claim(CLAIM)?;
    let new = remove::<E, T, S>(store, root, number, time)?;
    Ok(new.unwrap_or(root))
}
