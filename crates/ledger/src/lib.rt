// The ledger: beliefs of a printer, each a tree in the cells of a store.
#![tactic(auto)]

use effects::Effect;
use std::marker::{Model, PhantomData};
use store::Store;
use times::Time;

pub mod asking;
pub mod changes;
pub mod entering;
pub mod opening;
mod rows;
pub mod withdrawing;

// A belief: the number of its root's cell, 0 where it is empty, since a cell writes 0 for none, the time of the operation that its change
// entered, if it entered one, and how many operations it has.
#[derive(Clone, Copy)]
pub struct Row<T> {
    root: u32,
    entered: Option<T>,
    count: u32,
}

// A ledger of effects E at times T over the store S, which it owns. Rows above the latest belief's mean nothing: the array and
// its count are fixed memory, so that opening cannot fail.
#[derive(Drop)]
pub struct Ledger<E: Effect, T: Time, S: Store> {
    store: S,
    rows: [Row<T>; 1024],
    latest: u32,
    effects: PhantomData<E>,
}

// Contracts see the store, the rows and the latest belief's number; that the rows stand is true of every ledger.
impl<E: Effect, T: Time, S: Store> Model for Ledger<E, T, S> {
    ghost use Rattle.ledger.specs.Accounts.{Account};
    ghost use Rattle.ledger.specs.Shown.{Stands};

    ghost Value = { Account T S };

    ghost view = { λ l. record { store = l.store; rows = l.rows; latest = l.latest } };

    ghost invariant = { λ l. Stands E.Effect T.Time S.Store (record { store = l.store; rows = l.rows; latest = l.latest }) };
}
