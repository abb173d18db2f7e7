// Whole trials: many operations entered in one order of times, a third of them withdrawn, every version compared.
ghost use Rattle.std.specs.Prelude.{◌≡◌, ◌+◌, ◌≤◌, IfOk};
ghost use Rattle.trials.specs.Versions.{Newest};

use super::compare::compare;
use super::counting::Counts;
use super::plain::{Plain, replay};
use super::trouble::{Trouble, same};
use super::versions::{enter, withdraw};
use counter::Counter;
use questions::{find, latest_at, state_at};
use reference::Operation;
use std::alloc::Global;
use times::Clock;

// No tree of 1,023 operations is higher.
const HIGHEST: u32 = 14;

// The newest version: its root in a store that counts, its operations once more as a plain list, and the number of the
// operation that is entered next. That the store keeps it is a clause of each method: a model would say the fields over
// again, for a struct that nothing else sees.
#[derive(Drop)]
pub struct Trial<C: Counts> {
    store: C,
    root: u32,
    next: u32,
    plain: Plain,
}

impl<C: Counts> Trial<C> {
    // Before operation 1.
    fn open(heap: Global, store: C) -> Trial<C>
        ensures newest { Newest C.Store result }
        ensures next { result.next ≡ 1 }
    {
        Trial {
            store,
            root: 0,
            next: 1,
            plain: Plain::new(heap),
        }
    }

    // Compares the newest version with the plain list, and tells its height.
    fn compare(&mut self) -> Result<u32, Trouble>
        requires { Newest C.Store self.old }
        ensures newest { Newest C.Store self.new }
        ensures next { self.new.next ≡ self.old.next }
    {
        let seen = compare(&mut self.store, self.root, HIGHEST, self.plain.ops())?;
        same(seen.count == self.plain.ops().len())?;
        Ok(seen.height)
    }

    // Asks the newest version for the state and the latest at a time, and finds one operation: each answer against the
    // plain list's, and its gets against the height.
    fn ask(&mut self, height: u32, number: u32, at: Clock) -> Result<(), Trouble>
        requires { Newest C.Store self.old }
        ensures newest { Newest C.Store self.new }
        ensures next { self.new.next ≡ self.old.next }
    {
        let before = self.store.calls();
        let state = state_at::<Counter, Clock, C>(&mut self.store, self.root, at)?;
        same(self.store.calls().since(before).gets <= height.saturating_mul(2))?;
        let before = self.store.calls();
        let latest = latest_at::<Counter, Clock, C>(&mut self.store, self.root, at)?;
        same(self.store.calls().since(before).gets <= height)?;
        let before = self.store.calls();
        let found = find::<Counter, Clock, C>(&mut self.store, self.root, number, at)?;
        same(self.store.calls().since(before).gets <= height)?;
        let ops = self.plain.until(at);
        same(state.hundredths() == replay(ops).hundredths())?;
        same(latest.map(|last| last.0) == ops.last().map(|op| op.number))?;
        same(found == self.plain.has(number))
    }

    // Enters an operation into the tree and into the plain list, and compares the two.
    fn enter(&mut self, time: Clock, effect: Counter) -> Result<(), Trouble>
        requires newest { Newest C.Store self.old }
        requires few { self.old.next ≤ 1023 }
        ensures { IfOk result (λ _. Newest C.Store self.new × (self.new.next ≡ self.old.next + 1)) }
    {
        let number = self.next;
        let op = Operation {
            number,
            time,
            effect,
        };
        self.plain.enter(op)?;
        let before = self.store.calls();
        self.root = enter(&mut self.store, self.root, op)?;
        self.next += 1;
        let calls = self.store.calls().since(before);
        let height = self.compare()?;
        same(calls.gets <= height.saturating_mul(3).saturating_add(6))?;
        same(calls.puts <= height.saturating_add(3))?;
        self.ask(height, number, time)
    }

    // Withdraws the operation of a number from both, and compares the two.
    fn withdraw(&mut self, number: u32) -> Result<(), Trouble>
        requires newest { Newest C.Store self.old }
        requires few { self.old.next ≤ 1023 }
        ensures { IfOk result (λ _. Newest C.Store self.new × (self.new.next ≡ self.old.next)) }
    {
        let op = self.plain.withdraw(number).ok_or(Trouble::Differs)?;
        let before = self.store.calls();
        self.root = withdraw::<Counter, Clock, C>(
            &mut self.store,
            self.root,
            self.next,
            number,
            op.time,
        )?;
        let calls = self.store.calls().since(before);
        let height = self.compare()?;
        let high = height.saturating_add(1);
        same(calls.gets <= high.saturating_mul(10))?;
        same(calls.puts <= high.saturating_mul(3))?;
        self.ask(height, number, op.time)
    }
}

// Enters the operations of the numbers below `count`, which happened so many seconds after the start, and then withdraws
// every third of them.
pub(crate) fn enter_and_withdraw<C: Counts + Drop, F: Fn(u32) -> u64>(
    heap: Global,
    store: C,
    seconds_of: F,
    count: u32,
) -> Result<(), Trouble>
    requires count { (1 ≤ count) × (count ≤ 1000) }
    requires times { F.IsAlwaysCallable seconds_of }
{
    let mut trial = Trial::open(heap, store);
    for number in 1..count {
        let time = Clock::new(seconds_of(number)).ok_or(Trouble::Differs)?;
        let effect = Counter::new(10, number % 50, 900).ok_or(Trouble::Differs)?;
        trial.enter(time, effect)?;
    }
    for number in (3..count).step_by(3) {
        trial.withdraw(number)?;
    }
    Ok(())
}
