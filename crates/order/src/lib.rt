// The order of operations: by time, and by number where times are equal.
#![tactic(auto)]

ghost use Rattle.std.specs.Prelude.{◌≡◌};
ghost use Rattle.reference.specs.Beliefs.{kinds, before};

use effects::Effect;
use reference::Operation;
use times::Time;

// Whether the first operation comes before the second. Times are only ever compared here and by what is not after a time.
// Pairs compared, or a match on an ordering, are no plainer: a kind of time has `not_after` alone, and that twice.
pub fn comes_before<E: Effect, T: Time>(a: &Operation<E, T>, b: &Operation<E, T>) -> bool
    ensures { result ≡ before (kinds E.Effect T.Time) a.now b.now }
{
    !b.time.not_after(a.time) || (a.time.not_after(b.time) && a.number < b.number)
}
