// The law of a ledger over its runs, proved from what a step is, before any ledger runs: specs/Law.antt has it.
#![tactic(auto)]

ghost use Rattle.reference.specs.Beliefs.{kinds};
ghost use Rattle.law.specs.Law.{Promise};
ghost use Rattle.law.specs.Theorems.{EveryRun, Throughout, OneMore, Seconds, NextFits};

use effects::Effect;
use times::Time;

// Every run of a ledger just opened keeps the promise, and kept it after each of its calls; and whatever came before,
// one call more keeps it.
pub fn promise_holds<E: Effect, T: Time>()
    ensures holds { EveryRun (kinds E.Effect T.Time) (Promise (kinds E.Effect T.Time)) }
    ensures throughout { EveryRun (kinds E.Effect T.Time) (Throughout (kinds E.Effect T.Time)) }
    ensures onward { OneMore (kinds E.Effect T.Time) }
{}

// The second ledger of which the promise speaks exists for each belief of every run.
pub fn second_ledger_exists<E: Effect, T: Time>()
    ensures { EveryRun (kinds E.Effect T.Time) (Seconds (kinds E.Effect T.Time)) }
{}

// After every run, a call whose numbers have 16 bits has an answer whose numbers have too.
pub fn answers_fit<E: Effect, T: Time>()
    ensures { EveryRun (kinds E.Effect T.Time) (NextFits (kinds E.Effect T.Time)) }
{}
