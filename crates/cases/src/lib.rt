// Worked cases of the kinds and of the reference ledger.
#![tactic(auto)]

ghost use Rattle.std.specs.Prelude.{◌≡◌, Some};
ghost use Rattle.cases.specs.Cases.{Cases, level, set_to, take};

use counter::{Counter, Level};
use effects::{Effect, carry};

// What is left on a spool of 1,000.00 g after 300.00 g were taken: 700.00 g. That is also what is left where 900.00 g
// more were taken and that taking was withdrawn; to add the 900.00 g back would give another answer. The contract
// states this and the other worked cases of the definitions.
pub fn spool_left() -> Option<Level>
    ensures left { result ≡ Some (level 70000 tt) }
    ensures cases { Cases }
{
    let set = Counter::new(0, 100_000, 100_000)?;
    let take = Counter::new(-30_000, 0, 1_000_000)?;
    Some(left_after(set, take))
}

// What two effects leave on a spool of which nothing was entered.
fn left_after(first: Counter, second: Counter) -> Level
    ensures left { first ≡ set_to 100000 tt tt → second ≡ take 30000 tt tt → result ≡ level 70000 tt }
    ensures cases { Cases }
{
    carry(Counter::start_state(), &[first, second])
}
