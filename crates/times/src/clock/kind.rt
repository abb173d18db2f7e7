// The order of clock times, and their words.
ghost use Rattle.std.specs.Prelude.{◌≡◌, ◌^◌, ◌<◌, Some};
ghost use Rattle.times.specs.Clocks.{clock_of, clock_upto, clock_word};
ghost use Rattle.times.specs.Orders.{clocks_tie};
ghost use Rattle.times.specs.Words.{clock_back, clock_from};
ghost use Rattle.std.proofs.Common.{rules};

use super::Clock;
use crate::Time;

impl Clock {
    pub const LAST: u64 = 1_099_511_627_775;

    // The time of so many seconds, which the clock reaches.
    fn exactly(seconds: u64) -> Clock
        requires { seconds < 2 ^ 40 }
        ensures { Some result ≡ clock_of seconds }
    {
        Clock { seconds }
    }

    pub fn new(seconds: u64) -> Option<Clock>
        ensures { result ≡ clock_of seconds }
    {
        if seconds > Clock::LAST {
            return None;
        }
        Some(Clock::exactly(seconds))
    }
}

impl Time for Clock {
    ghost upto = { clock_upto };

    ghost word = { clock_word };

    ghost reads = { clock_of };

    ghost total = { Prim.search rules };

    ghost transitive = { Prim.search rules };

    ghost antisymmetric = { λ a b p q. clocks_tie a b p q };

    ghost small = { Prim.search rules };

    ghost back = { λ a. clock_back a };

    ghost only = { λ w a is. clock_from w a is };

    fn not_after(self, other: Clock) -> bool {
        self <= other
    }

    fn to_word(self) -> u64 {
        self.seconds()
    }

    fn from_word(stored: u64) -> Option<Clock> {
        Clock::new(stored)
    }
}
