// The number of a clock time, and the time in words.
ghost use Rattle.std.specs.Prelude.{◌≡◌, Some};
ghost use Rattle.times.specs.Clocks.{clock_text};

use super::Clock;
use std::fmt;

impl Clock {
    pub fn seconds(self) -> u64
        ensures { result ≡ self.seconds }
    {
        self.seconds
    }
}

impl fmt::Display for Clock {
    ghost output = { λ t. Some (clock_text t) };

    fn fmt<W: fmt::Write>(&self, f: &mut fmt::Formatter<W>) -> fmt::Result {
        let seconds = self.seconds;
        write!(f, "{seconds} s")
    }
}
