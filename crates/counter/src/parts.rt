// The numbers of a level and of a counter.
ghost use Rattle.std.specs.Prelude.{◌≡◌};

use super::{Counter, Level};

impl Level {
    pub fn hundredths(self) -> u32
        ensures { result ≡ self.hundredths }
    {
        self.hundredths
    }
}

impl Counter {
    pub fn amount(self) -> i32
        ensures { result ≡ self.amount }
    {
        self.amount
    }

    pub fn floor(self) -> u32
        ensures { result ≡ self.floor.hundredths }
    {
        self.floor.hundredths
    }

    pub fn ceiling(self) -> u32
        ensures { result ≡ self.ceiling.hundredths }
    {
        self.ceiling.hundredths
    }
}
