// What a counter does to a level, and the words that it is kept as.
ghost use Rattle.std.specs.Prelude.{◌≡◌, ◌≤◌, false, pos, negsuc, ◌≤ℤ◌, Some, None, IsTrue};
ghost use Rattle.std.proofs.Common.{ap};
ghost use Rattle.counter.specs.Counting.{level_of, InBounds, counter_of, no_level, level_after, limited_amount, no_count, joined};
ghost use Rattle.counter.specs.declared.Level.{Level};
ghost use Rattle.counter.specs.declared.Counter.{Counter};
ghost use Rattle.counter.specs.Packing.{counter_words, counter_read, level_words};
ghost use Rattle.counter.specs.Sames.{same_level};
ghost use Rattle.counter.specs.Limits.{limited_none, limited_twice};
ghost use Rattle.counter.specs.Words.{counter_reads_back, counter_reads_only};

use super::{Counter, Level};
use effects::Effect;
use words::{EffectWords, StateWords};

impl Level {
    pub const MOST: u32 = 1_000_000;

    // The level of so many hundredths, of which there is one.
    fn exactly(hundredths: u32) -> Level
        requires { hundredths ≤ 1000000 }
        ensures value { result.hundredths ≡ hundredths }
        ensures same { (l : Level) → hundredths ≡ l.hundredths → result ≡ l }
        ensures made { Some result ≡ level_of hundredths }
    {
        Level { hundredths }
    }

    pub fn new(hundredths: u32) -> Option<Level>
        ensures { result ≡ level_of hundredths }
    {
        if hundredths > Level::MOST {
            return None;
        }
        Some(Level::exactly(hundredths))
    }
}

impl Counter {
    pub const MOST: i32 = 1_000_000;

    // Whether there is a counter of these three numbers.
    fn exists(amount: i32, floor: u32, ceiling: u32) -> bool
        ensures inside { IsTrue result → InBounds amount floor ceiling }
        ensures outside { result ≡ false → counter_of amount floor ceiling ≡ None }
    {
        (-Counter::MOST..=Counter::MOST).contains(&amount)
            && floor <= ceiling
            && ceiling <= Level::MOST
    }

    // The counter of three numbers, of which there is one.
    fn exactly(amount: i32, floor: u32, ceiling: u32) -> Counter
        requires { InBounds amount floor ceiling }
        ensures same { (c : Counter) → amount ≡ c.amount → floor ≡ c.floor.hundredths → ceiling ≡ c.ceiling.hundredths → result ≡ c }
        ensures made { Some result ≡ counter_of amount floor ceiling }
    {
        Counter {
            amount,
            floor: Level::exactly(floor),
            ceiling: Level::exactly(ceiling),
        }
    }

    pub fn new(amount: i32, floor: u32, ceiling: u32) -> Option<Counter>
        ensures { result ≡ counter_of amount floor ceiling }
    {
        Counter::exists(amount, floor, ceiling).then(|| Counter::exactly(amount, floor, ceiling))
    }

    // Adds the amount, then raises to the floor, then lowers to the ceiling.
    fn limit(self, level: Level) -> Level
        ensures { result ≡ level_after self level }
    {
        let moved = level.hundredths as i32 + self.amount;
        let raised = moved.max(self.floor.hundredths as i32);
        let lowered = raised.min(self.ceiling.hundredths as i32);
        Level::exactly(lowered as u32)
    }

    // This counter and then another: their amounts' sum, and the other acting on this one's floor and ceiling.
    fn then(self, second: Counter) -> Counter
        ensures { result ≡ joined self second }
    {
        Counter {
            amount: limit_amount(self.amount + second.amount),
            floor: second.limit(self.floor),
            ceiling: second.limit(self.ceiling),
        }
    }
}

// An amount limited to what it may be.
fn limit_amount(sum: i32) -> i32
    ensures value { result ≡ limited_amount sum }
    ensures least { negsuc 999999 ≤ℤ result }
    ensures most { result ≤ℤ pos 1000000 }
{
    sum.clamp(-Counter::MOST, Counter::MOST)
}

impl Effect for Counter {
    type State = Level;

    ghost start = { no_level };

    ghost acts = { level_after };

    ghost unchanged = { no_count };

    ghost composed = { joined };

    ghost words = { counter_words };

    ghost reads = { counter_read };

    ghost written = { level_words };

    ghost rests = { λ s. same_level _ s (limited_none s.hundredths s.within) };

    ghost follows = { λ f g s.
        same_level _ _
        (limited_twice f.amount g.amount f.floor.hundredths g.floor.hundredths f.ceiling.hundredths g.ceiling.hundredths s.hundredths g.ordered g.ceiling.within s.within) };

    ghost back = { λ f. counter_reads_back f };

    ghost only = { λ w f is. counter_reads_only w f is };

    ghost states = { λ s t is. same_level s t (ap (λ w. w.first) is) };

    fn start_state() -> Level {
        Level::exactly(0)
    }

    fn no_change() -> Counter {
        Counter::exactly(0, 0, Level::MOST)
    }

    fn act(self, level: Level) -> Level {
        self.limit(level)
    }

    fn compose(self, second: Counter) -> Counter {
        self.then(second)
    }

    fn to_words(self) -> EffectWords {
        let raised = (self.amount + Counter::MOST) as u64;
        EffectWords {
            first: (raised << 42)
                + ((self.floor.hundredths as u64) << 21)
                + self.ceiling.hundredths as u64,
            second: 0,
        }
    }

    fn from_words(stored: EffectWords) -> Option<Counter> {
        if stored.second != 0 {
            return None;
        }
        let raised = (stored.first >> 42) as i32;
        let floor = (stored.first >> 21) % (1 << 21);
        let ceiling = stored.first % (1 << 21);
        Counter::new(raised - Counter::MOST, floor as u32, ceiling as u32)
    }

    fn state_words(level: Level) -> StateWords {
        StateWords {
            first: level.hundredths as u64,
        }
    }
}
