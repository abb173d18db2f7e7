// Clock times.
ghost use Rattle.std.specs.Prelude.{◌^◌, ◌<◌};

mod kind;
mod parts;

// Seconds, 0 to 1,099,511,627,775, which is 2^40 - 1.
#[derive(Clone, Copy, PartialEq, Eq, PartialOrd, Ord)]
pub struct Clock {
    seconds: u64,
    ghost within: { seconds < 2 ^ 40 },
}
