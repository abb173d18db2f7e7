// The counter, a kind of effect: how much material is left, in hundredths of a gram.
#![tactic(auto)]

ghost use Rattle.std.specs.Prelude.{◌≤◌, pos, negsuc, ◌≤ℤ◌};

mod kind;
mod parts;

// How much material there is: 0 to 1,000,000 hundredths of a gram.
#[derive(Clone, Copy)]
pub struct Level {
    hundredths: u32,
    ghost within: { hundredths ≤ 1000000 },
}

// Adds an amount to a level and keeps the sum between a floor and a ceiling. No counter outside these bounds exists.
#[derive(Clone, Copy)]
pub struct Counter {
    amount: i32,
    floor: Level,
    ceiling: Level,
    ghost least: { negsuc 999999 ≤ℤ amount },
    ghost most: { amount ≤ℤ pos 1000000 },
    ghost ordered: { floor.hundredths ≤ ceiling.hundredths },
}
