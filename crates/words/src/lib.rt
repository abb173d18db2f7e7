// What effects and states are kept as: words, unsigned numbers of 64 bits.
#![tactic(auto)]

// The words of an effect. How many there are stands here alone.
#[derive(Clone, Copy)]
pub struct EffectWords {
    pub first: u64,
    pub second: u64,
}

// The words of a state. How many there are stands here alone.
#[derive(Clone, Copy, PartialEq, Eq)]
pub struct StateWords {
    pub first: u64,
}
