// What entries carry besides their times: payloads, and those of the three kinds of effect.
#![tactic(auto)]

pub mod counters;
pub mod events;
pub mod payload;
pub mod setups;

pub use payload::Payload;
