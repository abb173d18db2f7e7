// Commands: what a line asks for, read from it and written as one.
#![tactic(auto)]

pub mod codes;
pub mod command;
pub mod display;
mod frame;
pub mod reading;
pub mod writing;

pub use command::{Code, Command, EffectKind, Opening, TimeKind, UnknownCode};
pub use reading::read;
pub use writing::write;
