// The lines of an input: where each begins and ends, and why a line is refused.
#![tactic(auto)]

pub mod flaw;
pub mod items;
pub mod reader;

pub use flaw::Flaw;
pub use items::check_length;
pub use reader::{Item, Reader};
