// Answers as lines: a code, then 00 and a body, or the number and the place of a refusal.
#![tactic(auto)]

pub mod lines;

pub use lines::{answer_line, flaw_line, opened_line};
